//! The lines of calls that are refused, or have no memory left.
ghost use Rattle.std.specs.Prelude.{◌≡◌, IfOk};
ghost use Rattle.tune_front.specs.RefusalLines;

use crate::rule_names::rule_name;
use crate::status::What;
use objective::Memory;
use std::alloc::Global;

/// The line that there is no memory left.
pub fn no_memory_line(alloc: Global) -> Result<Vec<u8>, Memory>
    ensures { IfOk result (λ line. line.items ≡ RefusalLines.no_memory_line) }
{
    Ok(Vec::from_slice(alloc, b"nomemory\n")?)
}

/// The line of a wrong word: its place, from 0.
pub(crate) fn usage_line(alloc: Global, place: u32) -> Result<Vec<u8>, Memory>
    ensures { IfOk result (λ line. line.items ≡ RefusalLines.usage_line place) }
{
    Ok(format!(in alloc; "usage {place}\n")?.into_bytes())
}

/// The line of a failed read.
pub(crate) fn read_fault_line(alloc: Global, name: &str) -> Result<Vec<u8>, Memory>
    ensures { IfOk result (λ line. line.items ≡ RefusalLines.read_fault_line name.now) }
{
    Ok(format!(in alloc; "readfault {name}\n")?.into_bytes())
}

/// The line of a file's first fault: the file's name, the fault's line and the rule's name.
pub(crate) fn bad_file_line(
    alloc: Global,
    name: &str,
    line: u32,
    what: What,
) -> Result<Vec<u8>, Memory>
    ensures { IfOk result (λ text. text.items ≡ RefusalLines.bad_file_line name.now line what) }
{
    let rule = rule_name(what);
    Ok(format!(in alloc; "badfile {name} {line} {rule}\n")?.into_bytes())
}

/// The line of too few seats.
pub(crate) fn seats_line(alloc: Global, asked: u32, given: u32) -> Result<Vec<u8>, Memory>
    ensures { IfOk result (λ line. line.items ≡ RefusalLines.seats_line asked given) }
{
    Ok(format!(in alloc; "seats {asked} {given}\n")?.into_bytes())
}
