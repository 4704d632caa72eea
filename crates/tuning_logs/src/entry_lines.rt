//! The lines of incumbents and of an end.
ghost use Rattle.std.specs.Prelude.{◌≡◌, ◌++◌, OnOk, OnErr};
ghost use Rattle.param_space.specs.Space.{Belongs};
ghost use Rattle.tuning_logs.specs.EntryLines.{entry_line, end_line};

use ils_face::Entry;
use objective::Memory;
use param_space::Space;
use plain_text::push_seconds;

/// Appends an incumbent's line: its comparison number, its runs, its sum in seconds and its
/// settings. After want of memory `out` is as it was.
pub fn push_entry(space: &Space, entry: &Entry, out: &mut Vec<u8>) -> Result<(), Memory>
    requires { Belongs space.now.params entry.now.config }
    ensures ok { OnOk result (out.new.items ≡ out.old.items ++ entry_line space.now entry.now) }
    ensures err { OnErr result (out.new.items ≡ out.old.items) }
{
    let alloc = *out.allocator();
    let (compared, runs) = (entry.compared, entry.runs);
    let mut line = format!(in alloc; "{compared} {runs} ")?.into_bytes();
    push_seconds(&mut line, entry.sum.0)?;
    line.push(b' ')?;
    space.push_settings(&entry.config, &mut line)?;
    line.push(b'\n')?;
    out.extend_from_slice(line.as_slice())?;
    Ok(())
}

/// Appends the last line of a tuning that ended: `end`, and then the line of its incumbent,
/// whose number is that of the comparisons made. After want of memory `out` is as it was.
pub fn push_end(space: &Space, entry: &Entry, out: &mut Vec<u8>) -> Result<(), Memory>
    requires { Belongs space.now.params entry.now.config }
    ensures ok { OnOk result (out.new.items ≡ out.old.items ++ end_line space.now entry.now) }
    ensures err { OnErr result (out.new.items ≡ out.old.items) }
{
    let mut line = Vec::from_slice(*out.allocator(), b"end ")?;
    push_entry(space, entry, &mut line)?;
    out.extend_from_slice(line.as_slice())?;
    Ok(())
}
