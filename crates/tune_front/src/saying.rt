//! The lines that end a call.
ghost use Rattle.std.specs.Prelude.{◌≡◌, ◌≤◌, ℕ, List, IfOk};
ghost use Rattle.std.specs.List.{flat_map};
ghost use Rattle.tune_front.specs.RefusalLines.{no_memory_line};
ghost use Rattle.tune_front.specs.SaidTexts.{Said, Reported};

use crate::status::Status;
use objective::Memory;
use outside::{Sink, Unwritten, write_whole};

/// Writes the last line of a call that is to end so. The answer is how it does end.
fn say<O: Sink>(out: &mut O, line: &[u8], end: Status) -> Status
    ensures { Said (O.told out.old) (O.told out.new) end result line.now }
{
    match write_whole(out, line) {
        Ok(()) => end,
        Err(Unwritten::Fault) => Status::WriteFault,
        Err(Unwritten::Memory) => Status::NoMemory,
    }
}

/// Writes that there is no memory left.
pub fn say_no_memory<O: Sink>(out: &mut O) -> Status
    ensures { Said (O.told out.old) (O.told out.new) Status.NoMemory result no_memory_line }
{
    say(out, b"nomemory\n", Status::NoMemory)
}

/// Writes the last line of a call that is to end so, or that there was no memory to make it.
/// The answer is how it does end.
pub(crate) fn say_made<O: Sink>(out: &mut O, line: Result<Vec<u8>, Memory>, end: Status) -> Status
    ensures { (text : List ℕ) → IfOk line (λ l. l.items ≡ text)
        → Reported (O.told out.old) (O.told out.new) result end text }
{
    match line {
        Ok(line) => say(out, line.as_slice(), end),
        Err(_) => say_no_memory(out),
    }
}

/// Writes the lines of a call that is to end so, each as one piece. The answer is how it
/// does end.
pub fn say_all<O: Sink>(out: &mut O, lines: &[Vec<u8>], end: Status) -> Status
    ensures { Said (O.told out.old) (O.told out.new) end result (flat_map (λ line. line.items) lines.now) }
{
    for line in lines {
        match write_whole(out, line.as_slice()) {
            Ok(()) => {}
            Err(Unwritten::Fault) => return Status::WriteFault,
            Err(Unwritten::Memory) => return Status::NoMemory,
        }
    }
    end
}
