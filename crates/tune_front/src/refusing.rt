//! Refusals of a call: why it comes to no tuning.
ghost use Rattle.tune_front.specs.RefusalLines;
ghost use Rattle.tune_front.specs.Refusals.{ReportsMisuse, ReportsRefusal};
ghost use Rattle.tune_front.specs.SaidTexts.{Reported};

use crate::reading::refusal::Refusal;
use crate::refusal_lines::{bad_file_line, read_fault_line, seats_line, usage_line};
use crate::saying::{say_made, say_no_memory};
use crate::status::Status;
use outside::Sink;
use scenario_files::WordFault;
use std::alloc::Global;

/// Prints why words are no call.
pub fn refuse_words<O: Sink>(alloc: Global, fault: WordFault, out: &mut O) -> Status
    ensures { ReportsMisuse fault (O.told out.old) (O.told out.new) result }
{
    match fault {
        WordFault::At { place } => {
            say_made(out, usage_line(alloc, place), Status::Usage { place })
        }
        WordFault::Memory => say_no_memory(out),
    }
}

/// Prints why files make no task.
pub fn refuse_files<O: Sink>(alloc: Global, refusal: Refusal, out: &mut O) -> Status
    ensures { ReportsRefusal refusal (O.told out.old) (O.told out.new) result }
{
    match refusal {
        Refusal::BadFile {
            kind,
            name,
            line,
            what,
        } => {
            let text = bad_file_line(alloc, name.as_str(), line, what);
            say_made(out, text, Status::BadFile { kind, line, what })
        }
        Refusal::ReadFault { kind, name } => {
            let line = read_fault_line(alloc, name.as_str());
            say_made(out, line, Status::ReadFault { kind })
        }
        Refusal::Memory => say_no_memory(out),
    }
}

/// Prints that there are fewer seats than are asked for.
pub fn refuse_seats<O: Sink>(alloc: Global, asked: u32, given: u32, out: &mut O) -> Status
    ensures { let line = RefusalLines.seats_line asked given in
        Reported (O.told out.old) (O.told out.new) result (Status.TooFewSeats asked given) line }
{
    let line = seats_line(alloc, asked, given);
    say_made(out, line, Status::TooFewSeats { asked, given })
}
