//! The top call.
ghost use Rattle.std.specs.Prelude.{◌≡◌, IsTrue, All, length};
ghost use Rattle.outside.specs.WholePieces.{WroteBadly};
ghost use Rattle.tuner.specs.Calls.{Call, call_of};
ghost use Rattle.tuner.specs.Causes.{HasCause};
ghost use Rattle.tuner.specs.Conducted.{Conducted, IsAbout};
ghost use Rattle.tuner.specs.PrintedTexts.{Printed};
ghost use Rattle.tuner.specs.Promises.{AbortSentence, Headline, IsComplete, PrintsFirst};
ghost use Rattle.tuner.specs.Promises.{RefusesFaulty, RefusesMisused, RefusesUnseated, Starts};

use crate::together::run_search;
use basic_ils::Basic;
use focused_ils::Focused;
use ils_frame::Ils;
use outside::{Files, Sink, Spawner};
use plain_text::Text;
use pool_run::Seat;
use scenario_files::{Approach, read_words};
use std::alloc::Global;
use std::sync::Wait;
use std::thread::Threads;
use tune_front::{Status, Task, read_task, refuse_files, refuse_seats, refuse_words};

/// Runs a task by its approach on as many of the seats as it asks for, where there are so many. It may wait.
fn run_task<R: Threads + Wait + Sync, O: Sink, S: Spawner + Send>(
    rt: &R,
    alloc: Global,
    task: &Task,
    out: &mut O,
    seats: &mut [Seat<S>],
) -> Status
    requires { All (λ seat. IsTrue seat.told.idle) seats.old }
    ensures ending { (call : Call) → IsAbout call task.now S.truth seats.old seats.new
        → Conducted call (O.told out.old) (O.told out.new) result }
    ensures idle { All (λ seat. IsTrue seat.told.idle) seats.new }
{
    let workers = task.workers();
    if seats.len() < workers as usize {
        return refuse_seats(alloc, workers, seats.len() as u32, out);
    }
    let (seats, _) = seats.split_at_mut(workers as usize);
    match task.approach {
        Approach::Basic => run_search::<R, Ils<Basic>, O, S>(rt, alloc, task, out, seats),
        Approach::Focused => run_search::<R, Ils<Focused>, O, S>(rt, alloc, task, out, seats),
    }
}

/// The call but for its log: the words and the files that they name make a task, which is run. It may wait.
fn conduct<R: Threads + Wait + Sync, F: Files, O: Sink, S: Spawner + Send>(
    rt: &R,
    alloc: Global,
    words: &[Text],
    files: &mut F,
    out: &mut O,
    seats: &mut [Seat<S>],
) -> Status
    requires { All (λ seat. IsTrue seat.told.idle) seats.old }
    ensures ending { let call = call_of words.now (F.told files.old) (F.told files.new) S.truth seats.old seats.new in
        Conducted call (O.told out.old) (O.told out.new) result }
    ensures idle { All (λ seat. IsTrue seat.told.idle) seats.new }
{
    match read_words(alloc, words) {
        Ok(given) => match read_task(alloc, files, given) {
            Ok(task) => run_task(rt, alloc, &task, out, seats),
            Err(refusal) => refuse_files(alloc, refusal, out),
        },
        Err(fault) => refuse_words(alloc, fault, out),
    }
}

/// Tunes: reads the words and the files that they name, searches for the best settings by
/// runs of as many seats as the scenario has workers, and prints each incumbent and the last
/// line. It may wait.
///
/// What a run has shown isn't run again, and a run gets no more time than could change its
/// comparison: what is printed is what full runs would lead to.
///
/// With several workers one seat runs what the search needs, while others run ahead what it may
/// need soon; what isn't wanted any more is killed. What is promised of the output is the same for
/// every number of workers, whatever the order in which children end; nothing is promised of
/// which seat runs what, or of the time that it takes.
///
/// There have to be as many seats as the scenario has workers; a seat that is used is cleared
/// first. `out` gets the lines; `log` gets nothing yet. The status says how it ended, and each
/// answer but `NoMemory` has its cause in a clause.
pub fn tune<R: Threads + Wait + Sync, F: Files, O: Sink, S: Spawner + Send>(
    rt: &R,
    alloc: Global,
    words: &[Text],
    files: &mut F,
    out: &mut O,
    log: &mut O,
    seats: &mut [Seat<S>],
) -> Status
    requires { All (λ seat. IsTrue seat.told.idle) seats.old }

    // With Ok the output took the lines of a search that made all comparisons, and nothing
    // else; where the seats tell a truth that never aborts, they are those of the uncapped
    // procedure.
    ensures headline { Headline words.now (F.told files.old) S.truth (O.told out.old) (O.told out.new) result }

    // With Ok and one worker each start was of a run that was due, under the cutoff that was due
    // for it, and a cell was run again only with more time, after a timeout.
    ensures starts { Starts words.now (F.told files.old) (F.told files.new) S.truth seats.old seats.new result }

    // Each answer but NoMemory has its cause, and each refusal comes where its cause is.
    ensures cause { HasCause words.now (F.told files.old) (F.told files.new) S.truth seats.old seats.new result }
    ensures write_fault { result ≡ Status.WriteFault → WroteBadly (O.told out.old) (O.told out.new) }
    ensures usage { RefusesMisused words.now result }
    ensures bad_file { RefusesFaulty words.now (F.told files.old) result }
    ensures too_few { RefusesUnseated words.now (F.told files.old) (length seats.old) result }

    // Where files and seats work and nothing aborts, the answer is Ok, NoMemory or WriteFault.
    ensures complete { IsComplete words.now (F.told files.old) (F.told files.new) S.truth seats.old seats.new result }

    // Where outcomes may abort: what was printed with Ok and with Aborted, and the entries
    // that were printed whatever the answer is.
    ensures aborts { AbortSentence words.now (F.told files.old) S.truth (O.told out.old) (O.told out.new) result }
    ensures first_entries { PrintsFirst words.now (F.told files.old) S.truth (O.told out.old) (O.told out.new) }

    // What the output holds after each answer, also where it couldn't be written whole; with
    // ChildFault the entries that come before the failed run's ask are among them.
    ensures ending { Printed words.now (F.told files.old) S.truth seats.new (O.told out.old) (O.told out.new) result }
    ensures log { log.new ≡ log.old }
    ensures idle { All (λ seat. IsTrue seat.told.idle) seats.new }
{
    let _ = &log;
    conduct(rt, alloc, words, files, out, seats)
}
