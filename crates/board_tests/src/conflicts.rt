//! Runs that contradict each other: over seats whose runs are of no table.
ghost use Rattle.std.specs.Prelude.{IsTrue};
ghost use Rattle.objective.specs.Costs.{IsWithin};

use crate::checks::check;
use crate::setups::{Setup, problem};
use crate::texts::entries_text;
use basic_ils::Basic;
use ils_face::Search;
use ils_frame::Ils;
use objective::{Answer, Memory, Micros};
use outside::{Fail, Fault, MemoryChild, Poll, Spawner};
use plain_text::Text;
use pool_core::{Board, Recorded, Taken, Ticket};
use std::alloc::Global;
use wrapper_lines::Run;

/// A seat that starts nothing. What its runs would come to isn't told, so a board may be told
/// anything of them.
#[derive(Drop)]
struct Untold {
    child: MemoryChild,
}

impl Spawner for Untold {
    ghost use Rattle.std.specs.Prelude.{None};

    ghost told = { λ s. record s.child.told { started = None; folders = None } };

    ghost truth = { None };

    fn start(&mut self, _dir: &str, _words: &[Text], _run: &Run) -> Result<(), Fault> {
        self.child.clear();
        Err(Fault::Memory)
    }

    fn poll(&mut self) -> Result<Poll, Fail> {
        self.child.look(Ok(Poll::Pending))
    }

    fn output(&self) -> &[u8] {
        self.child.output()
    }

    fn kill(&mut self) {
        self.child.clear();
    }

    fn pause(&mut self) {}
}

/// Whether a run under this cutoff may give the answer.
fn may_come(answer: Answer, cutoff: Micros) -> bool
    ensures { IsTrue result → IsWithin answer cutoff.0 }
{
    match answer {
        Answer::Solved(time) => time.0 <= cutoff.0,
        _ => true,
    }
}

/// The ticket of the next run.
fn next<P: Search, S: Spawner>(board: &mut Board<P, S>) -> Result<Ticket, Memory> {
    for _ in 0..9 {
        if let Taken::Ticket(ticket) = board.take()? {
            return Ok(ticket);
        }
        let _ = board.advance()?;
    }
    Err(Memory)
}

/// What the record of a run comes to, where it may give this answer.
fn recorded<P: Search>(
    board: &mut Board<P, Untold>,
    ticket: &Ticket,
    answer: Answer,
) -> Option<Recorded> {
    if may_come(answer, ticket.run.cutoff) {
        Some(board.record(ticket, answer))
    } else {
        None
    }
}

/// Whether the records of the next runs come to these.
fn come_to<P: Search>(
    board: &mut Board<P, Untold>,
    rows: &[(Answer, Recorded)],
) -> Result<bool, Memory> {
    for (answer, wanted) in rows {
        let ticket = next(board)?;
        if recorded(board, &ticket, *answer) != Some(*wanted) {
            return Ok(false);
        }
    }
    Ok(true)
}

/// Seconds.
fn solved(seconds: u64) -> Answer {
    Answer::Solved(Micros(seconds.min(10) * 1_000_000))
}

/// Whether the incumbents are these.
fn has_found<P: Search>(
    alloc: Global,
    board: &Board<P, Untold>,
    wanted: &str,
) -> Result<bool, Memory> {
    let entries = entries_text(alloc, board.search().entries())?;
    Ok(entries.as_str() == wanted)
}

/// Whether a timeout under 7 seconds is contradicted by an answer after 3, which is counted, and
/// which then is what the run costs.
fn is_contradicted<P: Search>(alloc: Global, board: &mut Board<P, Untold>) -> Result<bool, Memory> {
    let rows = [
        (solved(3), Recorded::Fresh),
        (solved(4), Recorded::Fresh),
        (Answer::Timeout, Recorded::Fresh),
        (solved(3), Recorded::Conflict),
        (solved(1), Recorded::Fresh),
    ];
    let right = come_to(board, &rows)? && board.cache().conflicts() == 1;
    let _ = next(board);
    Ok(right && has_found(alloc, board, "0 2 7.000000 a|2 2 4.000000 b|")?)
}

/// The opening board of two comparisons of a and b on two pairs.
fn opened<P: Search>(alloc: Global) -> Result<Board<P, Untold>, Memory> {
    let setup = Setup {
        lines: "x {a, b} [a]",
        letters: "",
        runs: 2,
        budget: 2,
    };
    Board::open(alloc, problem(alloc, &setup, 1)?)
}

fn is_counted<P: Search>(alloc: Global) -> Result<bool, Memory> {
    let mut board = opened::<P>(alloc)?;
    is_contradicted(alloc, &mut board)
}

#[test]
fn a_contradicted_run_is_counted(rt: HostRuntime) {
    let right = is_counted::<Ils<Basic>>(rt.alloc());
    check(&rt, matches!(right, Ok(true)), "conflict");
}
