//! One seat that drives a board to its end.
ghost use Rattle.std.specs.Prelude.{◌≡◌, ◌≤◌, ◌↔◌, [], true, false, IsTrue, IfSome, IsSome};
ghost use Rattle.board_steps.specs.RepliedAsks.{quiet_by};
ghost use Rattle.board_steps.specs.ShownEntries.{true_by};
ghost use Rattle.pool_run.specs.Drives;
ghost use Rattle.pool_run.specs.Drives.{HasDriven, ShowsAtEnd, has_ended};
ghost use Rattle.pool_run.specs.Seats.{IsFault, fault_of};
ghost use Rattle.pool_run.specs.Works.{HasWorked};

use crate::running::turn_by_turn;
use crate::seat::Seat;
use ils_face::Search;
use outside::{Fault, Spawner};
use pool_core::{Board, Ending};
use std::sync::Wait;
use wrapper_lines::Program;

/// How a drive ends.
#[derive(Clone, Copy, Debug, PartialEq, Eq)]
pub enum Driven {
    /// The search is at its end, or the walk of an ask came to a run that aborts.
    Ended,
    /// The child of the kept ticket couldn't be started or looked at.
    Fault,
    /// There is no memory left.
    Memory,
}

/// Whether a board is at its end: the search is, or a run has ended it.
pub fn is_over<P: Search, S: Spawner>(board: &Board<P, S>) -> bool
    ensures { result ≡ Drives.is_over P.shown board.now }
{
    match board.ending() {
        Ending::Running => false,
        Ending::Finished => true,
        Ending::Aborted(_) => true,
    }
}

/// How a drive ends whose turns ended so. A search that is at its end needs no memory.
fn driven_by<P: Search, S: Spawner>(end: Result<(), Fault>, board: &Board<P, S>) -> Driven
    ensures { result ≡ Drives.driven_by end (Drives.is_over P.shown board.now) }
{
    match end {
        Ok(()) => Driven::Ended,
        Err(Fault::Failed) => Driven::Fault,
        Err(Fault::Memory) => {
            if is_over(board) {
                return Driven::Ended;
            }
            Driven::Memory
        }
    }
}

/// Drives a board to its end with one seat: what the search needs is run, one run after another. It
/// may wait. After a fault or want of memory the board is stopped.
pub fn drive<R: Wait, P: Search, S: Spawner>(
    rt: &R,
    board: &mut Board<P, S>,
    program: &Program,
    seat: &mut Seat<S>,
) -> Driven
    requires idle { IsTrue seat.old.told.idle }
    requires free { board.old.live ≡ [] }
    requires going { board.old.stopped ≡ false }
    ensures idle { IsTrue seat.new.told.idle }
    ensures counts { seat.old.told.faults ≤ seat.new.told.faults }

    // What it did, by the tickets that it took.
    ensures driven { HasDriven P.plain S.truth program.now result board.old board.new seat.old seat.new }
    ensures problem { board.new.problem ≡ board.old.problem }

    // Each start was of one of the tickets that it took, in their order, however it ended.
    ensures worked { HasWorked program.now seat.old seat.new }

    // It ends exactly where the board does, and then the procedure's entries are shown where a truth is told.
    ensures ended { has_ended result ≡ Drives.is_over P.shown board.new }
    ensures shows { let view = P.shown board.new.problem.rules board.new.replies in
        let run = true_by P.plain S.truth board.new.problem in
        let whole = quiet_by P.plain S.truth board.new.problem in
        result ≡ Driven.Ended → IsSome S.truth → ShowsAtEnd board.new.aborted view run whole }

    // Otherwise it is stopped. No ticket is live.
    ensures stopped { has_ended result ≡ false → board.new.stopped ≡ true }
    ensures free { board.new.live ≡ [] }

    // A kept fault is of an asked ticket, whose run is the one that failed; it is kept exactly after a fault.
    ensures fault { IfSome (fault_of seat.new) (IsFault seat.old.told seat.new.told) }
    ensures kept { result ≡ Driven.Fault ↔ IsSome (fault_of seat.new) }
    ensures short { result ≡ Driven.Memory → seat.new.short ≡ true }
{
    let end = turn_by_turn(rt, board, program, seat);
    board.is_board();
    driven_by(end, board)
}
