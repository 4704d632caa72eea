//! A seat that works on a board beside other seats.
ghost use Rattle.std.specs.Prelude.{◌≤◌, IsTrue, IfSome};
ghost use Rattle.pool_run.specs.Seats.{IsFault, fault_of};
ghost use Rattle.pool_run.specs.Works.{HasWorked};

use crate::locked_boards::LockedBoard;
use crate::running::turn_by_turn;
use crate::seat::Seat;
use ils_face::Search;
use outside::Spawner;
use pool_core::Board;
use std::sync::{Condvar, Mutex, Wait};
use wrapper_lines::Program;

/// Works on a board beside other seats, until its search is at its end or the board is stopped: what the
/// search needs now is run, or else what it may need soon. Seats without a run wait for the bell; a ticket
/// rings it for one of them, an end or a stop for all. It may wait.
///
/// A run that was asked for and can't be made, and want of memory, stop the board; the seat keeps which
/// it was. A run ahead that can't be made is lost, and nothing else.
pub fn work<R: Wait, P: Search, S: Spawner>(
    rt: &R,
    board: &Mutex<Board<P, S>>,
    bell: &Condvar,
    program: &Program,
    seat: &mut Seat<S>,
)
    requires { IsTrue seat.old.told.idle }
    ensures idle { IsTrue seat.new.told.idle }
    ensures counts { seat.old.told.faults ≤ seat.new.told.faults }

    // Each start was of one of the tickets that it took, in their order.
    ensures worked { HasWorked program.now seat.old seat.new }

    // A kept fault is of an asked ticket, the last one, whose run is the one that failed.
    ensures fault { IfSome (fault_of seat.new) (IsFault seat.old.told seat.new.told) }
{
    let mut held = LockedBoard { board, bell };
    let _ = turn_by_turn(rt, &mut held, program, seat);
}
