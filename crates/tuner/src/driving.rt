//! The board of a task is driven by one seat.
ghost use Rattle.std.specs.Prelude.{◌≡◌, [], IsTrue, IfOk};
ghost use Rattle.tuner.specs.Calls.{Call};
ghost use Rattle.tuner.specs.Conducted.{Conducted};
ghost use Rattle.tuner.specs.ReadyToDrive.{DrivesOn, IsBoardOf, IsFree};
ghost use Rattle.tuner.specs.Tasks.{IsProcedureOf};

use crate::finishing::{report_ending, report_fault, report_no_memory};
use board_steps::Problem;
use ils_face::Search;
use objective::Memory;
use outside::{Sink, Spawner};
use pool_core::Board;
use pool_run::{Driven, Seat, drive};
use std::alloc::Global;
use std::sync::Wait;
use tune_front::{Status, Task, say_no_memory};

/// The opening board of a problem.
pub(crate) fn open_board<P: Search, S: Spawner>(
    alloc: Global,
    problem: &Problem,
) -> Result<Board<P, S>, Memory>
    ensures problem { IfOk result (λ b. b.problem ≡ problem.now) }
    ensures free { IfOk result IsFree }
{
    Board::open(alloc, problem.copy()?)
}

/// Drives a board of a task with the first seat, and prints how that ended. It may wait.
pub(crate) fn drive_board<R: Wait, P: Search, O: Sink, S: Spawner>(
    rt: &R,
    alloc: Global,
    task: &Task,
    board: &mut Board<P, S>,
    out: &mut O,
    seat: &mut Seat<S>,
) -> Status
    requires idle { IsTrue seat.old.told.idle }
    requires board { IsBoardOf task.now P.plain board.old }
    requires free { IsFree board.old }
    requires cleared { task.now.problem.rules.workers ≡ 1 → seat.old.tickets ≡ [] }
    ensures idle { IsTrue seat.new.told.idle }
    ensures ending { (call : Call) → DrivesOn call task.now S.truth seat.old seat.new
        → Conducted call (O.told out.old) (O.told out.new) result }
{
    let _ = task.workers(); // one at least
    match drive(rt, board, &task.program, seat) {
        Driven::Ended => report_ending(alloc, task, board, out),
        Driven::Fault => match seat.fault() {
            Some(ticket) => report_fault(alloc, task, board, 0, ticket, out),
            None => unreachable!(),
        },
        Driven::Memory => report_no_memory(alloc, task, board, out),
    }
}

/// Runs a task on one seat, and prints how that ended. It may wait.
pub(crate) fn run_alone<R: Wait, P: Search, O: Sink, S: Spawner>(
    rt: &R,
    alloc: Global,
    task: &Task,
    out: &mut O,
    seat: &mut Seat<S>,
) -> Status
    requires idle { IsTrue seat.old.told.idle }
    requires procedure { IsProcedureOf task.now.approach P.plain }
    ensures idle { IsTrue seat.new.told.idle }
    ensures ending { (call : Call) → DrivesOn call task.now S.truth seat.old seat.new
        → Conducted call (O.told out.old) (O.told out.new) result }
{
    seat.clear();
    match open_board::<P, S>(alloc, &task.problem) {
        Ok(mut board) => drive_board(rt, alloc, task, &mut board, out, seat),
        Err(_) => say_no_memory(out),
    }
}
