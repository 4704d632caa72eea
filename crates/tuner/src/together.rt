//! A task is run by one seat, or its board is worked on by several seats beside each other.
ghost use Rattle.std.specs.Prelude.{◌≡◌, ◌<◌, ◌↔◌, ℕ, IsTrue, length, slice_index_or};
ghost use Rattle.std.specs.List.{list_any};
ghost use Rattle.pool_run.specs.Seats.{SeatState};
ghost use Rattle.tuner.specs.Calls.{Call};
ghost use Rattle.tuner.specs.Conducted.{Conducted};
ghost use Rattle.tuner.specs.AnyAnswers.{may_end_any_call};
ghost use Rattle.tuner.specs.ReadyToDrive.{IsBoardOf};
ghost use Rattle.tuner.specs.SeatsTogether.{AreIdle, AreSeatsOf, HasWorkedOn, RunsOn, RunsWorked};
ghost use Rattle.tuner.specs.KeptFaults.{ReportsFault};
ghost use Rattle.tuner.specs.Tasks.{IsProcedureOf};

use crate::driving::{drive_board, open_board, run_alone};
use crate::finishing::{report_ending, report_no_memory};
use crate::kept_faults::{first_fault, report_kept};
use board_steps::Problem;
use ils_face::Search;
use outside::{Sink, Spawner};
use pool_core::Board;
use pool_run::{Seat, is_over, work};
use std::alloc::Global;
use std::sync::{Condvar, Mutex, Wait};
use std::thread;
use std::thread::Threads;
use tune_front::{Status, Task, say_no_memory};
use wrapper_lines::Program;

/// Lets a seat work on a board, after what it keeps of an earlier tuning is dropped. It may wait.
fn work_anew<R: Wait, P: Search, S: Spawner>(
    rt: &R,
    board: &Mutex<Board<P, S>>,
    bell: &Condvar,
    program: &Program,
    seat: &mut Seat<S>,
)
    requires { IsTrue seat.old.told.idle }
    ensures { HasWorkedOn seat.old seat.new }
{
    seat.clear();
    work(rt, board, bell, program, seat);
}

/// Lets seats work on a board beside each other. Of the board that comes back only what its type keeps is
/// known. It may wait.
fn work_all<R: Threads + Wait + Sync, P: Search + Send, S: Spawner + Send>(
    rt: &R,
    board: Board<P, S>,
    program: &Program,
    seats: &mut [Seat<S>],
) -> Board<P, S>
    requires idle { AreIdle seats.old }
    requires some { 0 < length seats.old }
    ensures all { length seats.new ≡ length seats.old }
    ensures worked { (i : ℕ) (d : SeatState) → i < length seats.old
        → HasWorkedOn (slice_index_or seats.old i d) (slice_index_or seats.new i d) }
{
    let board = Mutex::new(board);
    let bell = Condvar::new();
    let threads = seats.len();
    thread::for_each_mut(
        rt,
        seats,
        threads,
        &|_: usize, seat: &mut Seat<S>|
            requires { IsTrue seat.old.told.idle }
            ensures { HasWorkedOn seat.old seat.new }
        { work_anew(rt, &board, &bell, program, seat) },
    );
    board.into_inner()
}

/// Whether one of these seats had no memory.
fn is_short<S: Spawner>(seats: &[Seat<S>]) -> bool
    ensures { result ≡ list_any (λ seat. seat.short) seats.now }
{
    seats.iter().any(|seat| seat.short())
}

/// Lets the first seat drive a board of this task on, unless a seat had no memory, and prints how that
/// ended. It may wait.
fn go_on<R: Wait, P: Search, O: Sink, S: Spawner>(
    rt: &R,
    alloc: Global,
    task: &Task,
    board: &mut Board<P, S>,
    out: &mut O,
    seats: &mut [Seat<S>],
) -> Status
    requires board { IsBoardOf task.now P.plain board.old }
    requires seats { AreSeatsOf task.now seats.old }
    ensures idle { AreIdle seats.new }
    ensures ending { (call : Call) → RunsWorked call task.now S.truth seats.old seats.new
        → Conducted call (O.told out.old) (O.told out.new) result }
    ensures short { IsTrue (list_any (λ seat. seat.short) seats.old) → IsTrue (may_end_any_call result) }
{
    if is_short(seats) {
        return report_no_memory(alloc, task, board, out);
    }
    match board.resume() {
        Ok(()) => drive_board(rt, alloc, task, board, out, &mut seats[0]),
        Err(_) => report_no_memory(alloc, task, board, out),
    }
}

/// Whether both are the same problem.
fn is_same(left: &Problem, right: &Problem) -> bool
    ensures { IsTrue result ↔ (left.now ≡ right.now) }
{
    *left == *right
}

/// Prints how a board on which these seats worked came to its end; where it is no board of this task, or
/// isn't at its end, the first seat drives on. It may wait.
fn conclude<R: Wait, P: Search, O: Sink, S: Spawner>(
    rt: &R,
    alloc: Global,
    task: &Task,
    board: &mut Board<P, S>,
    out: &mut O,
    seats: &mut [Seat<S>],
) -> Status
    requires procedure { IsProcedureOf task.now.approach P.plain }
    requires seats { AreSeatsOf task.now seats.old }
    ensures idle { AreIdle seats.new }
    ensures ending { (call : Call) → RunsWorked call task.now S.truth seats.old seats.new
        → Conducted call (O.told out.old) (O.told out.new) result }
    ensures fault { ReportsFault P.shown task.now board.old seats.old result }
{
    if !is_same(board.problem(), &task.problem) {
        return run_alone::<R, P, O, S>(rt, alloc, task, out, &mut seats[0]);
    }
    if is_over(board) {
        return report_ending(alloc, task, board, out);
    }
    match first_fault(board, seats) {
        Some(number) => report_kept(alloc, task, board, number, seats, out),
        None => go_on(rt, alloc, task, board, out, seats),
    }
}

/// Runs a task over this kind of search on as many seats as it asks for, and prints how that ended. It may wait.
pub(crate) fn run_search<R: Threads + Wait + Sync, P: Search + Send, O: Sink, S: Spawner + Send>(
    rt: &R,
    alloc: Global,
    task: &Task,
    out: &mut O,
    seats: &mut [Seat<S>],
) -> Status
    requires procedure { IsProcedureOf task.now.approach P.plain }
    requires all { length seats.old ≡ task.now.problem.rules.workers }
    requires idle { AreIdle seats.old }
    ensures idle { AreIdle seats.new }
    ensures ending { (call : Call) → RunsOn call task.now S.truth seats.old seats.new
        → Conducted call (O.told out.old) (O.told out.new) result }
{
    if task.workers() == 1 {
        return run_alone::<R, P, O, S>(rt, alloc, task, out, &mut seats[0]);
    }
    match open_board::<P, S>(alloc, &task.problem) {
        Ok(board) => {
            let mut board = work_all(rt, board, &task.program, seats);
            conclude(rt, alloc, task, &mut board, out, seats)
        }
        Err(_) => say_no_memory(out),
    }
}
