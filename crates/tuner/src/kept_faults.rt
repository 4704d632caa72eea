//! Which fault is reported of those that seats keep which worked beside each other.
ghost use Rattle.std.specs.Prelude.{◌≡◌, ◌↔◌, IsTrue, IsSomeAnd, slice_get};
ghost use Rattle.board_steps.specs.Numbering.{IsRunnableTake};
ghost use Rattle.tuner.specs.AnyAnswers.{EndsAs};
ghost use Rattle.tuner.specs.Calls.{Call};
ghost use Rattle.tuner.specs.Conducted.{Conducted};
ghost use Rattle.tuner.specs.KeptFaults.{IsFirst, IsTakeOf, IsTakenIn, KeepsTaken, takes};
ghost use Rattle.tuner.specs.ReadyToDrive.{IsBoardOf};
ghost use Rattle.tuner.specs.SeatsTogether.{AreSeatsOf, RunsWorked};

use crate::cell_keys::is_key_of;
use crate::finishing::report_fault;
use board_steps::{Event, Kind, Problem, Ticket};
use ils_face::Search;
use outside::{Sink, Spawner};
use pool_core::Board;
use pool_run::Seat;
use std::alloc::Global;
use tune_front::{Status, Task};

/// Whether an event is that this ticket was taken.
fn is_taking(event: &Event, ticket: &Ticket) -> bool
    ensures { result ≡ takes ticket.now event.now }
{
    match event {
        Event::Take {
            number,
            kind,
            cell,
            cutoff,
            asked_at,
        } => {
            *number == ticket.number
                && *asked_at == ticket.place
                && *kind == ticket.kind
                && *cell == ticket.cell
                && cutoff.0 == ticket.run.cutoff.0
        }
        _ => false,
    }
}

/// Whether an event of a problem's board is that this ticket was taken, which was asked for.
fn is_take_of(problem: &Problem, event: &Event, ticket: &Ticket) -> bool
    requires { IsRunnableTake problem.now.rules event.now }
    ensures { IsTrue result ↔ IsTakeOf problem.now ticket.now event.now }
{
    if !is_taking(event, ticket) {
        return false;
    }
    match ticket.kind {
        Kind::Asked => is_key_of(&ticket.run.key, problem, &ticket.cell),
        Kind::Ahead => false,
    }
}

/// Whether this ticket is one that a board gave for a run that was needed.
fn is_asked_on<P: Search, S: Spawner>(board: &Board<P, S>, ticket: &Ticket) -> bool
    ensures { IsTrue result ↔ IsTakenIn board.now.problem board.now.journal ticket.now }
{
    board.is_board();
    let journal = board.journal();
    for event in journal {
        if is_take_of(board.problem(), event, ticket) {
            return true;
        }
    }
    false
}

/// Whether a seat keeps a ticket of a board whose run failed.
fn keeps_fault<P: Search, S: Spawner>(board: &Board<P, S>, seat: &Seat<S>) -> bool
    ensures { IsTrue result ↔ KeepsTaken board.now seat.now }
{
    match seat.fault() {
        Some(ticket) => is_asked_on(board, ticket),
        None => false,
    }
}

/// The number of the first seat that keeps a ticket of a board whose run failed. Takes no memory.
pub(crate) fn first_fault<P: Search, S: Spawner>(
    board: &Board<P, S>,
    seats: &[Seat<S>],
) -> Option<usize>
    ensures { IsFirst (KeepsTaken board.now) seats.now result }
{
    for k in 0..seats.len() {
        if keeps_fault(board, &seats[k]) {
            return Some(k);
        }
    }
    None
}

/// Prints what a board of this task shows so far, and the run of the ticket that a seat keeps.
pub(crate) fn report_kept<P: Search, O: Sink, S: Spawner>(
    alloc: Global,
    task: &Task,
    board: &Board<P, S>,
    number: usize,
    seats: &[Seat<S>],
    out: &mut O,
) -> Status
    requires board { IsBoardOf task.now P.plain board.now }
    requires seats { AreSeatsOf task.now seats.now }
    requires kept { IsSomeAnd (slice_get seats.now number) (KeepsTaken board.now) }
    ensures ending { (call : Call) → RunsWorked call task.now S.truth seats.now seats.now
        → Conducted call (O.told out.old) (O.told out.new) result }
    ensures answer { EndsAs (Status.ChildFault number) result }
{
    let _ = task.workers();
    match seats[number].fault() {
        Some(ticket) => report_fault(alloc, task, board, number as u32, ticket, out),
        None => unreachable!(),
    }
}
