//! The turns of a seat, and the runs that it makes between them. The board is told of what came of a run.
ghost use Rattle.std.specs.Prelude.{◌≡◌, ◌≤◌, ◌∷◌, [], IfSome, IsSome, IsSomeAnd, IsTrue, OnErr, OnOk, Ok, Some, is_ok, true, false};
ghost use Rattle.outside.specs.Changes.{has_failed};
ghost use Rattle.outside.specs.Counts.{Rose};
ghost use Rattle.pool_run.specs.declared.running.Watched.{Watched};
ghost use Rattle.pool_run.specs.Drives.{DroveTo, MayDrive, driven_by, is_over};
ghost use Rattle.pool_run.specs.HeldBoards.{WhereTold};
ghost use Rattle.pool_run.specs.RunEnds.{HasAnswered, RanLast, RanTicket};
ghost use Rattle.pool_run.specs.Seats.{last_of};
ghost use Rattle.pool_run.specs.Starts.{HasStarted, MayHaveStarted};
ghost use Rattle.pool_run.specs.Works.{WorkedTo};

use crate::held_boards::HeldBoard;
use crate::runs::start_run;
use crate::seat::Seat;
use crate::turns::Next;
use ils_face::Search;
use outside::{Fail, Fault, Poll, Spawner};
use pool_core::{Kind, Ticket};
use std::alloc::Global;
use std::sync::Wait;
use wrapper_lines::Program;

/// What a child came to that was looked at.
#[derive(Clone, Copy, Debug, PartialEq, Eq)]
pub(crate) enum Watched {
    /// It has ended.
    Ended,
    /// Its run wasn't wanted any more, and it was killed.
    Killed,
}

/// Looks at a ticket's child until it has ended; one whose run isn't wanted any more is killed. It may wait.
fn watch<R: Wait, P: Search, S: Spawner, H: HeldBoard<P, S>>(
    rt: &R,
    held: &H,
    spawner: &mut S,
    ticket: &Ticket,
) -> Result<Watched, Fail>
    requires { (S.told spawner.old).idle ≡ false }
    ensures idle { IsTrue (S.told spawner.new).idle }
    ensures held { result ≡ Ok Watched.Ended → IsTrue (S.told spawner.new).held }
    ensures same { result ≡ Ok Watched.Ended → (S.told spawner.new).current ≡ (S.told spawner.old).current }
    ensures wanted { IsSome (H.board held.now) → result ≡ Ok Watched.Killed → ⊥ }
    ensures started { (S.told spawner.new).started ≡ (S.told spawner.old).started }
    ensures folders { (S.told spawner.new).folders ≡ (S.told spawner.old).folders }
    ensures failed_run { is_ok result ≡ false → (S.told spawner.new).failed_run ≡ (S.told spawner.old).current }
    ensures rose { is_ok result ≡ false → Rose (S.told spawner.old).faults (S.told spawner.new).faults }
    ensures counts { (S.told spawner.old).faults ≤ (S.told spawner.new).faults }
{
    for _ in rt.forever() {
        match spawner.poll()? {
            Poll::Ended => return Ok(Watched::Ended),
            Poll::Pending => {
                if !held.is_wanted(rt, ticket) {
                    spawner.kill();
                    return Ok(Watched::Killed);
                }
                spawner.pause();
            }
        }
    }
    unreachable!()
}

/// Makes the run of a ticket and tells the board its answer, unless it isn't wanted any more. It may wait.
fn run_ticket<R: Wait, P: Search, S: Spawner, H: HeldBoard<P, S>>(
    rt: &R,
    alloc: Global,
    held: &mut H,
    program: &Program,
    spawner: &mut S,
    ticket: &Ticket,
) -> Result<(), Fault>
    requires { IsTrue (S.told spawner.old).idle }
    ensures idle { IsTrue (S.told spawner.new).idle }
    ensures counts { (S.told spawner.old).faults ≤ (S.told spawner.new).faults }
    ensures started { let run = ticket.now.run in
        OnOk result (HasStarted program.now (S.told spawner.old) (S.told spawner.new) (run ∷ [])) }
    ensures may { MayHaveStarted program.now (S.told spawner.old) (S.told spawner.new) ticket.now.run }
    ensures failed_run { has_failed result ≡ true → (S.told spawner.new).failed_run ≡ Some ticket.now.run }
    ensures rose { has_failed result ≡ true → Rose (S.told spawner.old).faults (S.told spawner.new).faults }
    ensures answered { OnOk result (WhereTold (H.board held.old) (H.board held.new) (HasAnswered ticket.now)) }
    ensures same { OnErr result (held.new ≡ held.old) }
{
    start_run(alloc, spawner, program, &ticket.run)?;
    match watch(rt, &*held, spawner, ticket) {
        Ok(Watched::Ended) => {
            held.tell_answer(rt, spawner, ticket);
            Ok(())
        }
        Ok(Watched::Killed) => {
            held.tell_killed(rt, ticket);
            Ok(())
        }
        Err(_) => Err(Fault::Failed),
    }
}

/// Makes the run of the seat's last ticket. Where it can't be made and was asked for, the seat keeps why. It may
/// wait.
fn run_last<R: Wait, P: Search, S: Spawner, H: HeldBoard<P, S>>(
    rt: &R,
    held: &mut H,
    program: &Program,
    seat: &mut Seat<S>,
) -> Result<(), Fault>
    requires idle { IsTrue seat.old.told.idle }
    requires some { IsSome (last_of seat.old.tickets) }
    ensures idle { IsTrue seat.new.told.idle }
    ensures counts { seat.old.told.faults ≤ seat.new.told.faults }
    ensures ran { IsSomeAnd (last_of seat.old.tickets) (RanTicket program.now result seat.old seat.new) }
    ensures board { WhereTold (H.board held.old) (H.board held.new) (λ b b'.
        RanLast program.now result b b' seat.old seat.new) }
{
    let alloc = *seat.tickets.allocator();
    let Some(ticket) = seat.tickets.last() else {
        unreachable!()
    };
    let Err(fault) = run_ticket(rt, alloc, held, program, &mut seat.spawner, ticket) else {
        return Ok(());
    };
    held.tell_lost(rt, ticket);
    if ticket.kind == Kind::Ahead {
        return Ok(());
    }
    seat.keep(fault);
    Err(fault)
}

/// Takes turns and makes their runs, until no run is needed any more, a needed run can't be made or there is no
/// memory. It may wait.
pub(crate) fn turn_by_turn<R: Wait, P: Search, S: Spawner, H: HeldBoard<P, S>>(
    rt: &R,
    held: &mut H,
    program: &Program,
    seat: &mut Seat<S>,
) -> Result<(), Fault>
    requires idle { IsTrue seat.old.told.idle }
    requires may { IfSome (H.board held.old) MayDrive }
    ensures seat { WorkedTo program.now result seat.old seat.new }
    ensures board { WhereTold (H.board held.old) (H.board held.new) (λ b b'.
        DroveTo P.shown program.now (driven_by result (is_over P.shown b')) b b' seat.old seat.new) }
{
    seat.forget();
    for _ in rt.forever() {
        match held.next_turn(rt, seat) {
            Next::Run => run_last(rt, held, program, seat)?,
            Next::Idle => {}
            Next::Over => return Ok(()),
            Next::Short => return Err(Fault::Memory),
        }
    }
    unreachable!()
}
