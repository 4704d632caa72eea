//! What a seat does with the board between two runs.
ghost use Rattle.std.specs.Prelude.{◌≡◌, IfOk, OnErr};
ghost use Rattle.board_steps.specs.Boards.{plain_board};
ghost use Rattle.board_steps.specs.Steps.{after_lost};
ghost use Rattle.pool_run.specs.RunEnds.{stopped_for};
ghost use Rattle.pool_run.specs.Turns.{AdvancedTo, HasTurned, KeepsGoing};

use crate::seat::Seat;
use ils_face::Search;
use objective::Memory;
use outside::{Fault, Spawner};
use pool_core::{Advanced, Board, Kind, Taken, Ticket};
use std::sync::Wait;

/// What comes next for a seat.
#[derive(Clone, Copy, Debug, PartialEq, Eq)]
pub(crate) enum Next {
    /// Its last ticket is to be run.
    Run,
    /// The needed run is being made, and there is none to make ahead.
    Idle,
    /// The search is at its end, or the board is stopped.
    Over,
    /// There was no memory, and the board was stopped.
    Short,
}

/// Advances a board as far as it goes, and tells whether it needs a run then. It may wait.
fn advance_on<R: Wait, P: Search, S: Spawner>(
    rt: &R,
    board: &mut Board<P, S>,
) -> Result<bool, Memory>
    ensures advanced { IfOk result (λ needed.
        AdvancedTo P.shown needed (plain_board board.old) (plain_board board.new)) }
    ensures keeps { OnErr result (KeepsGoing (plain_board board.old) (plain_board board.new)) }
{
    for _ in rt.forever() {
        match board.advance()? {
            Advanced::Moved => {}
            Advanced::Waits => return Ok(true),
            Advanced::Ended | Advanced::Aborted | Advanced::Stopped => return Ok(false),
        }
    }
    unreachable!()
}

/// Advances a board as far as it goes, marks what isn't wanted any more, and tells whether a run is
/// needed then. It may wait.
fn advance_and_mark<R: Wait, P: Search, S: Spawner>(
    rt: &R,
    board: &mut Board<P, S>,
) -> Result<bool, Memory>
    ensures advanced { IfOk result (λ needed.
        AdvancedTo P.shown needed (plain_board board.old) (plain_board board.new)) }
    ensures keeps { OnErr result (KeepsGoing (plain_board board.old) (plain_board board.new)) }
{
    let needed = advance_on(rt, board)?;
    board.mark();
    Ok(needed)
}

/// Takes a ticket into the seat's list, where a run is needed and the board gives one. It may wait.
fn take_turn<R: Wait, P: Search, S: Spawner>(
    rt: &R,
    board: &mut Board<P, S>,
    seat: &mut Seat<S>,
) -> Result<Next, Memory>
    ensures turned { IfOk result (λ next. HasTurned P.shown next board.old board.new seat.old seat.new) }
    ensures keeps { OnErr result (KeepsGoing (plain_board board.old) (plain_board board.new)) }
    ensures same { OnErr result (seat.new ≡ seat.old) }
{
    let needed = advance_and_mark(rt, board)?;
    if !needed {
        return Ok(Next::Over);
    }
    seat.tickets.reserve(1)?;
    match board.take()? {
        Taken::Ticket(ticket) => {
            seat.tickets.push_reserved(ticket);
            Ok(Next::Run)
        }
        Taken::Idle => Ok(Next::Idle),
        Taken::Decided | Taken::Ended | Taken::Stopped => unreachable!(),
    }
}

/// Takes the next ticket into the seat's list, where the board gives one. After want of memory the
/// seat keeps that, and the board is stopped. It may wait.
pub(crate) fn next_turn<R: Wait, P: Search, S: Spawner>(
    rt: &R,
    board: &mut Board<P, S>,
    seat: &mut Seat<S>,
) -> Next
    ensures { HasTurned P.shown result board.old board.new seat.old seat.new }
{
    match take_turn(rt, board, seat) {
        Ok(next) => next,
        Err(_) => {
            seat.keep(Fault::Memory);
            board.stop();
            Next::Short
        }
    }
}

/// Ends a ticket whose run can't be made. Where it was asked for, the board is stopped: nobody goes on.
pub(crate) fn give_up<P: Search, S: Spawner>(board: &mut Board<P, S>, ticket: &Ticket)
    ensures { plain_board board.new ≡ stopped_for ticket.now.kind (after_lost (plain_board board.old) ticket.now) }
{
    board.lost(ticket);
    match ticket.kind {
        Kind::Asked => board.stop(),
        Kind::Ahead => {}
    }
}
