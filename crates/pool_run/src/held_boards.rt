//! A board as a seat holds it: for itself alone, or beside other seats.
ghost use Rattle.std.specs.Prelude.{◌≡◌, true, Option, Some, IfSome, IsSome, IsTrue};
ghost use Rattle.board_steps.specs.BoardInvariant.{BoardInvariant};
ghost use Rattle.board_steps.specs.Boards.{BoardState};
ghost use Rattle.pool_run.specs.HeldBoards.{WhereTold};
ghost use Rattle.pool_run.specs.RunEnds.{HasAnswered, HasGivenUp};
ghost use Rattle.pool_run.specs.Turns.{HasTurned};
ghost use Rattle.pool_run.specs.Works.{SeatTurned};

use crate::runs::shown_answer;
use crate::seat::Seat;
use crate::turns::{Next, give_up, next_turn};
use ils_face::Search;
use outside::Spawner;
use pool_core::{Board, Ticket};
use std::sync::Wait;

/// A board as a seat holds it. Each call is one step, between which others may change the board.
pub(crate) trait HeldBoard<P: Search, S: Spawner> {
    /// The board, where nobody else can change it; else it isn't told.
    ghost board: { Self → Option BoardState };

    /// Takes the next ticket into the seat's list, where the board gives one. It may wait.
    fn next_turn<R: Wait>(&mut self, rt: &R, seat: &mut Seat<S>) -> Next
        ensures seat { SeatTurned result seat.old seat.new }
        ensures turned { WhereTold (board self.old) (board self.new) (λ b b'.
            HasTurned P.shown result b b' seat.old seat.new) }
        ensures invariant { IfSome (board self.new) (BoardInvariant P.shown P.plain S.truth) };

    /// Whether the run of a ticket is still wanted. It may wait.
    fn is_wanted<R: Wait>(&self, rt: &R, ticket: &Ticket) -> bool
        ensures { IsSome (board self.now) → result ≡ true };

    /// Tells the board the answer of a child that has ended, where that is still wanted. It may wait.
    fn tell_answer<R: Wait>(&mut self, rt: &R, spawner: &S, ticket: &Ticket)
        requires held { IsTrue (S.told spawner.now).held }
        requires current { (S.told spawner.now).current ≡ Some ticket.now.run }
        ensures { WhereTold (board self.old) (board self.new) (HasAnswered ticket.now) };

    /// Tells the board that the run of a ticket can't be made. It may wait.
    fn tell_lost<R: Wait>(&mut self, rt: &R, ticket: &Ticket)
        ensures { WhereTold (board self.old) (board self.new) (HasGivenUp ticket.now) };

    /// Tells the board that the child of a ticket was killed. It may wait.
    fn tell_killed<R: Wait>(&mut self, rt: &R, ticket: &Ticket);
}

/// Held alone: each run is wanted to its end.
impl<P: Search, S: Spawner> HeldBoard<P, S> for Board<P, S> {
    ghost board = { λ b. Some b };

    fn next_turn<R: Wait>(&mut self, rt: &R, seat: &mut Seat<S>) -> Next {
        let next = next_turn(rt, self, seat);
        self.is_board();
        next
    }

    fn is_wanted<R: Wait>(&self, _rt: &R, _ticket: &Ticket) -> bool {
        true
    }

    fn tell_answer<R: Wait>(&mut self, _rt: &R, spawner: &S, ticket: &Ticket) {
        let answer = shown_answer(spawner, &ticket.run);
        self.record(ticket, answer);
    }

    fn tell_lost<R: Wait>(&mut self, _rt: &R, ticket: &Ticket) {
        give_up(self, ticket);
    }

    fn tell_killed<R: Wait>(&mut self, _rt: &R, ticket: &Ticket) {
        self.killed(ticket);
    }
}
