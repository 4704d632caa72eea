//! A board beside other seats. It is locked for single steps alone, never while a child is started,
//! looked at or killed.
ghost use Rattle.std.specs.Prelude.{◌≡◌, IsTrue, None, Some};

use crate::held_boards::HeldBoard;
use crate::runs::shown_answer;
use crate::seat::Seat;
use crate::turns::{Next, give_up, next_turn};
use ils_face::Search;
use outside::Spawner;
use pool_core::{Board, Kind, Standing, Ticket};
use std::sync::{Condvar, Mutex, Wait};

/// A board behind a lock, and the bell that seats without a run wait for. A ticket wakes one of them, since it
/// may not be the only one, and an end or a stop wakes them all. Other steps wake nobody: the seat that made
/// them takes the next turn itself.
#[derive(Drop)]
pub(crate) struct LockedBoard<'a, P: Search, S: Spawner> {
    pub(crate) board: &'a Mutex<Board<P, S>>,
    pub(crate) bell: &'a Condvar,
}

/// Records the answer of a child that has ended, where its ticket isn't marked; else it isn't read.
fn record_or_end<P: Search, S: Spawner>(board: &mut Board<P, S>, spawner: &S, ticket: &Ticket)
    requires held { IsTrue (S.told spawner.now).held }
    requires current { (S.told spawner.now).current ≡ Some ticket.now.run }
{
    if board.standing(ticket) == Standing::Live {
        let answer = shown_answer(spawner, &ticket.run);
        board.record(ticket, answer);
    } else {
        board.killed(ticket);
    }
}

/// Held beside others: a seat that is given nothing waits for the bell, from the same hold on.
impl<'a, P: Search, S: Spawner> HeldBoard<P, S> for LockedBoard<'a, P, S> {
    ghost board = { λ held. None };

    fn next_turn<R: Wait>(&mut self, rt: &R, seat: &mut Seat<S>) -> Next {
        let mut locked = self.board.lock(rt);
        let next = next_turn(rt, &mut *locked, seat);
        match next {
            Next::Idle => drop(self.bell.wait(rt, locked)),
            Next::Run => {
                drop(locked);
                self.bell.notify_one();
            }
            Next::Over | Next::Short => {
                drop(locked);
                self.bell.notify_all();
            }
        }
        next
    }

    fn is_wanted<R: Wait>(&self, rt: &R, ticket: &Ticket) -> bool {
        self.board.lock(rt).standing(ticket) == Standing::Live
    }

    fn tell_answer<R: Wait>(&mut self, rt: &R, spawner: &S, ticket: &Ticket) {
        record_or_end(&mut *self.board.lock(rt), spawner, ticket);
    }

    fn tell_lost<R: Wait>(&mut self, rt: &R, ticket: &Ticket) {
        let mut locked = self.board.lock(rt);
        give_up(&mut *locked, ticket);
        drop(locked);
        if ticket.kind == Kind::Asked {
            self.bell.notify_all();
        }
    }

    fn tell_killed<R: Wait>(&mut self, rt: &R, ticket: &Ticket) {
        self.board.lock(rt).killed(ticket);
    }
}
