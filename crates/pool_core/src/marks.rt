//! The steps that mark tickets.
ghost use Rattle.std.specs.Prelude.{◌≡◌, ◌||◌, OnOk, OnErr, length, nat_lt};
ghost use Rattle.board_steps.specs.Boards.{plain_board};
ghost use Rattle.board_steps.specs.Steps.{after_mark, after_resume, after_stop, marked_board, marked_on};
ghost use Rattle.board_steps.specs.Tickets.{mark_events};
ghost use Rattle.board_steps.specs.UnwantedRuns.{all_unwanted};
ghost use Rattle.pool_core.specs.OpenBoards.{StandsAt};

use crate::board::Board;
use crate::present_asks::asked_config;
use board_steps::{BoardVerdict, Needed};
use capping::Verdict;
use ils_face::Search;
use objective::{Memory, Micros};
use outside::Spawner;

impl<P: Search, S: Spawner> Board<P, S> {
    /// Marks the live tickets whose run isn't wanted any more, and tells how many newly. Takes no
    /// memory.
    pub fn mark(&mut self) -> usize
        ensures answer { result ≡ marked_on P.shown (plain_board self.old) }
        ensures board { plain_board self.new ≡ after_mark P.shown (plain_board self.old) }
    {
        match self.board_verdict() {
            BoardVerdict::Stopped => self.mark_all(),
            BoardVerdict::Aborted => self.mark_all(),
            BoardVerdict::Open(Verdict::Ended) => self.mark_all(),
            BoardVerdict::Open(Verdict::Need { place, cutoff }) => self.mark_beside(place, cutoff),
            BoardVerdict::Open(Verdict::Reply(_)) => 0,
            BoardVerdict::Open(Verdict::Aborted { .. }) => 0,
        }
    }

    /// Marks every live ticket.
    fn mark_all(&mut self) -> usize
        ensures answer { result ≡ length (mark_events all_unwanted self.old.live) }
        ensures board { plain_board self.new ≡ marked_board (plain_board self.old) all_unwanted }
    {
        self.ledger.mark_all()
    }

    /// Marks the live tickets that aren't wanted where a run is needed.
    fn mark_beside(&mut self, place: u32, cutoff: Micros) -> usize
        requires { StandsAt P.shown self.old (Verdict.Need place cutoff) }
        ensures answer { result ≡ marked_on P.shown (plain_board self.old) }
        ensures board { plain_board self.new ≡ after_mark P.shown (plain_board self.old) }
    {
        let wishes = self.wishes.as_slice();
        let config = asked_config(&self.search);
        let needed = Needed {
            config,
            place,
            cutoff,
        };
        self.ledger.mark_beside(wishes, &needed)
    }

    /// Marks every live ticket and gives no more. Takes no memory.
    pub fn stop(&mut self)
        ensures { plain_board self.new ≡ after_stop (plain_board self.old) }
    {
        if !self.ledger.stopped() {
            self.ledger.stop();
        }
    }

    /// Goes on without live tickets, which is called where no seat runs. After want of memory
    /// the board is as it was.
    pub fn resume(&mut self) -> Result<(), Memory>
        ensures board { OnOk result (plain_board self.new ≡ after_resume (plain_board self.old)) }
        ensures err { OnErr result (self.new ≡ self.old) }
    {
        if !self.is_halted() {
            return Ok(());
        }
        self.ledger.resume()?;
        Ok(())
    }

    /// Whether the board is stopped or has a live ticket.
    fn is_halted(&self) -> bool
        ensures { result ≡ (self.now.stopped || nat_lt 0 (length self.now.live)) }
    {
        self.ledger.stopped() || !self.ledger.live().is_empty()
    }
}
