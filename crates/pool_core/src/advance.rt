//! The step that follows the search.
ghost use Rattle.std.specs.Prelude.{◌≡◌, ◌-◌, IfOk, OnOk, OnErr};
ghost use Rattle.ils_face.specs.Replies.{Fits};
ghost use Rattle.board_steps.specs.Boards.{plain_board};
ghost use Rattle.board_steps.specs.BoardVerdicts.{ask_on};
ghost use Rattle.board_steps.specs.Steps.{advanced_on, after_advance, with_reply, with_wishes, with_abort};
ghost use Rattle.pool_core.specs.OpenBoards.{IsRunnableAt, StandsAt};

use crate::board::Board;
use crate::present_asks::{answer_search, asked_cell, same_wishes, verdict_by, wishes_now};
use board_steps::{Advanced, BoardVerdict, Problem};
use capping::Verdict;
use ils_face::{Reply, Search};
use objective::{Memory, Micros};
use outside::Spawner;

/// The seats beside the first.
fn others(problem: &Problem) -> u32
    ensures { result ≡ problem.now.rules.workers - 1 }
{
    problem.rules.workers - 1
}

impl<P: Search, S: Spawner> Board<P, S> {
    /// Goes on by what is known: the search is answered where that gives a reply, and the
    /// wishes are made anew. After want of memory the board is as it was.
    pub fn advance(&mut self) -> Result<Advanced, Memory>
        ensures answer { IfOk result (λ a. a ≡ advanced_on P.shown (plain_board self.old)) }
        ensures board { OnOk result (plain_board self.new ≡ after_advance P.shown (plain_board self.old)) }
        ensures err { OnErr result (self.new ≡ self.old) }
    {
        match self.board_verdict() {
            BoardVerdict::Stopped => Ok(Advanced::Stopped),
            BoardVerdict::Aborted => Ok(Advanced::Aborted),
            BoardVerdict::Open(Verdict::Ended) => Ok(Advanced::Ended),
            BoardVerdict::Open(Verdict::Reply(reply)) => self.answer(reply),
            BoardVerdict::Open(Verdict::Need { place, cutoff }) => self.wish(place, cutoff),
            BoardVerdict::Open(Verdict::Aborted { place }) => self.abort(place),
        }
    }

    /// Answers the search. What is looked ahead from where it comes is found before it moves on.
    fn answer(&mut self, reply: Reply) -> Result<Advanced, Memory>
        requires stands { StandsAt P.shown self.old (Verdict.Reply reply) }
        requires fits { Fits (ask_on P.shown (plain_board self.old)) reply }
        ensures answer { IfOk result (λ a. a ≡ Advanced.Moved) }
        ensures board { OnOk result (plain_board self.new ≡ with_reply P.shown (plain_board self.old) reply) }
        ensures err { OnErr result (self.new ≡ self.old) }
    {
        let alloc = *self.wishes.allocator();
        let others = others(&self.problem);
        self.ledger.make_room()?;
        let wishes = answer_search(alloc, &mut self.search, &self.cache, reply, others)?;
        self.wishes = wishes;
        self.decided = Some(verdict_by(&self.search, &self.cache));
        self.ledger.advance();
        Ok(Advanced::Moved)
    }

    /// Sees to the wishes where a run is needed: those of an ask that is decided are kept.
    fn wish(&mut self, place: u32, cutoff: Micros) -> Result<Advanced, Memory>
        requires stands { StandsAt P.shown self.old (Verdict.Need place cutoff) }
        requires runnable { IsRunnableAt P.shown self.old place cutoff.0 }
        ensures answer { IfOk result (λ a. a ≡ Advanced.Waits) }
        ensures board { OnOk result (plain_board self.new ≡ with_wishes P.shown (plain_board self.old)) }
        ensures err { OnErr result (self.new ≡ self.old) }
    {
        if self.decided.is_some() {
            return Ok(Advanced::Waits);
        }
        self.wish_anew(place, cutoff)
    }

    /// Makes the wishes anew where a run is needed.
    fn wish_anew(&mut self, place: u32, cutoff: Micros) -> Result<Advanced, Memory>
        requires stands { StandsAt P.shown self.old (Verdict.Need place cutoff) }
        requires runnable { IsRunnableAt P.shown self.old place cutoff.0 }
        ensures answer { IfOk result (λ a. a ≡ Advanced.Waits) }
        ensures board { OnOk result (plain_board self.new ≡ with_wishes P.shown (plain_board self.old)) }
        ensures err { OnErr result (self.new ≡ self.old) }
    {
        let alloc = *self.wishes.allocator();
        let others = others(&self.problem);
        let wishes = wishes_now(alloc, &mut self.search, &self.cache, others)?;
        if same_wishes(&self.wishes, &wishes) {
            self.decided = Some(Verdict::Need { place, cutoff });
            return Ok(Advanced::Waits);
        }
        self.ledger.make_room()?;
        self.wishes = wishes;
        self.decided = Some(Verdict::Need { place, cutoff });
        self.ledger.advance();
        Ok(Advanced::Waits)
    }

    /// Ends the search at a run that asked for it.
    fn abort(&mut self, place: u32) -> Result<Advanced, Memory>
        requires { StandsAt P.shown self.old (Verdict.Aborted place) }
        ensures answer { IfOk result (λ a. a ≡ Advanced.Aborted) }
        ensures board { OnOk result (plain_board self.new ≡ with_abort P.shown (plain_board self.old) place) }
        ensures err { OnErr result (self.new ≡ self.old) }
    {
        let cell = asked_cell(*self.wishes.allocator(), &self.search, place)?;
        self.ledger.make_room()?;
        self.aborted = Some(cell);
        self.wishes.clear();
        self.decided = None;
        self.ledger.advance();
        Ok(Advanced::Aborted)
    }
}
