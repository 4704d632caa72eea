//! The steps that end a ticket.
ghost use Rattle.std.specs.Prelude.{◌≡◌, true, Some, IsSome, option_map};
ghost use Rattle.std.specs.Option.{is_some};
ghost use Rattle.objective.specs.Costs.{IsWithin};
ghost use Rattle.board_steps.specs.AgreeingBoards.{IsTold};
ghost use Rattle.board_steps.specs.Boards.{plain_board};
ghost use Rattle.board_steps.specs.Steps;
ghost use Rattle.board_steps.specs.Steps.{after_killed, after_lost, after_record, recorded_on};
ghost use Rattle.board_steps.specs.Tickets.{found_in, standing_of};
ghost use Rattle.pool_core.specs.Answers.{is_known, is_marked};

use crate::board::Board;
use board_steps::{Event, Recorded, Ticket};
use ils_face::Search;
use objective::Answer;
use outside::Spawner;
use run_cache::Learnt;

/// What a record comes to by what is learnt.
fn recorded_as(learnt: Learnt) -> Recorded
    ensures { result ≡ Steps.recorded_as learnt }
{
    match learnt {
        Learnt::Fresh => Recorded::Fresh,
        Learnt::Same => Recorded::Same,
        Learnt::Conflict => Recorded::Conflict,
    }
}

impl<P: Search, S: Spawner> Board<P, S> {
    /// Learns what a ticket's run showed. Of a marked or a strange ticket nothing is learnt. Takes
    /// no memory.
    pub fn record(&mut self, ticket: &Ticket, answer: Answer) -> Recorded
        requires within { IsWithin answer ticket.now.run.cutoff.0 }
        requires told { IsTold S.truth ticket.now answer }
        ensures answer { result ≡ recorded_on (plain_board self.old) ticket.now answer }
        ensures board { plain_board self.new ≡ after_record (plain_board self.old) ticket.now answer }
    {
        match self.ledger.found(ticket) {
            None => Recorded::Stranger,
            Some(l) => {
                if l.marked {
                    return Recorded::Marked;
                }
                let number = l.ticket.number;
                let learnt = self
                    .cache
                    .learn(&l.ticket.cell, l.ticket.run.cutoff, answer);
                self.decided = None;
                self.ledger.end(number, Event::Record { number, answer });
                recorded_as(learnt)
            }
        }
    }

    /// Ends a ticket whose run couldn't be made, and tells whether it was live. A run ahead isn't
    /// made ahead again. Takes no memory.
    pub fn lost(&mut self, ticket: &Ticket) -> bool
        ensures answer { result ≡ is_known (found_in self.old.live ticket.now) }
        ensures board { plain_board self.new ≡ after_lost (plain_board self.old) ticket.now }
    {
        match self.ledger.found(ticket) {
            None => false,
            Some(l) => {
                let number = l.ticket.number;
                self.ledger.lose(number);
                true
            }
        }
    }

    /// Ends a marked ticket whose run was given up, and tells whether it was live and marked.
    /// Takes no memory.
    pub fn killed(&mut self, ticket: &Ticket) -> bool
        ensures answer { result ≡ is_marked (found_in self.old.live ticket.now) }
        ensures board { plain_board self.new ≡ after_killed (plain_board self.old) ticket.now }
    {
        match self.ledger.found(ticket) {
            None => false,
            Some(l) => {
                if !l.marked {
                    return false;
                }
                let number = l.ticket.number;
                self.ledger.end(number, Event::Killed { number });
                true
            }
        }
    }
}
