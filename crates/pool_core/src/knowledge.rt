//! What the steps of a board leave of the search and of what is known.
ghost use Rattle.std.specs.Prelude.{◌≡◌};
ghost use Rattle.objective.specs.declared.Answer.{Answer};
ghost use Rattle.board_steps.specs.declared.tickets.Ticket.{Ticket};
ghost use Rattle.board_steps.specs.Boards.{PlainBoard};
ghost use Rattle.board_steps.specs.KeptKnowledge.{IsUnheard, KeepsKnowledge};
ghost use Rattle.board_steps.specs.Steps.{after_killed, after_lost, after_mark, after_record, after_resume, after_stop, after_take};
ghost use Rattle.board_steps.specs.Tickets.{found_in};

use ils_face::Search;

/// Only an advance changes the search, and only the record of a live ticket that isn't marked what
/// is known. So a ticket that was marked, killed, lost or never needed changes no entry.
pub fn keep_knowledge<P: Search>()
    ensures take { (b : PlainBoard) → KeepsKnowledge b (after_take P.shown b) }
    ensures lost { (b : PlainBoard) (ticket : Ticket) → KeepsKnowledge b (after_lost b ticket) }
    ensures killed { (b : PlainBoard) (ticket : Ticket) → KeepsKnowledge b (after_killed b ticket) }
    ensures mark { (b : PlainBoard) → KeepsKnowledge b (after_mark P.shown b) }
    ensures stop { (b : PlainBoard) → KeepsKnowledge b (after_stop b) }
    ensures resume { (b : PlainBoard) → KeepsKnowledge b (after_resume b) }
    ensures unheard { (b : PlainBoard) (ticket : Ticket) (answer : Answer)
        → IsUnheard (found_in b.live ticket) → after_record b ticket answer ≡ b }
{}
