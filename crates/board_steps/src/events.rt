//! The events of a journal.
use crate::tickets::Kind;
use objective::{Answer, Micros};
use run_cache::Cell;

/// What changed a board.
#[derive(Drop)]
pub enum Event {
    /// The search was answered, the walk came to an abort, or the wishes changed.
    Advance,
    /// A ticket was taken.
    Take {
        /// Why it was taken.
        kind: Kind,
        /// Its number, from 1.
        number: u64,
        /// The cell that is run.
        cell: Cell,
        /// The cutoff of the run.
        cutoff: Micros,
        /// The number of replies that the search had.
        asked_at: u64,
    },
    /// The answer of a ticket's run was learnt.
    Record {
        /// The ticket's number.
        number: u64,
        /// What the run showed.
        answer: Answer,
    },
    /// A ticket's run couldn't be made.
    Lost {
        /// The ticket's number.
        number: u64,
    },
    /// A ticket's run isn't wanted any more.
    Mark {
        /// The ticket's number.
        number: u64,
    },
    /// The run of a marked ticket was given up.
    Killed {
        /// The ticket's number.
        number: u64,
    },
    /// No more tickets are given.
    Stop,
    /// Tickets are given again.
    Resume,
}
