//! What the steps of a board answer.
use crate::tickets::Ticket;
use capping::Verdict;

/// Where a board stands.
#[derive(Clone, Copy, Debug, PartialEq, Eq)]
pub enum BoardVerdict {
    /// It is stopped.
    Stopped,
    /// The walk of an ask came to a run that aborts.
    Aborted,
    /// The search goes by what is known of its present ask.
    Open(Verdict),
}

/// What an advance comes to.
#[derive(Clone, Copy, Debug, PartialEq, Eq)]
pub enum Advanced {
    /// The search was answered.
    Moved,
    /// A run is needed.
    Waits,
    /// The search has ended.
    Ended,
    /// The walk of the present ask came to a run that aborts.
    Aborted,
    /// The board is stopped.
    Stopped,
}

/// What a take comes to.
#[derive(Drop)]
pub enum Taken {
    /// A run is to be made.
    Ticket(Ticket),
    /// The needed run is being made, and no wish is free.
    Idle,
    /// The present ask needs no run: the board has to advance.
    Decided,
    /// The search has ended or is aborted.
    Ended,
    /// The board is stopped.
    Stopped,
}

/// What a record comes to.
#[derive(Clone, Copy, Debug, PartialEq, Eq)]
pub enum Recorded {
    /// More is known.
    Fresh,
    /// The same is known.
    Same,
    /// The answer contradicts what is known.
    Conflict,
    /// The ticket is marked, and nothing is learnt.
    Marked,
    /// No live ticket is the same.
    Stranger,
}

/// What a board says of a ticket.
#[derive(Clone, Copy, Debug, PartialEq, Eq)]
pub enum Standing {
    /// Its run is wanted.
    Live,
    /// Its run isn't wanted any more.
    Marked,
    /// No live ticket is the same.
    Stranger,
}
