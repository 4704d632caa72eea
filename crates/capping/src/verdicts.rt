//! What is made of an ask.
use ils_face::Reply;
use objective::Micros;

/// What the runs known so far make of an ask.
#[derive(Clone, Copy, Debug, PartialEq, Eq)]
pub enum Verdict {
    /// They reply to it.
    Reply(Reply),
    /// A run is needed first.
    Need {
        /// The place, from 1.
        place: u32,
        /// The cutoff: with more time the run couldn't change the reply.
        cutoff: Micros,
    },
    /// The run at this place asked for the end of the tuning.
    Aborted {
        /// The place, from 1.
        place: u32,
    },
    /// The ask is for nothing: the search has ended.
    Ended,
}
