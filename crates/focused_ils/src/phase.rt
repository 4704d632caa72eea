//! How far a comparison is.

use objective::Sum;

/// How far a comparison is; its configurations stand beside it.
#[derive(Clone, Copy)]
pub(crate) enum Phase {
    /// Nothing was compared yet.
    Opened,
    /// The one with more runs is asked for.
    High {
        /// The turns that may follow.
        more: u32,
    },
    /// Then the one that catches up, up to the other one's cost.
    Low {
        /// The turns that may follow.
        more: u32,
        /// The other one's cost.
        bound: Sum,
    },
    /// The winner, which is the comparison's first, is asked for on further places.
    Further,
    /// Whether the first one won.
    Compared(bool),
}
