//! How far a comparer is.

/// How far a comparer is.
#[derive(Clone, Copy, Debug, PartialEq, Eq)]
pub enum Stage {
    /// Nothing was compared yet, and nothing is asked.
    Ready,
    /// An ask is open.
    Asking,
    /// The comparison came to this.
    Decided(bool),
}
