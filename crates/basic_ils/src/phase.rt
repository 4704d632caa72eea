//! How far a comparison is.

use param_space::Config;

/// How far a comparison is; the configuration that is asked for isn't in it.
#[derive(Drop)]
pub(crate) enum Phase {
    /// The default configuration is asked for.
    Opening,
    /// Nothing was compared yet.
    Opened,
    /// The second configuration is asked for.
    Second {
        /// The first one.
        first: Config,
    },
    /// The first configuration is asked for.
    First,
    /// Whether the first one won.
    Compared(bool),
}
