//! Limits of draws.

/// How many configurations are drawn at most before the default is taken.
pub const MAX_ATTEMPTS: u32 = 1000;
