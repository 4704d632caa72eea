//! The limits of a scenario that no other crate knows.

/// The greatest cutoff length, for which `max` stands.
pub const MAX_LENGTH: u32 = 2_147_483_647;
