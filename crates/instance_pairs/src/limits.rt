//! How many instances a file may have.

/// The greatest number of instances.
pub const MAX_INSTANCES: u32 = 100_000;
