//! The limits of files.

/// The most bytes that a file may have.
pub const MAX_BYTES: usize = 16_777_216;
