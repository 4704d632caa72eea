//! How large a space may be.

/// The greatest number of parameters.
pub const MAX_PARAMS: usize = 256;

/// The greatest number of values of a parameter.
pub const MAX_VALUES: usize = 256;

/// The greatest number of conditions.
pub const MAX_CONDITIONS: usize = 1024;

/// The greatest number of forbidden clauses.
pub const MAX_CLAUSES: usize = 4096;

/// The greatest number of picks of a forbidden clause.
pub const MAX_PICKS: usize = 16;
