//! A mark for each parameter.

use crate::limits::MAX_PARAMS;

/// A mark for each of the parameters that there may be.
pub type Marks = [bool; MAX_PARAMS];
