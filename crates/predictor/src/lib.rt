//! Wishes: runs that may be needed soon, so that idle seats can make them ahead.
//!
//! They are guesses. Where a configuration has to keep to a bound, the search is followed on a
//! copy as if it didn't, since most comparisons are lost; a wish that doesn't come true costs a
//! run and changes no result.
#![tactic(auto)]

mod choice;
mod foresight;
mod look_ahead;
mod prediction;
mod wish;

pub use foresight::Foresight;
pub use prediction::wishes;
pub use wish::Wish;
