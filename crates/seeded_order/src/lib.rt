//! Draws that are functions of a seed and a stream's number alone.
//!
//! Each event and each round of a tuning has a stream of its own of one generator, PCG32.
//! So a draw depends on no draw before it.
#![tactic(auto)]

mod draws;
mod limits;
mod values;

pub use draws::Draws;
pub use limits::MAX_ATTEMPTS;
