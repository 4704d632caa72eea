//! The comparer of FocusedILS, in which each configuration gets as many runs as it is worth
//! (Hutter et al., JAIR 36).
#![tactic(auto)]

mod comparison;
mod counts;
mod focused;
mod open_ask;
mod phase;

pub use focused::Focused;
