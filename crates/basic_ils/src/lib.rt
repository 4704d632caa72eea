//! The comparer of BasicILS, which compares on all pairs (Hutter et al., JAIR 36).
#![tactic(auto)]

mod basic;
mod phase;

pub use basic::Basic;
