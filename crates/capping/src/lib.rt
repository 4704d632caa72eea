//! What the runs known so far make of an ask: they reply to it, or one further run is
//! needed, under a cutoff beyond which it can't change the comparison.
#![tactic(auto)]

mod decisions;
mod verdicts;

pub use decisions::decide;
pub use verdicts::Verdict;
