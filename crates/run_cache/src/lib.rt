//! What is known of runs: a row for each configuration, with what its runs have shown at each place.
//!
//! A run that is cut off below the full cutoff is kept too: it says that the configuration takes longer
//! than that. Runs that contradict what is known are counted, and change no cost that is known. A row keeps
//! the sums over its leading exact places, so that what they cost is read off of it.
#![tactic(auto)]

mod cache;
mod cell;
mod front;
mod known;
mod learning;
mod row;

pub use cache::Cache;
pub use cell::Cell;
pub use front::{Front, spent_over};
pub use known::{Known, Learnt, known_next};
