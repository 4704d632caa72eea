//! Instance files, and the pairs of an instance and a seed that configurations are run on.
//!
//! A line of an instance file is a name without blanks and, after blanks, its specifics: the
//! rest of the line without blanks at its end, or `0` where there is none. A line of blanks
//! alone means nothing. There are no comments.
//!
//! Runs are at places, from 1, in rounds with one place for each instance. In file order a
//! place's seed is its number. Shuffled, each round has a stream of draws of its own: its
//! first words give the order of the instances, and those after them the seeds.
#![tactic(auto)]

mod faults;
mod instances;
mod limits;
mod pairs;
mod reader;
mod spots;

pub use faults::{InstanceFault, InstanceWhat};
pub use instances::Instance;
pub use limits::MAX_INSTANCES;
pub use pairs::{Pair, Pairs};
pub use reader::read_instances;
