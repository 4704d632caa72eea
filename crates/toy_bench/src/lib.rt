//! A made-up scenario of any size, for trying out: its files, and seats whose runs come to an
//! outcome by a formula. It needs no solver and no files of the system.
//!
//! Its parameters are four of seven values each, as those of the SAT solver SAPS in the ParamILS
//! quickstart guide. The number that it is made of is the seed of the search and stands in each
//! instance's specifics, so each number makes another scenario.
#![tactic(auto)]

mod files;
mod hashing;
mod number;
mod outcomes;
mod seat;

pub use files::toy_files;
pub use number::read_number;
pub use seat::ToySeat;
