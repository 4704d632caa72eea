//! Whole tunings over files, output and seats in memory, for the crates of tests.
#![tactic(auto)]

mod harness;
mod rows;
mod toys;

pub use harness::{
    Faults, File, NONE, SCENARIO, Tuning, WORDS, is_unseated, printed_by, ran, ran_alone, usual,
};
pub use rows::Rows;
pub use toys::{ToyTuning, ran_toy};
