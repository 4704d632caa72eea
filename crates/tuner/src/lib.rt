//! The top call: it reads words and files, runs the search, and prints. What stands before the
//! search, and what a call answers, is of `tune_front`.
#![tactic(auto)]

mod cell_keys;
mod driving;
mod finishing;
mod kept_faults;
mod lines;
mod together;
mod tuning;

pub use board_steps::{Problem, Truth};
pub use pool_run::Seat;
pub use run_cache::Cell;
pub use tune_front::{FileKind, Status, Task, What};
pub use tuning::tune;
