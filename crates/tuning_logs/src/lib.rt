//! What a tuning prints of its incumbents and of its runs.
#![tactic(auto)]

mod entry_lines;
mod run_log;

pub use entry_lines::{push_end, push_entry};
pub use run_log::{RunRow, push_header, push_row, push_rows, push_run};
