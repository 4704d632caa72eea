//! The outside world as traits: files, output and child processes, with what each tells;
//! what is built on them, and implementations in memory.
#![tactic(auto)]

mod answer_lines;
mod course;
mod faults;
mod files;
mod last_runs;
mod memory_child;
mod memory_files;
mod memory_sink;
mod numbers;
mod sink;
mod spawner;
mod table;
mod table_seat;
mod whole_pieces;

pub use answer_lines::output_of;
pub use course::Script;
pub use faults::{Fail, Fault, Poll};
pub use files::Files;
pub use last_runs::LastRuns;
pub use memory_child::MemoryChild;
pub use memory_files::MemoryFiles;
pub use memory_sink::MemorySink;
pub use sink::Sink;
pub use spawner::Spawner;
pub use table::Table;
pub use table_seat::TableSeat;
pub use whole_pieces::{Unwritten, write_whole};
