//! What stands before a tuning: words and files are read as a task, and a call that comes to no
//! tuning is refused by a line and a status.
#![tactic(auto)]

mod reading;
mod refusal_lines;
mod refusing;
mod rule_names;
mod saying;
mod status;
mod task;

pub use reading::refusal::Refusal;
pub use reading::tasks::read_task;
pub use refusal_lines::no_memory_line;
pub use refusing::{refuse_files, refuse_seats, refuse_words};
pub use saying::{say_all, say_no_memory};
pub use status::{FileKind, Status, What};
pub use task::Task;
