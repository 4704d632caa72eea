//! Words and files as a task.
pub(crate) mod faults;
pub(crate) mod files;
pub(crate) mod refusal;
pub(crate) mod tasks;
