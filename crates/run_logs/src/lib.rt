//! The run log of a board: a row for each run that its journal records, and what holds of the rows.
#![tactic(auto)]

mod logged_boards;

pub use logged_boards::is_logged;
