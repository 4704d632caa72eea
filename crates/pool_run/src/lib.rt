//! Seats: each runs one child at a time, by the tickets of a board.
#![tactic(auto)]

mod driving;
mod held_boards;
mod locked_boards;
mod running;
mod runs;
mod seat;
mod turns;
mod working;

pub use driving::{Driven, drive, is_over};
pub use seat::Seat;
pub use working::work;
