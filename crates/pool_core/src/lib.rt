//! The board: all that several seats do beside each other, as a list of events on one value.
//!
//! A board has a search, what is known of runs, the live tickets of the seats, and a journal. Each
//! of its steps is an equation between plain boards (`board_steps`), and the board is at any time
//! what its journal makes of the opening board. It starts no child.
#![tactic(auto)]

mod advance;
mod board;
mod ends;
mod knowledge;
mod marks;
mod present_asks;
mod take;

pub use board::{Board, Ending};
pub use board_steps::{
    Advanced, BoardVerdict, Event, Kind, LiveTicket, Problem, Recorded, Standing, Taken, Ticket,
    Truth,
};
pub use knowledge::keep_knowledge;
