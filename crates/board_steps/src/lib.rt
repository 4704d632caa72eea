//! The board as plain data: what is tuned, the tickets of seats, the events of a journal, and
//! what each step makes of a board.
//!
//! The definitions stand in `specs/`: a board's steps are equations between plain boards, and the
//! journal is the list of events that made it. The crate `pool_core` has the board itself.
#![tactic(auto)]

mod answers;
mod events;
mod ledger;
mod problem;
mod tickets;
mod truth;
mod unwanted_runs;

pub use answers::{Advanced, BoardVerdict, Recorded, Standing, Taken};
pub use events::Event;
pub use ledger::{Ledger, has_ticket};
pub use problem::Problem;
pub use tickets::{Kind, LiveTicket, Ticket};
pub use truth::Truth;
pub use unwanted_runs::Needed;
