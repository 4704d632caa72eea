//! Seats beside each other: tunings by several seats whose children wait for each other, and what all of
//! them started.
#![tactic(auto)]

mod counts;
mod plan;
mod planned_seat;

pub use counts::{Counts, Event};
pub use plan::{Fate, Plan};
pub use planned_seat::PlannedSeat;

#[cfg(test)]
mod aborts;
#[cfg(test)]
mod checks;
#[cfg(test)]
mod tables;
#[cfg(test)]
mod tests;
#[cfg(test)]
mod tunings;
