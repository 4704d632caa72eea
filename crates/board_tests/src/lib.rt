//! Tests of the board: its steps by hand, in any order, and as one seat drives them. There is no code here, only tests.
#![tactic(auto)]

#[cfg(test)]
mod checks;
#[cfg(test)]
mod conflicts;
#[cfg(test)]
mod drives;
#[cfg(test)]
mod grid;
#[cfg(test)]
mod hands;
#[cfg(test)]
mod problems;
#[cfg(test)]
mod setups;
#[cfg(test)]
mod shuffles;
#[cfg(test)]
mod strangers;
#[cfg(test)]
mod texts;
