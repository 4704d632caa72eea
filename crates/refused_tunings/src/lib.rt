//! Tunings that are refused, or end by a fault or an abort, with the lines that they must
//! print. There is no code here, only tests.
#![tactic(auto)]

#[cfg(test)]
mod checks;
#[cfg(test)]
mod faults;
#[cfg(test)]
mod files;
#[cfg(test)]
mod words;
