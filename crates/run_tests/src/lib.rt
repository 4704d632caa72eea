//! Tests of what is known of runs, and of what is decided by it. There is no code here, only
//! tests.
#![tactic(auto)]

#[cfg(test)]
mod caches;
#[cfg(test)]
mod checks;
#[cfg(test)]
mod decisions;
#[cfg(test)]
mod fronts;
#[cfg(test)]
mod lessons;
