//! Tests of searches: draws, neighbours, and comparisons answered by hand. There is no code
//! here, only tests.
#![tactic(auto)]

#[cfg(test)]
mod answers;
#[cfg(test)]
mod checks;
#[cfg(test)]
mod comparisons;
#[cfg(test)]
mod counted;
#[cfg(test)]
mod draws;
#[cfg(test)]
mod exchanges;
#[cfg(test)]
mod searches;
