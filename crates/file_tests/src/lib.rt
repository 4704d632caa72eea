//! Tests of files and words: parameters, scenarios and instances. There is no code here, only
//! tests.
#![tactic(auto)]

#[cfg(test)]
mod checks;
#[cfg(test)]
mod instances;
#[cfg(test)]
mod parameters;
#[cfg(test)]
mod scenarios;
