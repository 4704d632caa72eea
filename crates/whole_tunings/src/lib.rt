//! Whole tunings that end as they should, with the values that they must print. There is no
//! code here, only tests.
#![tactic(auto)]

#[cfg(test)]
mod checks;
#[cfg(test)]
mod focused;
#[cfg(test)]
mod scenarios;
#[cfg(test)]
mod searches;
#[cfg(test)]
mod toys;
