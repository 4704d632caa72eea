//! What a search shows: the rules that it goes by, what it asks for, how it is answered,
//! and the promises that every search keeps.
#![tactic(auto)]

mod asks;
mod rules;
mod search;

pub use asks::{Ask, Entry, Reply};
pub use rules::Rules;
pub use search::Search;
