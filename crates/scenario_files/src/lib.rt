//! Scenario files and the words of a call: a scenario as text, and its defaults.
//!
//! A line of a scenario file is `key = value`. A `#` begins a comment up to the line's end,
//! blanks around key and value are dropped, and the first `=` parts them. A line without text
//! means nothing. Words are pairs `-key value`, whose values are taken whole; `-scenariofile`
//! names the file.
#![tactic(auto)]

mod call;
mod draft;
mod faults;
mod filling;
mod keys;
mod limits;
mod reader;
mod setting;
mod values;

pub use call::{Words, read_words};
pub use draft::{Approach, Draft, Overall, PairOrder, RunObj};
pub use faults::{ScenarioFault, ScenarioWhat, WordFault};
pub use filling::{Scenario, fill};
pub use limits::MAX_LENGTH;
pub use reader::read_scenario;
