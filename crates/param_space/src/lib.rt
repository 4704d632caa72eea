//! Parameter spaces: parameters with their values, and configurations of them.
#![tactic(auto)]

mod activity;
mod ancestry;
mod checking;
mod config;
mod limits;
mod lists;
mod marks;
mod relations;
mod rules;
mod settings;
mod space;

pub use config::Config;
pub use limits::{MAX_CLAUSES, MAX_CONDITIONS, MAX_PARAMS, MAX_PICKS, MAX_VALUES};
pub use lists::{Condition, Forbidden, Param, Part, Pick, SpaceFault, SpaceWhat};
pub use settings::NamedValue;
pub use space::Space;
