//! Parameter files: a space as text, read and printed.
//!
//! A `#` begins a comment up to the line's end, and blanks around tokens are free. A line is
//! a parameter, `name {v1, v2} [default]`; a condition, `child | parent in {v1, v2}`; or a
//! forbidden clause, `{name=value, name=value}`. A line without tokens means nothing, and so
//! does a heading: `Conditionals:` or `Forbidden:` alone, in any ASCII case.
#![tactic(auto)]

mod faults;
mod forms;
mod kept;
mod line_rules;
mod numbering;
mod numbers;
mod printer;
mod reader;
mod statements;

pub use faults::{ParamFault, ParamWhat};
pub use printer::print_params;
pub use reader::read_params;
