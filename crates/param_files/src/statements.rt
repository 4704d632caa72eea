//! What the lines of a parameter file state.

use plain_text::{Items, Text};

/// A name with a value.
#[derive(Drop)]
pub(crate) struct NamedPick {
    pub name: Text,
    pub value: Text,
}

/// What a line states.
#[derive(Drop)]
pub(crate) enum Statement {
    /// Nothing: no tokens, or a heading.
    Nothing,
    /// `name {v1, v2} [default]`.
    Parameter {
        name: Text,
        values: Items<Text>,
        default: Text,
    },
    /// `child | parent in {v1, v2}`.
    Condition {
        child: Text,
        parent: Text,
        values: Items<Text>,
    },
    /// `{name=value, name=value}`.
    Clause {
        picks: Items<NamedPick>,
    },
}
