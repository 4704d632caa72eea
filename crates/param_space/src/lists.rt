//! The parts of a parameter space, and its faults.
ghost use Rattle.std.specs.Prelude.{◌≡◌, Some, IfOk};
ghost use Rattle.param_space.specs.Faults.{breach_of};
ghost use Rattle.param_space.specs.declared.lists.SpaceFault.TheVariants.{Memory as NoMemory};

use objective::Memory;
use plain_text::{Items, Text};
use thiserror::Error;

/// A parameter with its values. Values are numbered from 0.
#[derive(Drop, PartialEq, Eq)]
pub struct Param {
    /// The name, a word.
    pub name: Text,
    /// The values, words that differ.
    pub values: Items<Text>,
    /// The number of the default value.
    pub default: u16,
}

impl Param {
    /// The same parameter.
    pub fn copy(&self) -> Result<Param, Memory>
        ensures { IfOk result (λ p. p ≡ self.now) }
    {
        Ok(Param {
            name: self.name.copy()?,
            values: self.values.copy()?,
            default: self.default,
        })
    }
}

/// The child is active only where its parent is active and has a listed value.
#[derive(Drop, PartialEq, Eq)]
pub struct Condition {
    /// The number of the child, from 0.
    pub child: u16,
    /// The number of the parent, from 0.
    pub parent: u16,
    /// The numbers of the parent's listed values.
    pub values: Items<u16>,
}

impl Condition {
    /// The same condition.
    pub fn copy(&self) -> Result<Condition, Memory>
        ensures { IfOk result (λ c. c ≡ self.now) }
    {
        Ok(Condition {
            child: self.child,
            parent: self.parent,
            values: self.values.copy()?,
        })
    }
}

/// A value of a parameter.
#[derive(Clone, Copy, Debug, PartialEq, Eq)]
pub struct Pick {
    /// The number of the parameter, from 0.
    pub param: u16,
    /// The number of its value, from 0.
    pub value: u16,
}

/// Settings that may not stand together.
#[derive(Drop, PartialEq, Eq)]
pub struct Forbidden {
    /// The settings.
    pub picks: Items<Pick>,
}

impl Forbidden {
    /// The same clause.
    pub fn copy(&self) -> Result<Forbidden, Memory>
        ensures { IfOk result (λ f. f ≡ self.now) }
    {
        Ok(Forbidden {
            picks: self.picks.copy()?,
        })
    }
}

/// The list that a fault of a space is in.
#[derive(Clone, Copy, Debug, PartialEq, Eq)]
pub enum Part {
    /// The parameters.
    Param,
    /// The conditions.
    Condition,
    /// The forbidden clauses.
    Forbidden,
    /// The space as a whole.
    Whole,
}

/// Which rule of a space is broken.
#[derive(Clone, Copy, Debug, PartialEq, Eq)]
pub enum SpaceWhat {
    /// There is no parameter.
    NoParameters,
    /// More parameters, values of one, conditions, clauses or picks of one than there may be.
    TooMany,
    /// A name or a value is not one or more word characters.
    BadWord,
    /// A name stands twice.
    DoubleName,
    /// A list of values is empty.
    NoValues,
    /// A value stands twice.
    DoubleValue,
    /// The default is not among the values.
    BadDefault,
    /// There is no such parameter.
    UnknownName,
    /// There is no such value.
    UnknownValue,
    /// A parameter is its own ancestor.
    Cycle,
    /// A clause forbids the default configuration.
    DefaultForbidden,
}

/// A broken rule of a space.
#[derive(Clone, Copy)]
pub(crate) struct Breach {
    /// The list.
    pub(crate) part: Part,
    /// The place in it, from 0; 0 for the whole.
    pub(crate) place: u32,
    /// The rule.
    pub(crate) what: SpaceWhat,
}

impl Breach {
    /// The fault that tells of it.
    pub(crate) fn fault(self) -> SpaceFault
        ensures { breach_of result ≡ Some self }
    {
        SpaceFault::At {
            part: self.part,
            place: self.place,
            what: self.what,
        }
    }
}

/// Why lists make no space.
#[derive(Clone, Copy, Debug, PartialEq, Eq, Error)]
pub enum SpaceFault {
    /// The first broken rule, at this place of this list, from 0.
    #[error("{part:?} {place}: {what:?}")]
    At {
        /// The list.
        part: Part,
        /// The place in it, from 0; 0 for the whole.
        place: u32,
        /// The rule.
        what: SpaceWhat,
    },
    /// There is no memory left.
    #[error("no memory left")]
    Memory,
}

impl From<Memory> for SpaceFault {
    ghost from_gives = { λ _ fault. fault ≡ NoMemory };

    fn from(_e: Memory) -> SpaceFault {
        SpaceFault::Memory
    }
}
