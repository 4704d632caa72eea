//! Configurations.
ghost use Rattle.std.specs.Prelude.{◌≡◌, ◌<◌, ◌≤◌, length, slice_set, take, IfOk};

use objective::Memory;
use std::hash::{Hash, Hasher};
use std::marker::Model;

/// How many numbers a configuration holds in itself.
const FEW: usize = 15;

/// Numbers: a few of them in the value itself, more in a list.
#[derive(Drop)]
pub(crate) enum Numbers {
    /// The first `count` places.
    Few {
        /// How many there are.
        count: u8,
        /// The numbers, and zeros after them.
        places: [u16; FEW],
    },
    /// More than there are places.
    Many {
        /// The numbers.
        list: Vec<u16>,
    },
}

/// A configuration: for each parameter the number of its value. Contracts see it as
/// the list of these numbers.
#[derive(Drop)]
pub struct Config {
    numbers: Numbers,
}

impl Model for Config {
    ghost use Rattle.std.specs.Prelude.{List, ℕ};
    ghost use Rattle.param_space.specs.Numbers.{numbers_of, AreCounted};

    ghost Value = { List ℕ };

    ghost view = { λ c. numbers_of c.numbers };

    ghost invariant = { λ c. AreCounted c.numbers };
}

impl PartialEq for Config {
    ghost use Rattle.std.specs.Prelude.{nat_eq};
    ghost use Rattle.std.specs.Cmp.Lexicographic.{pointwise};
    ghost use Rattle.std.specs.Cmp.Rules.{comparing};
    ghost use Rattle.std.proofs.Common.{rules};

    ghost eq = { pointwise nat_eq };

    ghost laws = { Prim.search (comparing, rules) };

    fn eq(&self, other: &Config) -> bool {
        self.values() == other.values()
    }
}

impl Eq for Config {
    ghost use Rattle.std.specs.Cmp.Rules.{comparing};
    ghost use Rattle.std.proofs.Common.{rules};

    ghost laws = { Prim.search (comparing, rules) };
}

impl Hash for Config {
    ghost use Rattle.std.specs.Hash as fed;
    ghost use Rattle.std.specs.Cmp.Rules.{hashing};
    ghost use Rattle.std.proofs.Common.{rules};

    ghost hash_input = { λ c. fed.slice fed.u16 c };

    ghost respects_eq = { Prim.search (hashing, rules) };

    fn hash<H: Hasher>(&self, state: &mut H) {
        self.values().hash(state);
    }
}

/// Places with these numbers at their beginning.
fn places_of(values: &[u16]) -> [u16; FEW]
    requires { length values.now ≤ FEW }
    ensures { take (length values.now) result ≡ values.now }
{
    let mut places = [0; FEW];
    for (i, value) in values.iter().enumerate() {
        places[i] = *value;
    }
    places
}

impl Config {
    /// The configuration of these value numbers. Takes no memory.
    pub fn new(values: Vec<u16>) -> Config
        ensures { result ≡ values.items }
    {
        if values.len() > FEW {
            return Config {
                numbers: Numbers::Many { list: values },
            };
        }
        Config {
            numbers: Numbers::Few {
                count: values.len() as u8,
                places: places_of(values.as_slice()),
            },
        }
    }

    /// The value numbers, by parameter.
    pub fn values(&self) -> &[u16]
        ensures { result.now ≡ self.now }
    {
        match &self.numbers {
            Numbers::Few { count, places } => &places[..usize::from(*count)],
            Numbers::Many { list } => list.as_slice(),
        }
    }

    /// Gives a parameter another value, and changes no other. Takes no memory.
    pub fn set(&mut self, param: u16, value: u16)
        requires { param < length self.old }
        ensures { self.new ≡ slice_set self.old param value }
    {
        match &mut self.numbers {
            Numbers::Few { count: _, places } => places[usize::from(param)] = value,
            Numbers::Many { list } => list[usize::from(param)] = value,
        }
    }

    /// The same configuration. Takes memory only where it has more than 15 numbers.
    pub fn copy(&self) -> Result<Config, Memory>
        ensures { IfOk result (λ c. c ≡ self.now) }
    {
        let numbers = match &self.numbers {
            Numbers::Few { count, places } => Numbers::Few {
                count: *count,
                places: *places,
            },
            Numbers::Many { list } => Numbers::Many {
                list: list.clone()?,
            },
        };
        Ok(Config { numbers })
    }
}
