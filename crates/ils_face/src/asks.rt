//! What a search asks for, how it is answered, and its entries.
ghost use Rattle.std.specs.Prelude.{◌≡◌, IfOk};

use objective::{Memory, Sum};
use param_space::Config;
use std::marker::Model;

/// What a search asks for.
#[derive(Drop)]
pub enum Ask {
    /// The total cost of a configuration over the pairs 1 to n.
    Full {
        /// The configuration.
        config: Config,
        /// The number of pairs, from 1.
        n: u32,
    },
    /// The same where it is at most the bound, else that it exceeds it.
    Versus {
        /// The configuration.
        config: Config,
        /// The number of pairs, from 1.
        n: u32,
        /// The bound.
        bound: Sum,
    },
    /// Nothing: the search has ended.
    End,
}

impl Ask {
    /// The same ask.
    pub fn copy(&self) -> Result<Ask, Memory>
        ensures { IfOk result (λ a. a ≡ self.now) }
    {
        match self {
            Ask::Full { config, n } => Ok(Ask::Full {
                config: config.copy()?,
                n: *n,
            }),
            Ask::Versus { config, n, bound } => Ok(Ask::Versus {
                config: config.copy()?,
                n: *n,
                bound: *bound,
            }),
            Ask::End => Ok(Ask::End),
        }
    }
}

/// What an ask is answered with.
#[derive(Clone, Copy, Debug, PartialEq, Eq)]
pub enum Reply {
    /// The total cost.
    Exact(Sum),
    /// The total cost is greater than the bound.
    Exceeds,
}

/// An incumbent, from its comparison on.
#[derive(Drop)]
pub struct Entry {
    /// The number of the comparison, from 1; 0 for the first incumbent.
    pub compared: u32,
    /// The runs of the incumbent.
    pub runs: u32,
    /// Their total cost.
    pub sum: Sum,
    /// The incumbent.
    pub config: Config,
}

impl Model for Entry {
    ghost use Rattle.uncapped.specs.Procedure.{Incumbent};

    ghost Value = { Incumbent };

    ghost view = { λ e. record { compared = e.compared; runs = e.runs; sum = e.sum.0; config = e.config } };
}

impl Entry {
    /// The same entry.
    pub fn copy(&self) -> Result<Entry, Memory>
        ensures { IfOk result (λ e. e ≡ self.now) }
    {
        Ok(Entry {
            compared: self.compared,
            runs: self.runs,
            sum: self.sum,
            config: self.config.copy()?,
        })
    }
}
