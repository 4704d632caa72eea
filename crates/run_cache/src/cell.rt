//! Cells.
ghost use Rattle.std.specs.Prelude.{◌≡◌, IfOk};
ghost use Rattle.run_cache.specs.Caches;

use objective::Memory;
use param_space::Config;
use std::hash::{Hash, Hasher};

/// A configuration at a place.
#[derive(Drop)]
pub struct Cell {
    /// The configuration.
    pub config: Config,
    /// The place, from 1.
    pub place: u32,
}

impl PartialEq for Cell {
    ghost use Rattle.std.specs.Prelude.{nat_eq};
    ghost use Rattle.std.specs.Cmp.Lexicographic.{pointwise};
    ghost use Rattle.std.specs.Cmp.Rules.{comparing};
    ghost use Rattle.std.specs.Ordering.{on, eq_of_both};
    ghost use Rattle.std.proofs.Common.{rules};

    ghost eq = { eq_of_both (on (λ c. c.config) (pointwise nat_eq)) (on (λ c. c.place) nat_eq) };

    ghost laws = { Prim.search (comparing, rules) };

    fn eq(&self, other: &Cell) -> bool {
        self.place == other.place && self.config.values() == other.config.values()
    }
}

impl Eq for Cell {
    ghost use Rattle.std.specs.Cmp.Rules.{comparing};
    ghost use Rattle.std.proofs.Common.{rules};

    ghost laws = { Prim.search (comparing, rules) };
}

impl Hash for Cell {
    ghost use Rattle.std.specs.Prelude.{◌++◌};
    ghost use Rattle.std.specs.Hash as fed;
    ghost use Rattle.std.specs.Cmp.Rules.{hashing};
    ghost use Rattle.std.proofs.Common.{rules};

    ghost hash_input = { λ c. fed.slice fed.u16 c.config ++ fed.u32 c.place };

    ghost respects_eq = { Prim.search (hashing, rules) };

    fn hash<H: Hasher>(&self, state: &mut H) {
        self.config.hash(state);
        self.place.hash(state);
    }
}

impl Cell {
    /// The cell of a configuration at a place.
    pub fn at(config: &Config, place: u32) -> Result<Cell, Memory>
        ensures { IfOk result (λ c. c ≡ record { config = config.now; place = place }) }
    {
        Ok(Cell {
            config: config.copy()?,
            place,
        })
    }

    /// Whether this is the configuration at the place.
    pub fn is_at(&self, config: &Config, place: u32) -> bool
        ensures { result ≡ Caches.is_at self.now config.now place }
    {
        self.place == place && self.config.values() == config.values()
    }

    /// The same cell.
    pub fn copy(&self) -> Result<Cell, Memory>
        ensures { IfOk result (λ c. c ≡ self.now) }
    {
        Cell::at(&self.config, self.place)
    }
}
