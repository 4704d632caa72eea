//! What is known of a cell, and what comes of a further run.
ghost use Rattle.std.specs.Prelude.{◌≡◌, suc};
ghost use Rattle.run_cache.specs.Caches;
ghost use Rattle.run_cache.specs.Knowledge;

use objective::{Micros, Sum};

/// What is known of a cell.
#[derive(Clone, Copy, Debug, PartialEq, Eq)]
pub enum Known {
    /// Nothing.
    Nothing,
    /// A run with this cutoff, which is below the full one, ended in a timeout.
    Over(Micros),
    /// The cost.
    Exact(Sum),
    /// A run asked for the end of the tuning.
    Abort,
}

impl Known {
    /// Whether a run with this cutoff would tell nothing more.
    pub fn is_settled(self, cutoff: Micros) -> bool
        ensures { result ≡ Knowledge.is_settled self cutoff.0 }
    {
        match self {
            Known::Nothing => false,
            Known::Over(time) => cutoff.0 <= time.0,
            Known::Exact(_) | Known::Abort => true,
        }
    }
}

/// What a row knows of the place after so many.
pub fn known_next(row: &[Known], done: u32) -> Known
    ensures { result ≡ Caches.known_at row.now (suc done) }
{
    match row.get(done as usize) {
        Some(known) => *known,
        None => Known::Nothing,
    }
}

/// What a run's answer adds to what is known.
#[derive(Clone, Copy, Debug, PartialEq, Eq)]
pub enum Learnt {
    /// More is known.
    Fresh,
    /// The same is known.
    Same,
    /// The answer contradicts what is known.
    Conflict,
}
