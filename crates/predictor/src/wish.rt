//! Wishes.
ghost use Rattle.std.specs.Prelude.{◌≡◌, IfOk};

use objective::{Memory, Micros};
use run_cache::Cell;

/// A run that may be needed soon.
#[derive(Drop, PartialEq, Eq)]
pub struct Wish {
    /// The cell.
    pub cell: Cell,
    /// The cutoff: from 1 to the full one.
    pub cutoff: Micros,
}

impl Wish {
    /// The same wish.
    pub fn copy(&self) -> Result<Wish, Memory>
        ensures { IfOk result (λ w. w ≡ self.now) }
    {
        Ok(Wish {
            cell: self.cell.copy()?,
            cutoff: self.cutoff,
        })
    }
}
