//! How calls to the outside refuse, and what a look at a child finds.
use objective::Memory;
use std::alloc::AllocError;

/// Why a read, a write or a start was refused.
#[derive(Clone, Copy, Debug, PartialEq, Eq)]
pub enum Fault {
    /// It failed; the count of faults rose.
    Failed,
    /// There is no memory left.
    Memory,
}

impl From<Memory> for Fault {
    ghost use Rattle.std.specs.Prelude.{◌≡◌};
    ghost use Rattle.outside.specs.declared.faults.Fault.TheVariants;

    ghost from_gives = { λ _ e. e ≡ TheVariants.Memory };

    fn from(_e: Memory) -> Fault {
        Fault::Memory
    }
}

impl From<AllocError> for Fault {
    ghost use Rattle.std.specs.Prelude.{◌≡◌};
    ghost use Rattle.outside.specs.declared.faults.Fault.TheVariants;

    ghost from_gives = { λ _ e. e ≡ TheVariants.Memory };

    fn from(_e: AllocError) -> Fault {
        Fault::Memory
    }
}

/// A look at a child failed; the count of faults rose.
#[derive(Clone, Copy, Debug, PartialEq, Eq)]
pub struct Fail;

/// What a look at a child finds.
#[derive(Clone, Copy, Debug, PartialEq, Eq)]
pub enum Poll {
    /// The child hadn't ended.
    Pending,
    /// The child has ended, and its output is held.
    Ended,
}
