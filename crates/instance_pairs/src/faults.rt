//! Why a text is no instance file.

ghost use Rattle.std.specs.Prelude.{◌≡◌};
ghost use Rattle.instance_pairs.specs.declared.faults.InstanceFault.TheVariants;

use objective::Memory;
use std::alloc::AllocFailed;
use thiserror::Error;

/// Which rule of an instance file is broken.
#[derive(Clone, Copy, Debug, PartialEq, Eq)]
pub enum InstanceWhat {
    /// The line is not UTF-8.
    NotText,
    /// The file has too many bytes, or this instance is one too many.
    TooMany,
    /// There is no instance.
    NoInstances,
}

/// Why a text is no instance file.
#[derive(Clone, Copy, Debug, PartialEq, Eq, Error)]
pub enum InstanceFault {
    /// The first broken rule, in this line.
    #[error("line {line}: {what:?}")]
    At {
        /// The line, from 1; 0 for the file as a whole.
        line: u32,
        /// The rule.
        what: InstanceWhat,
    },
    /// There is no memory left.
    #[error("no memory left")]
    Memory,
}

impl From<Memory> for InstanceFault {
    ghost from_gives = { λ _ fault. fault ≡ TheVariants.Memory };

    fn from(_e: Memory) -> InstanceFault {
        InstanceFault::Memory
    }
}

impl<T: Drop> From<AllocFailed<T>> for InstanceFault {
    ghost from_gives = { λ _ fault. fault ≡ TheVariants.Memory };

    fn from(_e: AllocFailed<T>) -> InstanceFault {
        InstanceFault::Memory
    }
}
