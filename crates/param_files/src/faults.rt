//! Why a text is no parameter file.

ghost use Rattle.std.specs.Prelude.{◌≡◌};
ghost use Rattle.param_files.specs.declared.faults.ParamFault.TheVariants.{At, Memory as NoMemory};
ghost use Rattle.param_files.specs.declared.faults.ParamWhat.TheVariants.{Space};

use objective::Memory;
use param_space::SpaceWhat;
use std::alloc::AllocFailed;
use thiserror::Error;

/// Which rule of a parameter file is broken.
#[derive(Clone, Copy, Debug, PartialEq, Eq)]
pub enum ParamWhat {
    /// The line is not UTF-8.
    NotText,
    /// The line has none of the forms.
    Form,
    /// A rule of the space, as the file states it.
    Space(SpaceWhat),
}

/// Why a text is no parameter file.
#[derive(Clone, Copy, Debug, PartialEq, Eq, Error)]
pub enum ParamFault {
    /// The first broken rule, in this line.
    #[error("line {line}: {what:?}")]
    At {
        /// The line, from 1; 0 for the file as a whole.
        line: u32,
        /// The rule.
        what: ParamWhat,
    },
    /// There is no memory left.
    #[error("no memory left")]
    Memory,
}

impl From<Memory> for ParamFault {
    ghost from_gives = { λ _ fault. fault ≡ NoMemory };

    fn from(_e: Memory) -> ParamFault {
        ParamFault::Memory
    }
}

impl<T: Drop> From<AllocFailed<T>> for ParamFault {
    ghost from_gives = { λ _ fault. fault ≡ NoMemory };

    fn from(_e: AllocFailed<T>) -> ParamFault {
        ParamFault::Memory
    }
}

/// A rule of the space that is broken in this line.
pub(crate) fn broken(line: u32, what: SpaceWhat) -> ParamFault
    ensures { result ≡ At line (Space what) }
{
    ParamFault::At {
        line,
        what: ParamWhat::Space(what),
    }
}
