//! Why files make no task.
ghost use Rattle.std.specs.Prelude.{◌≡◌};
ghost use Rattle.tune_front.specs.Refusals.{IsRefusedFor};
ghost use Rattle.tune_front.specs.declared.reading.refusal.Refusal.TheVariants;

use crate::reading::faults::FileFault;
use crate::status::{FileKind, What};
use objective::Memory;
use plain_text::Text;
use std::alloc::Global;

/// Why files make no task.
#[derive(Drop)]
pub enum Refusal {
    /// A file has no reading.
    BadFile {
        /// Which file.
        kind: FileKind,
        /// Its name.
        name: Text,
        /// The line of its first fault, from 1; 0 for the file as a whole.
        line: u32,
        /// The rule that is broken there.
        what: What,
    },
    /// A file couldn't be read.
    ReadFault {
        /// Which file.
        kind: FileKind,
        /// Its name.
        name: Text,
    },
    /// There is no memory left.
    Memory,
}

impl From<Memory> for Refusal {
    ghost from_gives = { λ _ refusal. refusal ≡ TheVariants.Memory };

    fn from(_e: Memory) -> Refusal {
        Refusal::Memory
    }
}

/// The refusal of a file for its first fault, or for want of memory.
pub(crate) fn refusal_of(
    alloc: Global,
    kind: FileKind,
    name: &str,
    fault: Option<FileFault>,
) -> Refusal
    ensures { IsRefusedFor result kind name.now fault }
{
    let Some(FileFault { line, what }) = fault else {
        return Refusal::Memory;
    };
    match Text::of(alloc, name) {
        Ok(name) => Refusal::BadFile {
            kind,
            name,
            line,
            what,
        },
        Err(_) => Refusal::Memory,
    }
}
