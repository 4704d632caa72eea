//! Why texts are no scenario.

ghost use Rattle.std.specs.Prelude.{◌≡◌};
ghost use Rattle.scenario_files.specs.declared.faults.Refused.TheVariants as refused;
ghost use Rattle.scenario_files.specs.declared.faults.ScenarioFault.TheVariants as scenario;
ghost use Rattle.scenario_files.specs.declared.faults.WordFault.TheVariants as word;
ghost use Rattle.scenario_files.specs.Faults.{fault_of, rule_of, rule_in_line};

use objective::Memory;
use thiserror::Error;

/// Which rule of a scenario is broken.
#[derive(Clone, Copy, Debug, PartialEq, Eq)]
pub enum ScenarioWhat {
    /// The line is not UTF-8.
    NotText,
    /// The line has no `=`.
    NoEquals,
    /// There is no such key.
    UnknownKey,
    /// The key came before.
    Twice,
    /// The value has not the form that its key wants.
    BadValue,
    /// The number is past a limit.
    OutOfRange,
    /// A key that has no default is not given.
    Missing,
}

/// Why texts are no scenario.
#[derive(Clone, Copy, Debug, PartialEq, Eq, Error)]
pub enum ScenarioFault {
    /// The first broken rule, in this line.
    #[error("line {line}: {what:?}")]
    At {
        /// The line, from 1; 0 for the file as a whole.
        line: u32,
        /// The rule.
        what: ScenarioWhat,
    },
    /// There is no memory left.
    #[error("no memory left")]
    Memory,
}

impl From<Memory> for ScenarioFault {
    ghost from_gives = { λ _ fault. fault ≡ scenario.Memory };

    fn from(_e: Memory) -> ScenarioFault {
        ScenarioFault::Memory
    }
}

/// Why words are no call.
#[derive(Clone, Copy, Debug, PartialEq, Eq, Error)]
pub enum WordFault {
    /// The first key word that is wrong, or that `-scenariofile` never comes.
    #[error("word {place}")]
    At {
        /// The position of the key word, from 0; the number of words where none is wrong.
        place: u32,
    },
    /// There is no memory left.
    #[error("no memory left")]
    Memory,
}

impl From<Memory> for WordFault {
    ghost from_gives = { λ _ fault. fault ≡ word.Memory };

    fn from(_e: Memory) -> WordFault {
        WordFault::Memory
    }
}

/// Why a value is not taken.
#[derive(Clone, Copy, Debug, PartialEq, Eq)]
pub(crate) enum Refused {
    /// It breaks this rule.
    Value(ScenarioWhat),
    /// There is no memory left.
    Memory,
}

impl From<Memory> for Refused {
    ghost from_gives = { λ _ fault. fault ≡ refused.Memory };

    fn from(_e: Memory) -> Refused {
        Refused::Memory
    }
}

impl From<ScenarioWhat> for Refused {
    ghost from_gives = { λ what fault. fault ≡ refused.Value what };

    fn from(what: ScenarioWhat) -> Refused {
        Refused::Value(what)
    }
}

impl Refused {
    /// The fault of the line with this number; 0 for the file as a whole.
    pub(crate) fn in_line(self, line: u32) -> ScenarioFault
        ensures { fault_of result ≡ rule_in_line line (rule_of self) }
    {
        match self {
            Refused::Value(what) => ScenarioFault::At { line, what },
            Refused::Memory => ScenarioFault::Memory,
        }
    }
}
