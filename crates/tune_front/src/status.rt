//! How a tuning ends.
ghost use Rattle.std.specs.Prelude.{◌≡◌};
ghost use Rattle.tune_front.specs.ExitCodes.{code_of};

use instance_pairs::InstanceWhat;
use param_files::ParamWhat;
use run_cache::Cell;
use scenario_files::ScenarioWhat;

/// Which of the files a fault is in.
#[derive(Clone, Copy, Debug, PartialEq, Eq)]
pub enum FileKind {
    /// The scenario file.
    Scenario,
    /// The parameter file.
    Params,
    /// The instance file.
    Instances,
}

/// Which rule of a file is broken.
#[derive(Clone, Copy, Debug, PartialEq, Eq)]
pub enum What {
    /// A rule of the scenario file; `Missing` also where neither it nor the words give a key.
    Scenario(ScenarioWhat),
    /// A rule of the parameter file.
    Params(ParamWhat),
    /// A rule of the instance file.
    Instances(InstanceWhat),
}

/// How a tuning ends.
#[derive(Drop, PartialEq, Eq)]
pub enum Status {
    /// All comparisons that the budget allows were made.
    Ok,
    /// The words are no call.
    Usage {
        /// The place of the first wrong key word, from 0; the number of words where none is
        /// wrong and none names the scenario file.
        place: u32,
    },
    /// A file that was read has no reading, or a key that has no default is missing.
    BadFile {
        /// The file.
        kind: FileKind,
        /// The line of its first fault, from 1; 0 for the file as a whole.
        line: u32,
        /// The rule that is broken there.
        what: What,
    },
    /// A read failed.
    ReadFault {
        /// The file.
        kind: FileKind,
    },
    /// A write failed, or took nothing of a piece that isn't empty.
    WriteFault,
    /// A child asked for the end of the tuning.
    Aborted {
        /// The configuration and the place of its run.
        cell: Cell,
    },
    /// A child couldn't be started or looked at.
    ChildFault {
        /// The number of the seat that was to run it, from 0.
        seat: u32,
    },
    /// There was no memory left.
    NoMemory,
    /// There are fewer seats than are asked for.
    TooFewSeats {
        /// The seats that are asked for.
        asked: u32,
        /// The seats that there are.
        given: u32,
    },
}

impl Status {
    /// The exit number.
    pub fn code(&self) -> u8
        ensures { result ≡ code_of self.now }
    {
        match self {
            Status::Ok => 0,
            Status::Usage { .. } => 2,
            Status::BadFile { .. } => 3,
            Status::ReadFault { .. } => 4,
            Status::WriteFault => 5,
            Status::Aborted { .. } => 6,
            Status::ChildFault { .. } => 7,
            Status::NoMemory => 8,
            Status::TooFewSeats { .. } => 9,
        }
    }
}
