//! The faults of the three files as faults of one type.
ghost use Rattle.std.specs.Prelude.{◌≡◌};
ghost use Rattle.tune_front.specs.FileFaults;

use crate::status::What;
use instance_pairs::InstanceFault;
use param_files::ParamFault;
use scenario_files::ScenarioFault;

/// The first fault of a file.
#[derive(Clone, Copy, Debug)]
pub(crate) struct FileFault {
    /// Its line, from 1; 0 for the file as a whole.
    pub line: u32,
    /// The rule that is broken there.
    pub what: What,
}

/// The fault of a scenario file. None for want of memory.
pub(crate) fn scenario_fault(fault: ScenarioFault) -> Option<FileFault>
    ensures { result ≡ FileFaults.scenario_file_fault fault }
{
    match fault {
        ScenarioFault::At { line, what } => Some(FileFault {
            line,
            what: What::Scenario(what),
        }),
        ScenarioFault::Memory => None,
    }
}

/// The fault of a parameter file. None for want of memory.
pub(crate) fn params_fault(fault: ParamFault) -> Option<FileFault>
    ensures { result ≡ FileFaults.param_file_fault fault }
{
    match fault {
        ParamFault::At { line, what } => Some(FileFault {
            line,
            what: What::Params(what),
        }),
        ParamFault::Memory => None,
    }
}

/// The fault of an instance file. None for want of memory.
pub(crate) fn instances_fault(fault: InstanceFault) -> Option<FileFault>
    ensures { result ≡ FileFaults.instance_file_fault fault }
{
    match fault {
        InstanceFault::At { line, what } => Some(FileFault {
            line,
            what: What::Instances(what),
        }),
        InstanceFault::Memory => None,
    }
}
