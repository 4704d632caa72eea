//! The three files of a task: each is read, and has a reading or a first fault.
ghost use Rattle.std.specs.Prelude.{◌≡◌, ◌≤◌, IfOk, IfErr, length};
ghost use Rattle.plain_text.specs.Faults.{IsFound};
ghost use Rattle.scenario_files.specs.Faults.{fault_of};
ghost use Rattle.scenario_files.specs.Ranges.{AreWithin, IsScenarioWithin};
ghost use Rattle.instance_pairs.specs.Limits.{max_instances};
ghost use Rattle.tune_front.specs.Readings.{Gives, bytes_reading, scenario_reading, space_reading, instances_reading};
ghost use Rattle.tune_front.specs.Refusals.{IsCause, IsFile};
ghost use Rattle.tune_front.specs.ScenarioTask.{whole_scenario};

use crate::reading::faults::{instances_fault, params_fault, scenario_fault};
use crate::reading::refusal::{Refusal, refusal_of};
use crate::status::FileKind;
use instance_pairs::{Instance, read_instances};
use outside::{Fault, Files};
use param_files::read_params;
use param_space::Space;
use plain_text::Text;
use scenario_files::{Draft, Scenario, ScenarioFault, fill, read_scenario};
use std::alloc::Global;

/// Reads a file.
fn read_bytes<F: Files>(
    alloc: Global,
    files: &mut F,
    kind: FileKind,
    name: &str,
) -> Result<Vec<u8>, Refusal>
    ensures same { (F.told files.new).contents ≡ (F.told files.old).contents }
    ensures counts { (F.told files.old).faults ≤ (F.told files.new).faults }
    ensures read { IfOk result (λ v. Gives (bytes_reading kind name.now) (F.told files.old) v.items) }
    ensures refused { let reading = bytes_reading kind name.now in
        IfErr result (IsCause reading (IsFile kind name.now) (F.told files.old) (F.told files.new)) }
{
    match files.read(name) {
        Ok(bytes) => Ok(bytes),
        Err(Fault::Failed) => Err(Refusal::ReadFault {
            kind,
            name: Text::of(alloc, name)?,
        }),
        Err(Fault::Memory) => Err(Refusal::Memory),
    }
}

/// The scenario of a file's text and of what the words give.
fn read_filled(alloc: Global, text: &[u8], words: Draft) -> Result<Scenario, ScenarioFault>
    requires { AreWithin words }
    ensures value { IfOk result (λ s. whole_scenario words text.now ≡ Ok s) }
    ensures fault { IfErr result (λ e. IsFound (fault_of e) (whole_scenario words text.now)) }
    ensures limits { IfOk result IsScenarioWithin }
{
    let file = read_scenario(alloc, text)?;
    fill(alloc, file, words)
}

/// Reads the scenario file, and fills in what the words give.
pub(crate) fn read_scenario_file<F: Files>(
    alloc: Global,
    files: &mut F,
    name: &str,
    words: Draft,
) -> Result<Scenario, Refusal>
    requires { AreWithin words }
    ensures same { (F.told files.new).contents ≡ (F.told files.old).contents }
    ensures counts { (F.told files.old).faults ≤ (F.told files.new).faults }
    ensures read { IfOk result (Gives (scenario_reading name.now words) (F.told files.old)) }
    ensures refused { let reading = scenario_reading name.now words in
        IfErr result (IsCause reading (IsFile FileKind.Scenario name.now) (F.told files.old) (F.told files.new)) }
    ensures limits { IfOk result IsScenarioWithin }
{
    let bytes = read_bytes(alloc, files, FileKind::Scenario, name)?;
    match read_filled(alloc, bytes.as_slice(), words) {
        Ok(scenario) => Ok(scenario),
        Err(fault) => {
            let fault = scenario_fault(fault);
            Err(refusal_of(alloc, FileKind::Scenario, name, fault))
        }
    }
}

/// Reads the parameter file.
pub(crate) fn read_space<F: Files>(
    alloc: Global,
    files: &mut F,
    name: &str,
) -> Result<Space, Refusal>
    ensures same { (F.told files.new).contents ≡ (F.told files.old).contents }
    ensures counts { (F.told files.old).faults ≤ (F.told files.new).faults }
    ensures read { IfOk result (λ s. Gives (space_reading name.now) (F.told files.old) s) }
    ensures refused { let reading = space_reading name.now in
        IfErr result (IsCause reading (IsFile FileKind.Params name.now) (F.told files.old) (F.told files.new)) }
{
    let bytes = read_bytes(alloc, files, FileKind::Params, name)?;
    match read_params(alloc, bytes.as_slice()) {
        Ok(space) => Ok(space),
        Err(fault) => {
            let fault = params_fault(fault);
            Err(refusal_of(alloc, FileKind::Params, name, fault))
        }
    }
}

/// Reads the instance file.
pub(crate) fn read_instance_file<F: Files>(
    alloc: Global,
    files: &mut F,
    name: &str,
) -> Result<Vec<Instance>, Refusal>
    ensures same { (F.told files.new).contents ≡ (F.told files.old).contents }
    ensures counts { (F.told files.old).faults ≤ (F.told files.new).faults }
    ensures read { IfOk result (λ v. Gives (instances_reading name.now) (F.told files.old) v.items) }
    ensures count { IfOk result (λ v. (1 ≤ length v.items) × (length v.items ≤ max_instances)) }
    ensures refused { let reading = instances_reading name.now in
        IfErr result (IsCause reading (IsFile FileKind.Instances name.now) (F.told files.old) (F.told files.new)) }
{
    let bytes = read_bytes(alloc, files, FileKind::Instances, name)?;
    match read_instances(alloc, bytes.as_slice()) {
        Ok(instances) => Ok(instances),
        Err(fault) => {
            let fault = instances_fault(fault);
            Err(refusal_of(alloc, FileKind::Instances, name, fault))
        }
    }
}
