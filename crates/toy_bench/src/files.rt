//! The files of a toy.
ghost use Rattle.std.specs.Prelude.{◌≡◌, ◌++◌, IfOk, OnOk, string_bytes};
ghost use Rattle.toy_bench.specs.Files;

use objective::Memory;
use outside::MemoryFiles;
use std::alloc::Global;

/// How many instances there are.
const INSTANCES: u32 = 100;

/// The lines of the scenario before the one that names the seed of its draws.
const SCENARIO: &str =
    "algo = toy\ncutoff_time = 5\noverall_obj = mean10\nparamfile = toy-params\ninstance_file = toy-instances\napproach = focused\nN = 100\nmaxComparisons = 500\n";

/// The parameters.
const PARAMS: &str =
    "alpha {1.01, 1.066, 1.126, 1.189, 1.256, 1.326, 1.4} [1.189]\nps {0, 0.033, 0.066, 0.1, 0.133, 0.166, 0.2} [0.1]\nrho {0, 0.17, 0.333, 0.5, 0.666, 0.83, 1} [0.5]\nwp {0, 0.01, 0.02, 0.03, 0.04, 0.05, 0.06} [0.03]\n";

/// The scenario.
fn scenario_text(alloc: Global, number: u32) -> Result<String, Memory>
    ensures { IfOk result (λ t. string_bytes t ≡ Files.scenario_text number) }
{
    Ok(format!(in alloc; "{SCENARIO}numRun = {number}\n")?)
}

/// Appends the line of an instance.
fn push_instance(alloc: Global, text: &mut String, place: u32, number: u32) -> Result<(), Memory>
    ensures { OnOk result (string_bytes text.new ≡ string_bytes text.old ++ Files.instance_line number place) }
{
    text.push_str(format!(in alloc; "t{place} {number}\n")?.as_str())?;
    Ok(())
}

/// The instances.
#[tactic(auto, unfolding(crate::specs::Files::instances_text))]
fn instances_text(alloc: Global, number: u32) -> Result<String, Memory>
    ensures { IfOk result (λ t. string_bytes t ≡ Files.instances_text number 100) }
{
    let mut text = String::new(alloc);
    for place in 0..INSTANCES {
        push_instance(alloc, &mut text, place + 1, number)?;
    }
    Ok(text)
}

/// The files of the toy with this number: its scenario `toy`, its instances and its parameters.
pub fn toy_files(alloc: Global, number: u32) -> Result<MemoryFiles, Memory>
    ensures { IfOk result (λ files. files ≡ Files.toy_folder number) }
{
    let scenario = scenario_text(alloc, number)?;
    let instances = instances_text(alloc, number)?;
    let mut files = MemoryFiles::new(alloc);
    files.put("toy", scenario.as_str().as_bytes())?;
    files.put("toy-instances", instances.as_str().as_bytes())?;
    files.put("toy-params", PARAMS.as_bytes())?;
    Ok(files)
}
