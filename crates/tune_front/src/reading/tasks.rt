//! The task that words and files state.
ghost use Rattle.std.specs.Prelude.{◌≡◌, ◌≤◌, length, IfOk, IfErr};
ghost use Rattle.objective.specs.Limits.{max_runs};
ghost use Rattle.scenario_files.specs.Ranges.{AreWordsWithin, IsScenarioWithin};
ghost use Rattle.instance_pairs.specs.Limits.{max_instances};
ghost use Rattle.tune_front.specs.ScenarioTask;
ghost use Rattle.tune_front.specs.Readings.{Gives, task_by, task_in};
ghost use Rattle.tune_front.specs.Refusals.{IsCause, IsNext, IsNextIn};

use crate::reading::files::{read_instance_file, read_scenario_file, read_space};
use crate::reading::refusal::Refusal;
use crate::task::Task;
use board_steps::Problem;
use ils_face::Rules;
use instance_pairs::{Instance, Pairs};
use objective::{Factor, Limits, Memory, Micros};
use outside::Files;
use param_space::Space;
use scenario_files::{Overall, Scenario, Words};
use std::alloc::Global;
use wrapper_lines::read_program;

/// How many cutoffs a run without a solution costs.
fn factor_of(overall: Overall) -> Factor
    ensures { result ≡ ScenarioTask.factor_of overall }
{
    match overall {
        Overall::Mean => Factor::One,
        Overall::Mean10 => Factor::Ten,
        Overall::Mean1000 => Factor::Thousand,
    }
}

/// The rules of the search of a scenario, with so many runs of a configuration at most.
fn rules_from(scenario: &Scenario, space: Space, runs: u32) -> Rules
    requires limits { IsScenarioWithin scenario.now }
    requires one { 1 ≤ runs }
    requires most { runs ≤ max_runs }
    ensures { result ≡ ScenarioTask.rules_from scenario.now space runs }
{
    Rules {
        space,
        seed: scenario.num_run,
        max_runs: runs,
        budget: scenario.max_comparisons,
        initial: scenario.r,
        strength: scenario.s,
        restart: scenario.p_restart,
        limits: Limits {
            cutoff: scenario.cutoff_time,
            factor: factor_of(scenario.overall_obj),
            floor: Micros(scenario.cap_floor.0.min(scenario.cutoff_time.0)),
        },
        workers: scenario.workers,
    }
}

/// The pairs of a scenario over these instances.
fn pairs_from(alloc: Global, scenario: &Scenario, instances: Vec<Instance>) -> Result<Pairs, Memory>
    requires limits { IsScenarioWithin scenario.now }
    requires some { 1 ≤ length instances.items }
    requires few { length instances.items ≤ max_instances }
    ensures { IfOk result (λ p. p ≡ ScenarioTask.pairs_from scenario.now instances.items) }
{
    Pairs::new(
        alloc,
        instances,
        scenario.num_run,
        scenario.deterministic,
        scenario.pair_order,
        scenario.n,
    )
}

/// The task of a scenario with its space and instances.
fn task_from(
    alloc: Global,
    scenario: &Scenario,
    space: Space,
    instances: Vec<Instance>,
) -> Result<Task, Memory>
    requires limits { IsScenarioWithin scenario.now }
    requires some { 1 ≤ length instances.items }
    requires few { length instances.items ≤ max_instances }
    ensures { IfOk result (λ t. t ≡ ScenarioTask.task_from scenario.now space instances.items) }
{
    let pairs = pairs_from(alloc, scenario, instances)?;
    let program = read_program(
        alloc,
        scenario.algo.as_str(),
        scenario.execdir.as_str(),
        scenario.cutoff_length,
    )?;
    let runs = pairs.max_runs();
    let rules = rules_from(scenario, space, runs);
    Ok(Task {
        program,
        approach: scenario.approach,
        problem: Problem { rules, pairs },
    })
}

/// The task of a scenario and of the files that it names, or the first refusal: of the
/// parameter file, then of the instance file.
fn read_named<F: Files>(alloc: Global, files: &mut F, scenario: &Scenario) -> Result<Task, Refusal>
    requires { IsScenarioWithin scenario.now }
    ensures same { (F.told files.new).contents ≡ (F.told files.old).contents }
    ensures counts { (F.told files.old).faults ≤ (F.told files.new).faults }
    ensures read { IfOk result (Gives (task_in scenario.now) (F.told files.old)) }
    ensures refused { let told = F.told files.old in
        IfErr result (IsCause (task_in scenario.now) (IsNextIn scenario.now told) told (F.told files.new)) }
{
    let space = read_space(alloc, files, scenario.paramfile.as_str())?;
    let instances = read_instance_file(alloc, files, scenario.instance_file.as_str())?;
    Ok(task_from(alloc, scenario, space, instances)?)
}

/// The task that words and the files that they name state, or the first refusal: of the
/// scenario file, then of the files that it names.
pub fn read_task<F: Files>(alloc: Global, files: &mut F, words: Words) -> Result<Task, Refusal>
    requires { AreWordsWithin words }
    ensures same { (F.told files.new).contents ≡ (F.told files.old).contents }
    ensures counts { (F.told files.old).faults ≤ (F.told files.new).faults }
    ensures read { IfOk result (Gives (task_by words) (F.told files.old)) }
    ensures refused { let told = F.told files.old in
        IfErr result (IsCause (task_by words) (IsNext words told) told (F.told files.new)) }
{
    let Words {
        scenario_file,
        draft,
    } = words;
    let scenario = read_scenario_file(alloc, files, scenario_file.as_str(), draft)?;
    read_named(alloc, files, &scenario)
}
