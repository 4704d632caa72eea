//! A scenario with its defaults filled in.
ghost use Rattle.std.specs.Prelude.{◌≡◌, Ok, IfOk, codes};
ghost use Rattle.std.specs.Option.{unwrap_or};
ghost use Rattle.plain_text.specs.Faults.{FailsAs};
ghost use Rattle.scenario_files.specs.Faults.{fault_of, rule_of};
ghost use Rattle.scenario_files.specs.Ranges.{AreWithin, IsScenarioWithin};
ghost use Rattle.scenario_files.specs.Scenarios;

use crate::draft::{Approach, Draft, Overall, PairOrder, RunObj};
use crate::faults::{Refused, ScenarioFault, ScenarioWhat};
use crate::limits::MAX_LENGTH;
use objective::{Memory, Micros};
use plain_text::Text;
use std::alloc::Global;

/// A scenario: each key's value, or its default. An `Option` is None where the key is not
/// given and has no default. `p_restart` counts ten-thousandths. `cap_floor` is what was
/// given: the lesser of it and the cutoff time counts, which is for those who make limits of
/// the two.
#[derive(Drop)]
pub struct Scenario {
    pub algo: Text,
    pub execdir: Text,
    pub deterministic: bool,
    pub run_obj: RunObj,
    pub overall_obj: Overall,
    pub cutoff_time: Micros,
    pub cutoff_length: u32,
    pub tuner_timeout: Option<Text>,
    pub paramfile: Text,
    pub outdir: Option<Text>,
    pub valid_n: Option<Text>,
    pub instance_file: Text,
    pub test_instance_file: Option<Text>,
    pub approach: Approach,
    pub n: u32,
    pub num_run: u32,
    pub max_comparisons: u32,
    pub workers: u32,
    pub r: u32,
    pub s: u32,
    pub p_restart: u16,
    pub cap_floor: Micros,
    pub pair_order: PairOrder,
}

/// Each key of the first draft, or else of the second.
fn draft_or(first: Draft, second: Draft) -> Draft
    ensures { result ≡ Scenarios.draft_or first second }
{
    Draft {
        algo: first.algo.or(second.algo),
        execdir: first.execdir.or(second.execdir),
        deterministic: first.deterministic.or(second.deterministic),
        run_obj: first.run_obj.or(second.run_obj),
        overall_obj: first.overall_obj.or(second.overall_obj),
        cutoff_time: first.cutoff_time.or(second.cutoff_time),
        cutoff_length: first.cutoff_length.or(second.cutoff_length),
        tuner_timeout: first.tuner_timeout.or(second.tuner_timeout),
        paramfile: first.paramfile.or(second.paramfile),
        outdir: first.outdir.or(second.outdir),
        valid_n: first.valid_n.or(second.valid_n),
        instance_file: first.instance_file.or(second.instance_file),
        test_instance_file: first.test_instance_file.or(second.test_instance_file),
        approach: first.approach.or(second.approach),
        n: first.n.or(second.n),
        num_run: first.num_run.or(second.num_run),
        max_comparisons: first.max_comparisons.or(second.max_comparisons),
        workers: first.workers.or(second.workers),
        r: first.r.or(second.r),
        s: first.s.or(second.s),
        p_restart: first.p_restart.or(second.p_restart),
        cap_floor: first.cap_floor.or(second.cap_floor),
        pair_order: first.pair_order.or(second.pair_order),
    }
}

/// The keys that have no default.
#[derive(Drop)]
struct Essentials {
    algo: Text,
    cutoff_time: Micros,
    paramfile: Text,
    instance_file: Text,
}

/// The keys that have no default. Fails where one of them is not given.
fn essentials_of(
    algo: Option<Text>,
    cutoff_time: Option<Micros>,
    paramfile: Option<Text>,
    instance_file: Option<Text>,
) -> Result<Essentials, ScenarioWhat>
    ensures { result ≡ Scenarios.essentials_of algo cutoff_time paramfile instance_file }
{
    Ok(Essentials {
        algo: algo.ok_or(ScenarioWhat::Missing)?,
        cutoff_time: cutoff_time.ok_or(ScenarioWhat::Missing)?,
        paramfile: paramfile.ok_or(ScenarioWhat::Missing)?,
        instance_file: instance_file.ok_or(ScenarioWhat::Missing)?,
    })
}

/// The folder that is given, or the present one.
fn folder(alloc: Global, given: Option<Text>) -> Result<Text, Memory>
    ensures { IfOk result (λ t. t ≡ unwrap_or given (codes ".")) }
{
    match given {
        Some(dir) => Ok(dir),
        None => Text::of(alloc, "."),
    }
}

/// The keys that have no default, and the folder. Fails where one of those keys is not given.
fn essentials_in(
    alloc: Global,
    algo: Option<Text>,
    cutoff_time: Option<Micros>,
    paramfile: Option<Text>,
    instance_file: Option<Text>,
    execdir: Option<Text>,
) -> Result<(Essentials, Text), Refused>
    ensures value { IfOk result (λ r. Scenarios.essentials_of algo cutoff_time paramfile instance_file ≡ Ok r.0) }
    ensures folder { IfOk result (λ r. r.1 ≡ unwrap_or execdir (codes ".")) }
    ensures fault { FailsAs rule_of result (Scenarios.essentials_of algo cutoff_time paramfile instance_file) }
{
    let given = essentials_of(algo, cutoff_time, paramfile, instance_file)?;
    Ok((given, folder(alloc, execdir)?))
}

/// The scenario of a draft. Fails where a key without a default is not given.
#[tactic(auto, unfolding(crate::specs::Scenarios::scenario_of))]
fn scenario_of(alloc: Global, draft: Draft) -> Result<Scenario, Refused>
    ensures value { IfOk result (λ s. Scenarios.scenario_of draft ≡ Ok s) }
    ensures fault { FailsAs rule_of result (Scenarios.scenario_of draft) }
{
    let (given, execdir) = essentials_in(
        alloc,
        draft.algo,
        draft.cutoff_time,
        draft.paramfile,
        draft.instance_file,
        draft.execdir,
    )?;
    Ok(Scenario {
        algo: given.algo,
        execdir,
        deterministic: draft.deterministic.unwrap_or(false),
        run_obj: draft.run_obj.unwrap_or(RunObj::Runtime),
        overall_obj: draft.overall_obj.unwrap_or(Overall::Mean),
        cutoff_time: given.cutoff_time,
        cutoff_length: draft.cutoff_length.unwrap_or(MAX_LENGTH),
        tuner_timeout: draft.tuner_timeout,
        paramfile: given.paramfile,
        outdir: draft.outdir,
        valid_n: draft.valid_n,
        instance_file: given.instance_file,
        test_instance_file: draft.test_instance_file,
        approach: draft.approach.unwrap_or(Approach::Focused),
        n: draft.n.unwrap_or(100),
        num_run: draft.num_run.unwrap_or(0),
        max_comparisons: draft.max_comparisons.unwrap_or(1000),
        workers: draft.workers.unwrap_or(1),
        r: draft.r.unwrap_or(10),
        s: draft.s.unwrap_or(3),
        p_restart: draft.p_restart.unwrap_or(100),
        cap_floor: draft.cap_floor.unwrap_or(Micros(100_000)),
        pair_order: draft.pair_order.unwrap_or(PairOrder::Shuffled),
    })
}

/// The scenario of a file's keys and of words', which go before the file's, with the defaults
/// filled in. Where the keys lie within their limits, so do its values.
///
/// # Errors
/// `Missing` in line 0 exactly where a key without a default is in neither, or
/// [`ScenarioFault::Memory`].
pub fn fill(alloc: Global, file: Draft, words: Draft) -> Result<Scenario, ScenarioFault>
    ensures value { IfOk result (λ s. Scenarios.filled_scenario file words ≡ Ok s) }
    ensures fault { FailsAs fault_of result (Scenarios.filled_scenario file words) }
    ensures limits { AreWithin file → AreWithin words → IfOk result IsScenarioWithin }
{
    match scenario_of(alloc, draft_or(words, file)) {
        Ok(scenario) => Ok(scenario),
        Err(refused) => Err(refused.in_line(0)),
    }
}
