//! One run: a child is started, and its output is read.
ghost use Rattle.std.specs.Prelude.{◌≡◌, ◌≤◌, IsTrue, OnOk, Some, is_ok, not, true};
ghost use Rattle.objective.specs.Costs.{seen, IsWithin};
ghost use Rattle.objective.specs.declared.Outcome.{Outcome};
ghost use Rattle.outside.specs.Changes.{has_failed};
ghost use Rattle.outside.specs.Counts.{Rose};
ghost use Rattle.wrapper_lines.specs.declared.runs.Key.{Key};
ghost use Rattle.pool_run.specs.Starts.{HasStarted, run_if};

use objective::Answer;
use outside::{Fault, Spawner};
use std::alloc::Global;
use wrapper_lines::{Program, Run, answer_of, words_of};

/// Makes the words of a run, and starts its child.
pub(crate) fn start_run<S: Spawner>(
    alloc: Global,
    spawner: &mut S,
    program: &Program,
    run: &Run,
) -> Result<(), Fault>
    requires { IsTrue (S.told spawner.old).idle }
    ensures busy { (S.told spawner.new).idle ≡ not (is_ok result) }
    ensures running { OnOk result ((S.told spawner.new).current ≡ Some run.now) }
    ensures started { HasStarted program.now (S.told spawner.old) (S.told spawner.new) (run_if (is_ok result) run.now) }
    ensures failed_run { has_failed result ≡ true → (S.told spawner.new).failed_run ≡ Some run.now }
    ensures rose { has_failed result ≡ true → Rose (S.told spawner.old).faults (S.told spawner.new).faults }
    ensures counts { (S.told spawner.old).faults ≤ (S.told spawner.new).faults }
{
    let words = words_of(alloc, program, run)?;
    spawner.start(program.dir.as_str(), words.as_slice(), run)
}

/// What the output of a child shows of its run.
pub(crate) fn shown_answer<S: Spawner>(spawner: &S, run: &Run) -> Answer
    requires held { IsTrue (S.told spawner.now).held }
    requires current { (S.told spawner.now).current ≡ Some run.now }
    ensures answer { (outcome : Key → Outcome) → S.truth ≡ Some outcome
        → result ≡ seen (outcome run.now.key) run.now.cutoff.0 }
    ensures within { IsWithin result run.now.cutoff.0 }
{
    answer_of(spawner.output(), run.cutoff)
}
