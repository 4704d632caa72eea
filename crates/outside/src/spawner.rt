//! Children.
ghost use Rattle.std.specs.Prelude.{◌≡◌, ◌≤◌, IsTrue, not, false, Option, Some, OnOk, is_ok, ◌||◌};
ghost use Rattle.objective.specs.declared.Outcome.{Outcome};
ghost use Rattle.outside.specs.Counts.{count_after};
ghost use Rattle.outside.specs.Changes.{has_failed, has_ended, has_look_failed, started_after, failed_after_start, failed_after_look};
ghost use Rattle.wrapper_lines.specs.Runs.{AreWordsOf};
ghost use Rattle.wrapper_lines.specs.declared.runs.Key.{Key};
ghost use Rattle.outside.specs.ReadOutputs.{ReadsAs};
ghost use Rattle.outside.specs.ToldStates.{SpawnerTold};

use crate::faults::{Fail, Fault, Poll};
use plain_text::Text;
use wrapper_lines::Run;

/// Something that starts one child at a time. Each seat has its own.
pub trait Spawner: Drop {
    /// What it tells: whether a child runs, which run was started and which failed, what was
    /// started so far, and how many starts and looks have failed.
    ghost told: { Self → SpawnerTold };

    /// What each key's run does with all the time that it wants, where it is told.
    ghost truth: { Option (Key → Outcome) };

    /// Starts a child in a folder. After Ok it runs this run; after a refusal no child
    /// runs. It makes the room that the output needs, so that `poll` takes no memory.
    fn start(&mut self, dir: &str, words: &[Text], run: &Run) -> Result<(), Fault>
        requires idle { IsTrue (told self.old).idle }
        requires words { AreWordsOf dir.now words.now run.now }
        ensures running { OnOk result ((told self.new).current ≡ Some run.now) }
        ensures busy { (told self.new).idle ≡ not (is_ok result) }
        ensures held { (told self.new).held ≡ false }
        ensures started { (told self.new).started ≡ started_after result (told self.old).started words.now }
        ensures folders { (told self.new).folders ≡ started_after result (told self.old).folders dir.now }
        ensures failed_run { (told self.new).failed_run ≡ failed_after_start result run.now (told self.old) }
        ensures counted { (told self.new).faults ≡ count_after (has_failed result) (told self.old).faults }
        ensures counts { (told self.old).faults ≤ (told self.new).faults };

    /// Looks whether the child has ended. After Ended and after a failed look no child
    /// runs. Pending comes only where the child hadn't ended at this look.
    fn poll(&mut self) -> Result<Poll, Fail>
        requires { (told self.old).idle ≡ false }
        ensures same { (told self.new).current ≡ (told self.old).current }
        ensures ended { (told self.new).held ≡ has_ended result }
        ensures idle { (told self.new).idle ≡ (has_ended result || has_look_failed result) }
        ensures started { (told self.new).started ≡ (told self.old).started }
        ensures folders { (told self.new).folders ≡ (told self.old).folders }
        ensures failed_run { (told self.new).failed_run ≡ failed_after_look result (told self.old) }
        ensures counted { (told self.new).faults ≡ count_after (has_look_failed result) (told self.old).faults }
        ensures counts { (told self.old).faults ≤ (told self.new).faults };

    /// The output of the ended child. Where the truth is told, it is read as what the
    /// truth shows under the run's cutoff.
    fn output(&self) -> &[u8]
        requires { IsTrue (told self.now).held }
        ensures { (outcome : Key → Outcome) → truth ≡ Some outcome
            → ReadsAs outcome (told self.now).current result.now };

    /// Kills the child and waits for its end. It can't be refused.
    fn kill(&mut self)
        requires { (told self.old).idle ≡ false }
        ensures idle { IsTrue (told self.new).idle }
        ensures held { (told self.new).held ≡ false }
        ensures started { (told self.new).started ≡ (told self.old).started }
        ensures folders { (told self.new).folders ≡ (told self.old).folders }
        ensures failed_run { (told self.new).failed_run ≡ (told self.old).failed_run }
        ensures faults { (told self.new).faults ≡ (told self.old).faults };

    /// Waits a moment. Changes nothing that is told.
    fn pause(&mut self)
        ensures { told self.new ≡ told self.old };
}
