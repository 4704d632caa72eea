//! A seat whose runs come to what the formula of the toy says.
ghost use Rattle.std.specs.Prelude.{◌≡◌, IfOk};
ghost use Rattle.outside.specs.MemoryChildren.{first_child};

use crate::outcomes::course_of;
use objective::Memory;
use outside::{Fail, Fault, MemoryChild, Poll, Spawner, output_of};
use plain_text::Text;
use std::alloc::Global;
use std::marker::Model;
use wrapper_lines::Run;

/// A seat whose runs come to what the formula of the toy says. Its starts and looks never
/// fail. It keeps nothing of the runs before the last one.
#[derive(Drop)]
pub struct ToySeat {
    alloc: Global,
    child: MemoryChild,
    /// How many looks come before the child has ended.
    looks: u64,
}

impl Model for ToySeat {
    ghost use Rattle.std.specs.Prelude.{None};
    ghost use Rattle.outside.specs.MemoryChildren.{Shows};
    ghost use Rattle.toy_bench.specs.Outcomes.{toy_outcome};
    ghost use Rattle.toy_bench.specs.Seats.{Seat};

    ghost Value = { Seat };

    ghost view = { λ s. record { told = record s.child.told { started = None; folders = None }; looks = s.looks } };

    ghost invariant = { λ s. Shows toy_outcome s.child };
}

impl ToySeat {
    /// A seat that has started nothing.
    pub fn new(alloc: Global) -> Result<ToySeat, Memory>
        ensures told { IfOk result (λ s. s.told ≡ first_child.told) }
    {
        Ok(ToySeat {
            alloc,
            child: MemoryChild::new(alloc)?,
            looks: 0,
        })
    }
}

impl Spawner for ToySeat {
    ghost use Rattle.std.specs.Prelude.{◌≡◌, ◌≤◌, ◌-◌, IsTrue, not, false, Some, OnOk, IfSome, is_ok, ◌||◌};
    ghost use Rattle.objective.specs.Costs.{seen};
    ghost use Rattle.objective.specs.declared.Outcome.{Outcome};
    ghost use Rattle.outside.specs.AnswerLines.{answer_line};
    ghost use Rattle.outside.specs.Changes.{has_failed, has_ended, has_look_failed, started_after, failed_after_start, failed_after_look};
    ghost use Rattle.outside.specs.Counts.{count_after};
    ghost use Rattle.outside.specs.ReadOutputs.{ReadsAs};
    ghost use Rattle.wrapper_lines.specs.Runs.{AreWordsOf};
    ghost use Rattle.wrapper_lines.specs.declared.runs.Key.{Key};
    ghost use Rattle.toy_bench.specs.Outcomes.{toy_outcome, toy_looks};
    ghost use Rattle.toy_bench.specs.Seats.{found_after};

    ghost told = { λ s. s.told };

    ghost truth = { Some toy_outcome };

    /// Never fails. Its child is then looked at up to three times before it has ended.
    fn start(&mut self, dir: &str, words: &[Text], run: &Run) -> Result<(), Fault>
        requires idle { IsTrue self.old.told.idle }
        requires words { AreWordsOf dir.now words.now run.now }
        ensures works { has_failed result ≡ false }
        ensures looks { OnOk result (self.new.looks ≡ toy_looks run.now.key) }
        ensures running { OnOk result (self.new.told.current ≡ Some run.now) }
        ensures busy { self.new.told.idle ≡ not (is_ok result) }
        ensures held { self.new.told.held ≡ false }
        ensures started { self.new.told.started ≡ started_after result self.old.told.started words.now }
        ensures folders { self.new.told.folders ≡ started_after result self.old.told.folders dir.now }
        ensures failed_run { self.new.told.failed_run ≡ failed_after_start result run.now self.old.told }
        ensures counted { self.new.told.faults ≡ count_after (has_failed result) self.old.told.faults }
        ensures counts { self.old.told.faults ≤ self.new.told.faults }
    {
        self.child.clear();
        let copy = run.copy()?;
        let course = course_of(self.alloc, &run.key)?;
        let output = output_of(self.alloc, course.outcome, run.cutoff)?;
        self.child.start(copy, output, false);
        self.looks = course.looks;
        Ok(())
    }

    /// Finds that the child has ended exactly where no further look comes before that.
    fn poll(&mut self) -> Result<Poll, Fail>
        requires { self.old.told.idle ≡ false }
        ensures found { result ≡ found_after self.old.looks }
        ensures looks { self.new.looks ≡ self.old.looks - 1 }
        ensures same { self.new.told.current ≡ self.old.told.current }
        ensures ended { self.new.told.held ≡ has_ended result }
        ensures idle { self.new.told.idle ≡ (has_ended result || has_look_failed result) }
        ensures started { self.new.told.started ≡ self.old.told.started }
        ensures folders { self.new.told.folders ≡ self.old.told.folders }
        ensures failed_run { self.new.told.failed_run ≡ failed_after_look result self.old.told }
        ensures counted { self.new.told.faults ≡ count_after (has_look_failed result) self.old.told.faults }
        ensures counts { self.old.told.faults ≤ self.new.told.faults }
    {
        if self.looks == 0 {
            return self.child.look(Ok(Poll::Ended));
        }
        self.looks -= 1;
        self.child.look(Ok(Poll::Pending))
    }

    /// The result line that shows what the run comes to under its cutoff.
    fn output(&self) -> &[u8]
        requires { IsTrue self.now.told.held }
        ensures line { IfSome self.now.told.current (λ run.
            result.now ≡ answer_line (seen (toy_outcome run.key) run.cutoff.0)) }
        ensures reads { (outcome : Key → Outcome) → Some toy_outcome ≡ Some outcome
            → ReadsAs outcome self.now.told.current result.now }
    {
        self.child.output()
    }

    fn kill(&mut self) {
        self.child.kill();
    }

    fn pause(&mut self)
        ensures { self.new ≡ self.old }
    {}
}
