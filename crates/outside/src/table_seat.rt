//! A seat in memory whose runs do what a table says.
ghost use Rattle.std.specs.Prelude.{◌≡◌, Some, IfOk};
ghost use Rattle.outside.specs.Courses.{first_course};
ghost use Rattle.outside.specs.Seats.{told_first};

use crate::answer_lines::output_of;
use crate::course::{Course, Script};
use crate::faults::{Fail, Fault, Poll};
use crate::memory_child::MemoryChild;
use crate::spawner::Spawner;
use crate::table::Table;
use objective::Memory;
use plain_text::{Items, Text};
use std::alloc::Global;
use std::marker::{Model, PhantomData};
use wrapper_lines::{Run, copy_texts};

/// A seat in memory whose runs do what a table says.
#[derive(Drop)]
pub struct TableSeat<T: Table> {
    of: PhantomData<T>,
    alloc: Global,
    course: Course,
    child: MemoryChild,
    started: Vec<Items<Text>>,
    folders: Vec<Text>,
}

impl<T: Table> Model for TableSeat<T> {
    ghost use Rattle.std.specs.Prelude.{Some};
    ghost use Rattle.outside.specs.MemoryChildren.{Shows, left_by};
    ghost use Rattle.outside.specs.Seats.{Seat};

    ghost Value = { Seat };

    ghost view = { λ s. record {
      told = record s.child.told { started = Some s.started.items; folders = Some s.folders.items };
      course = s.course;
      left = left_by s.child;
    } };

    ghost invariant = { λ s. Shows T.outcome s.child };
}

impl<T: Table> TableSeat<T> {
    /// A seat that has started nothing.
    pub fn new(alloc: Global, script: Script) -> Result<TableSeat<T>, Memory>
        ensures told { IfOk result (λ s. s.told ≡ told_first) }
        ensures course { IfOk result (λ s. s.course ≡ first_course script) }
    {
        Ok(TableSeat {
            of: PhantomData,
            alloc,
            course: Course::new(script),
            child: MemoryChild::new(alloc)?,
            started: Vec::new(alloc),
            folders: Vec::new(alloc),
        })
    }

    /// The lists of words started so far, oldest first.
    pub fn starts(&self) -> &[Items<Text>]
        ensures { self.now.told.started ≡ Some result.now }
    {
        self.started.as_slice()
    }

    /// The folders that these were started in.
    pub fn folders(&self) -> &[Text]
        ensures { self.now.told.folders ≡ Some result.now }
    {
        self.folders.as_slice()
    }

    /// How many starts and looks have failed.
    pub fn faults(&self) -> u64
        ensures { result ≡ self.now.told.faults }
    {
        self.child.faults()
    }

    /// What the last child leaves behind, whether it is to be read or not.
    pub fn left(&self) -> &[u8]
        ensures { result.now ≡ self.now.left }
    {
        self.child.output()
    }
}

impl<T: Table> Spawner for TableSeat<T> {
    ghost use Rattle.std.specs.Prelude.{◌≡◌, ◌≤◌, IsTrue, not, false, Some, OnOk, is_ok, ◌||◌};
    ghost use Rattle.outside.specs.Changes.{has_failed, has_ended, has_look_failed, started_after, failed_after_start, failed_after_look, FailsWhere};
    ghost use Rattle.outside.specs.Counts.{count_after};
    ghost use Rattle.wrapper_lines.specs.Runs.{AreWordsOf};
    ghost use Rattle.outside.specs.Courses.{after_look, is_bad_start, is_bad_look, is_ended};
    ghost use Rattle.outside.specs.MemoryChildren.{killed_line};
    ghost use Rattle.outside.specs.Seats.{course_after};

    ghost told = { λ s. s.told };

    ghost truth = { Some T.outcome };

    /// Fails exactly where the script says so, unless there is no memory left.
    fn start(&mut self, dir: &str, words: &[Text], run: &Run) -> Result<(), Fault>
        requires idle { IsTrue self.old.told.idle }
        requires words { AreWordsOf dir.now words.now run.now }
        ensures scripted { FailsWhere (is_bad_start self.old.course) result }
        ensures course { self.new.course ≡ course_after result self.old.course }
        ensures running { OnOk result (self.new.told.current ≡ Some run.now) }
        ensures busy { self.new.told.idle ≡ not (is_ok result) }
        ensures held { self.new.told.held ≡ false }
        ensures started { self.new.told.started ≡ started_after result self.old.told.started words.now }
        ensures folders { self.new.told.folders ≡ started_after result self.old.told.folders dir.now }
        ensures failed_run { self.new.told.failed_run ≡ failed_after_start result run.now self.old.told }
        ensures counted { self.new.told.faults ≡ count_after (has_failed result) self.old.told.faults }
        ensures counts { self.old.told.faults ≤ self.new.told.faults }
    {
        self.child.clear();
        self.started.reserve(1)?;
        self.folders.reserve(1)?;
        let words = Items::new(copy_texts(self.alloc, words)?)?;
        let folder = Text::of(self.alloc, dir)?;
        let output = output_of(self.alloc, T::outcome(&run.key), run.cutoff)?;
        let copy = run.copy()?;
        let has_failed = !self.course.start();
        self.child.start(copy, output, has_failed);
        if has_failed {
            return Err(Fault::Failed);
        }
        self.started.push_reserved(words);
        self.folders.push_reserved(folder);
        Ok(())
    }

    /// Finds exactly what the script says.
    fn poll(&mut self) -> Result<Poll, Fail>
        requires { self.old.told.idle ≡ false }
        ensures failing { has_look_failed result ≡ is_bad_look self.old.course }
        ensures ending { has_ended result ≡ is_ended self.old.course }
        ensures course { self.new.course ≡ after_look self.old.course }
        ensures same { self.new.told.current ≡ self.old.told.current }
        ensures ended { self.new.told.held ≡ has_ended result }
        ensures idle { self.new.told.idle ≡ (has_ended result || has_look_failed result) }
        ensures started { self.new.told.started ≡ self.old.told.started }
        ensures folders { self.new.told.folders ≡ self.old.told.folders }
        ensures failed_run { self.new.told.failed_run ≡ failed_after_look result self.old.told }
        ensures counted { self.new.told.faults ≡ count_after (has_look_failed result) self.old.told.faults }
        ensures counts { self.old.told.faults ≤ self.new.told.faults }
    {
        self.child.look(self.course.look())
    }

    fn output(&self) -> &[u8] {
        self.child.output()
    }

    /// The line of a timeout is left behind, whatever the run comes to.
    fn kill(&mut self)
        requires { self.old.told.idle ≡ false }
        ensures course { self.new.course ≡ self.old.course }
        ensures left { self.new.left ≡ killed_line }
        ensures idle { IsTrue self.new.told.idle }
        ensures held { self.new.told.held ≡ false }
        ensures started { self.new.told.started ≡ self.old.told.started }
        ensures folders { self.new.told.folders ≡ self.old.told.folders }
        ensures failed_run { self.new.told.failed_run ≡ self.old.told.failed_run }
        ensures faults { self.new.told.faults ≡ self.old.told.faults }
    {
        self.child.kill();
    }

    fn pause(&mut self)
        ensures { self.new ≡ self.old }
    {}
}
