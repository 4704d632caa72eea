//! The child of a seat in memory.
ghost use Rattle.std.specs.Prelude.{◌≡◌, ◌≤◌, true, false, IsTrue, IfOk};
ghost use Rattle.outside.specs.MemoryChildren.{first_child, child_after_start, child_after_look, child_after_kill, left_by};

use crate::faults::{Fail, Poll};
use crate::last_runs::LastRuns;
use objective::Memory;
use plain_text::Text;
use std::alloc::Global;
use std::marker::Model;
use wrapper_lines::Run;

/// What a killed child leaves behind.
const KILLED_LINE: &str = "Result for ParamILS: TIMEOUT, 0, 0, 0, 0\n";

/// The child of a seat in memory: its run, what it writes, whether it runs, has ended or was
/// killed, and how many starts and looks have failed. Only `new` takes memory.
///
/// Its type keeps that no output is held of a killed child.
#[derive(Drop)]
pub struct MemoryChild {
    runs: LastRuns,
    output: Text,
    is_idle: bool,
    is_held: bool,
    is_killed: bool,
    faults: u64,
}

impl Model for MemoryChild {
    ghost use Rattle.std.specs.Prelude.{◌≡◌, ◌&&◌, false, None};
    ghost use Rattle.outside.specs.MemoryChildren.{ChildState};

    ghost Value = { ChildState };

    ghost view = { λ c. record {
      told = record {
        idle = c.is_idle;
        held = c.is_held;
        current = c.runs.current;
        failed_run = c.runs.failed_run;
        started = None;
        folders = None;
        faults = c.faults;
      };
      output = c.output;
      killed = c.is_killed;
    } };

    ghost invariant = { λ c. (c.is_held && c.is_killed) ≡ false };
}

impl MemoryChild {
    /// No child was started yet.
    pub fn new(alloc: Global) -> Result<MemoryChild, Memory>
        ensures { IfOk result (λ c. c ≡ first_child) }
    {
        Ok(MemoryChild {
            runs: LastRuns::new(),
            output: Text::new(String::new(alloc))?,
            is_idle: true,
            is_held: false,
            is_killed: false,
            faults: 0,
        })
    }

    /// No child runs, and no output is held.
    pub fn clear(&mut self)
        ensures { self.new ≡ record self.old { told = record self.old.told { idle = true; held = false } } }
    {
        self.is_idle = true;
        self.is_held = false;
    }

    /// The child of this run was started, which writes this, or its start failed.
    pub fn start(&mut self, run: Run, output: Text, has_failed: bool)
        ensures change { self.new ≡ child_after_start has_failed run output self.old }
        ensures counts { self.old.told.faults ≤ self.new.told.faults }
    {
        self.runs.begin(run, has_failed);
        self.output = output;
        self.is_idle = has_failed;
        self.is_held = false;
        self.is_killed = false;
        if has_failed {
            self.faults = self.faults.saturating_add(1);
        }
    }

    /// A look at the child found this.
    pub fn look(&mut self, found: Result<Poll, Fail>) -> Result<Poll, Fail>
        ensures found { result ≡ found }
        ensures change { self.new ≡ child_after_look found self.old }
        ensures counts { self.old.told.faults ≤ self.new.told.faults }
    {
        self.is_idle = !matches!(found, Ok(Poll::Pending));
        self.is_held = matches!(found, Ok(Poll::Ended));
        self.is_killed = false;
        if found.is_err() {
            self.runs.fail();
            self.faults = self.faults.saturating_add(1);
        }
        found
    }

    /// The child was killed. What it leaves behind is the line of a timeout, which no look shows.
    pub fn kill(&mut self)
        ensures { self.new ≡ child_after_kill self.old }
    {
        self.is_idle = true;
        self.is_held = false;
        self.is_killed = true;
    }

    /// What the child leaves behind that was started last: what it writes, unless it was killed.
    pub fn output(&self) -> &[u8]
        ensures left { result.now ≡ left_by self.now }
        ensures held { IsTrue self.now.told.held → result.now ≡ self.now.output }
    {
        if self.is_killed {
            return KILLED_LINE.as_bytes();
        }
        self.output.as_str().as_bytes()
    }

    /// How many starts and looks have failed.
    pub fn faults(&self) -> u64
        ensures { result ≡ self.now.told.faults }
    {
        self.faults
    }
}
