//! A seat in memory whose children wait for what other seats do. What its runs come to isn't told.
ghost use Rattle.std.specs.Prelude.{IsTrue, IfOk};

use crate::counts::{Counts, Event};
use crate::plan::{Fate, Plan};
use objective::Memory;
use outside::{Fail, Fault, MemoryChild, Poll, Spawner, Table, output_of};
use plain_text::{Text, seconds_text};
use std::alloc::Global;
use std::rt::Clock;
use std::sync::Arc;
use std::thread;
use std::time::Duration;
use tuning_harness::Rows;
use wrapper_lines::Run;

/// The look at a child that fails.
const LAST_LOOK: u64 = 1_000_000;

/// The milliseconds that a look takes which is to come late: by then other seats have nothing to do any more.
const WHILE: u64 = 20;

/// A seat in memory whose children wait for what other seats do, by a plan.
#[derive(Drop)]
pub struct PlannedSeat<'a, R: Clock> {
    rt: &'a R,
    alloc: Global,
    plan: Plan,
    counts: Arc<Counts, Global>,
    child: MemoryChild,
    fate: Fate,
    /// Whether the first look at the child takes until another seat has gone on.
    is_slow: bool,
    looks: u64,
    starts: Vec<String>,
    /// How many kills nobody went on beside.
    lone_kills: u64,
}

/// The value, the seed and the cutoff of a run with one setting, as in `a2@10.000000`.
fn cell_text(alloc: Global, run: &Run) -> Result<String, Memory> {
    let mut text = String::new(alloc);
    for setting in run.key.settings.as_slice() {
        text.push_str(setting.value.as_str())?;
    }
    let cutoff = seconds_text(alloc, run.cutoff.0)?;
    let (seed, cutoff) = (run.key.seed, cutoff.as_str());
    text.push_str(format!(in alloc; "{seed}@{cutoff}")?.as_str())?;
    Ok(text)
}

impl<'a, R: Clock> PlannedSeat<'a, R> {
    /// A seat that has started nothing, of those that share these counts.
    pub fn new(
        rt: &'a R,
        alloc: Global,
        plan: Plan,
        counts: &Arc<Counts, Global>,
    ) -> Result<PlannedSeat<'a, R>, Memory>
        ensures { IfOk result (λ s. IsTrue s.child.told.idle) }
    {
        Ok(PlannedSeat {
            rt,
            alloc,
            plan,
            counts: Arc::try_clone(counts)?,
            child: MemoryChild::new(alloc)?,
            fate: Fate::Ends,
            is_slow: false,
            looks: 0,
            starts: Vec::new(alloc),
            lone_kills: 0,
        })
    }

    /// The runs whose children were started.
    pub fn starts(&self) -> &[String] {
        self.starts.as_slice()
    }

    /// How many starts and looks have failed, and how many kills nobody went on beside.
    pub fn faults(&self) -> u64 {
        self.child.faults().saturating_add(self.lone_kills)
    }

    /// Counts a failure, and tells whether it is the first.
    fn is_first_failure(&self) -> bool {
        self.counts.count(Event::Failure) == 0
    }

    /// Whether the start of a child with this fate fails. It may take until another seat has started one.
    fn is_bad_start(&self, run: &Run, fate: Fate) -> bool {
        match fate {
            Fate::CannotStart => self.is_first_failure(),
            _ => self.plan.waits_at_start(&run.key) && !self.counts.comes_to(Event::Start, 1),
        }
    }

    /// Whether the child runs still.
    fn is_awaited(&self) -> bool {
        match self.fate {
            Fate::EndsAfter(event, count) => !self.counts.has(event, count),
            Fate::Stays | Fate::IsLostLate => true,
            Fate::Ends | Fate::CannotStart | Fate::CannotBeSeen | Fate::NoMemory => false,
        }
    }

    /// Whether an output was read, after which it takes a while.
    fn is_late(&self) -> bool {
        let is_late = self.counts.has(Event::Read, 1);
        if is_late {
            thread::sleep(self.rt, Duration::from_millis(WHILE));
        }
        is_late
    }

    /// Whether this look fails. It may take until another seat has gone on.
    fn is_bad_look(&self) -> bool {
        if self.looks >= LAST_LOOK {
            return true;
        }
        match self.fate {
            Fate::CannotBeSeen => self.is_first_failure(),
            Fate::IsLostLate => self.is_late(),
            _ => self.is_slow && self.looks == 1 && !self.counts.others_go_on(),
        }
    }
}

impl<'a, R: Clock> Spawner for PlannedSeat<'a, R> {
    ghost use Rattle.std.specs.Prelude.{None};

    ghost told = { λ s. record s.child.told { started = None; folders = None } };

    ghost truth = { None };

    fn start(&mut self, _dir: &str, _words: &[Text], run: &Run) -> Result<(), Fault> {
        self.child.clear();
        self.starts.reserve(1)?;
        let copy = run.copy()?;
        let cell = cell_text(self.alloc, run)?;
        let output = output_of(self.alloc, Rows::outcome(&run.key), run.cutoff)?;
        let fate = self.plan.fate(run, self.starts.is_empty());
        if fate == Fate::NoMemory && self.is_first_failure() {
            return Err(Fault::Memory);
        }
        let fails = self.is_bad_start(run, fate);
        self.child.start(copy, output, fails);
        if fails {
            return Err(Fault::Failed);
        }
        self.starts.push_reserved(cell);
        self.fate = fate;
        self.is_slow = self.plan.waits_at_look(&run.key);
        self.looks = 0;
        self.counts.count(Event::Start);
        Ok(())
    }

    fn poll(&mut self) -> Result<Poll, Fail> {
        self.looks = self.looks.saturating_add(1);
        self.counts.count(Event::Look);
        let found = if self.is_bad_look() {
            Err(Fail)
        } else if self.is_awaited() {
            Ok(Poll::Pending)
        } else {
            Ok(Poll::Ended)
        };
        self.child.look(found)
    }

    fn output(&self) -> &[u8] {
        self.counts.count(Event::Read);
        self.child.output()
    }

    fn kill(&mut self) {
        if self.plan.waits_at_kill() && !self.counts.others_go_on() {
            self.lone_kills = self.lone_kills.saturating_add(1);
        }
        self.counts.count(Event::Kill);
        self.child.kill();
    }

    /// Lets other threads go on.
    fn pause(&mut self) {
        thread::yield_now();
    }
}
