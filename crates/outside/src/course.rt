//! What a seat in memory is told to do, and how far it is with that.
ghost use Rattle.std.specs.Prelude.{◌≡◌, not};
ghost use Rattle.outside.specs.Changes.{has_ended, has_look_failed};
ghost use Rattle.outside.specs.Courses.{first_course, after_start, after_look, is_bad_start, is_bad_look, is_ended};

use crate::faults::{Fail, Poll};
use crate::numbers::has_number;
use plain_text::Items;

/// The look at a stuck child that fails.
const LAST_LOOK: u32 = 1_000_000;

/// Which starts and looks of a seat go wrong, by their numbers from 1, and how often its
/// children are looked at before they have ended.
#[derive(Drop)]
pub struct Script {
    /// How many looks at each start's child come before it has ended; none where the list is shorter.
    pub pending: Items<u32>,
    /// The starts that fail.
    pub bad_starts: Items<u32>,
    /// The looks that fail.
    pub bad_polls: Items<u32>,
    /// The starts whose child doesn't end; its look number 1,000,000 fails.
    pub stuck: Items<u32>,
}

/// How far a seat is with its script.
#[derive(Drop)]
pub(crate) struct Course {
    script: Script,
    /// How many starts there were, failed ones too.
    starts: usize,
    /// How many looks there were.
    polls: usize,
    /// How many looks come before the child has ended, or before the one that fails.
    looks: u32,
    is_stuck: bool,
}

impl Course {
    /// The beginning of a script.
    pub(crate) fn new(script: Script) -> Course
        ensures { result ≡ first_course script }
    {
        Course {
            script,
            starts: 0,
            polls: 0,
            looks: 0,
            is_stuck: false,
        }
    }

    /// One more start. False where the script says that it fails.
    pub(crate) fn start(&mut self) -> bool
        ensures works { result ≡ not (is_bad_start self.old) }
        ensures change { self.new ≡ after_start result self.old }
    {
        let pending = self.script.pending.as_slice().get(self.starts).copied();
        self.starts = self.starts.saturating_add(1);
        if has_number(self.script.bad_starts.as_slice(), self.starts) {
            return false;
        }
        self.is_stuck = has_number(self.script.stuck.as_slice(), self.starts);
        self.looks = if self.is_stuck {
            LAST_LOOK - 1
        } else {
            pending.unwrap_or(0)
        };
        true
    }

    /// One more look, by the script.
    pub(crate) fn look(&mut self) -> Result<Poll, Fail>
        ensures failing { has_look_failed result ≡ is_bad_look self.old }
        ensures ending { has_ended result ≡ is_ended self.old }
        ensures change { self.new ≡ after_look self.old }
    {
        let is_due = self.looks == 0;
        self.looks = self.looks.saturating_sub(1);
        self.polls = self.polls.saturating_add(1);
        let is_last = self.is_stuck && is_due;
        if is_last || has_number(self.script.bad_polls.as_slice(), self.polls) {
            return Err(Fail);
        }
        if is_due {
            Ok(Poll::Ended)
        } else {
            Ok(Poll::Pending)
        }
    }
}
