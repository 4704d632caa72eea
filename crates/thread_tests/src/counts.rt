//! What is counted over all seats of a tuning.
use std::sync::atomic::{AtomicU64, Ordering};
use std::thread;

/// How often a count is looked at that is waited for, at most.
const LAST_LOOK: u64 = 1_000_000;

/// What is counted.
#[derive(Clone, Copy, Debug, PartialEq, Eq)]
pub enum Event {
    /// A child was started.
    Start,
    /// A child was looked at.
    Look,
    /// The output of a child was read.
    Read,
    /// A child was killed.
    Kill,
    /// A child couldn't be started or looked at.
    Failure,
}

/// What was counted so far, over all seats of a tuning.
#[derive(Drop)]
pub struct Counts {
    starts: AtomicU64,
    looks: AtomicU64,
    reads: AtomicU64,
    kills: AtomicU64,
    failures: AtomicU64,
}

impl Counts {
    /// Nothing was counted yet.
    pub fn new() -> Counts {
        Counts {
            starts: AtomicU64::new(0),
            looks: AtomicU64::new(0),
            reads: AtomicU64::new(0),
            kills: AtomicU64::new(0),
            failures: AtomicU64::new(0),
        }
    }

    fn of(&self, event: Event) -> &AtomicU64 {
        match event {
            Event::Start => &self.starts,
            Event::Look => &self.looks,
            Event::Read => &self.reads,
            Event::Kill => &self.kills,
            Event::Failure => &self.failures,
        }
    }

    /// Counts an event, and gives how many there were before.
    pub fn count(&self, event: Event) -> u64 {
        self.of(event).fetch_add(1, Ordering::SeqCst)
    }

    /// Whether there were so many of these events.
    pub fn has(&self, event: Event, count: u64) -> bool {
        self.of(event).load(Ordering::SeqCst) >= count
    }

    /// Waits until there were so many of these events. False where they are too long in coming.
    pub fn comes_to(&self, event: Event, count: u64) -> bool {
        for _ in 0..LAST_LOOK {
            if self.has(event, count) {
                return true;
            }
            thread::yield_now();
        }
        false
    }

    /// Waits until other seats have looked at their children twice. One look may have been under way, and
    /// the second comes only where the board can be had in between. False where they are too long in coming.
    pub fn others_go_on(&self) -> bool {
        let looks = self.looks.load(Ordering::SeqCst);
        self.comes_to(Event::Look, looks.saturating_add(2))
    }
}
