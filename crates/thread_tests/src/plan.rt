//! What is to come of the children of several seats.
use crate::counts::Event;
use wrapper_lines::{Key, Run, Setting};

/// What comes of a child.
#[derive(Clone, Copy, Debug, PartialEq, Eq)]
pub enum Fate {
    /// It has ended at the first look.
    Ends,
    /// It has ended once there were so many of these events, over all seats.
    EndsAfter(Event, u64),
    /// It runs until it is killed.
    Stays,
    /// It can't be started, the first time.
    CannotStart,
    /// The first look at it fails, the first time.
    CannotBeSeen,
    /// There is no memory to start it, the first time.
    NoMemory,
    /// A look at it fails that comes a while after an output was read.
    IsLostLate,
}

/// Which children wait for what. The runs are those of the values a and b on the first pairs.
#[derive(Clone, Copy, Debug, PartialEq, Eq)]
pub enum Plan {
    /// Each child ends at the first look.
    Free,
    /// The first child of a seat ends once so many were started.
    Gate(u64),
    /// The child of b on the second pair under a cutoff of so many seconds stays until it is killed, and the
    /// one on the first pair ends once it was started.
    Kill(u64),
    /// The child of a on the second pair comes to this, and the one on the first ends after a failure.
    Ahead(Fate),
    /// The child of a on the first pair comes to this.
    Asked(Fate),
    /// The child on the first pair ends once the output of the one on the second was read.
    SecondFirst,
    /// The child of a on the first pair, each look at that of b and each kill take until another seat has gone
    /// on meanwhile. That of b on the second pair under the full cutoff stays until it is killed, the one on
    /// the third ends afterwards, and the second one on the second pair once that was read.
    Turns,
}

/// Whether the first setting has this value.
fn has(settings: &[Setting], value: &str) -> bool {
    match settings {
        [] => false,
        [first, ..] => first.value.as_str() == value,
    }
}

/// Whether a run is of this value and on the pair with this seed.
fn is_run(key: &Key, value: &str, seed: u32) -> bool {
    key.seed == seed && has(key.settings.as_slice(), value)
}

impl Plan {
    /// What comes of the child of this run, by whether its seat has started none before.
    pub fn fate(self, run: &Run, is_first: bool) -> Fate {
        match self {
            Plan::Free => Fate::Ends,
            Plan::Gate(seats) => gate_fate(seats, is_first),
            Plan::Kill(seconds) => kill_fate(run, seconds),
            Plan::Ahead(fate) => ahead_fate(&run.key, fate),
            Plan::Asked(fate) => asked_fate(&run.key, fate),
            Plan::SecondFirst => second_first_fate(&run.key),
            Plan::Turns => turns_fate(run),
        }
    }

    /// Whether the start of this run's child takes until another seat has started one.
    pub fn waits_at_start(self, key: &Key) -> bool {
        self == Plan::Turns && is_run(key, "a", 1)
    }

    /// Whether the first look at this run's child takes until another seat has gone on.
    pub fn waits_at_look(self, key: &Key) -> bool {
        self == Plan::Turns && is_run(key, "b", 1)
    }

    /// Whether a kill takes until another seat has gone on.
    pub fn waits_at_kill(self) -> bool {
        self == Plan::Turns
    }
}

fn gate_fate(seats: u64, is_first: bool) -> Fate {
    if is_first {
        Fate::EndsAfter(Event::Start, seats)
    } else {
        Fate::Ends
    }
}

/// Whether a run is of b on the second pair, under a cutoff of so many seconds.
fn is_second(run: &Run, seconds: u64) -> bool {
    is_run(&run.key, "b", 2) && run.cutoff.0 == seconds.saturating_mul(1_000_000)
}

fn kill_fate(run: &Run, seconds: u64) -> Fate {
    if is_second(run, seconds) {
        Fate::Stays
    } else if is_run(&run.key, "b", 1) {
        // After the two of a, this one and the one that stays.
        Fate::EndsAfter(Event::Start, 4)
    } else {
        Fate::Ends
    }
}

fn ahead_fate(key: &Key, fate: Fate) -> Fate {
    if is_run(key, "a", 2) {
        fate
    } else if is_run(key, "a", 1) {
        Fate::EndsAfter(Event::Failure, 1)
    } else {
        Fate::Ends
    }
}

fn asked_fate(key: &Key, fate: Fate) -> Fate {
    if is_run(key, "a", 1) {
        fate
    } else {
        Fate::Ends
    }
}

fn second_first_fate(key: &Key) -> Fate {
    if is_run(key, "a", 1) {
        Fate::EndsAfter(Event::Read, 1)
    } else if is_run(key, "b", 1) {
        // After the two of a, and the other of b.
        Fate::EndsAfter(Event::Read, 3)
    } else {
        Fate::Ends
    }
}

fn turns_fate(run: &Run) -> Fate {
    if is_second(run, 10) {
        Fate::Stays
    } else if is_run(&run.key, "b", 2) {
        // After the three of a, and those of b on the other pairs.
        Fate::EndsAfter(Event::Read, 5)
    } else if is_run(&run.key, "b", 3) {
        Fate::EndsAfter(Event::Kill, 1)
    } else {
        Fate::Ends
    }
}
