//! From where the next comparison is made ready.
ghost use Rattle.std.specs.Prelude.{◌≡◌, ◌+◌, ◌<◌, ◌^◌};

use std::alloc::Global;

/// How far a search is between two comparisons.
#[derive(Clone, Copy)]
pub(crate) struct Moment {
    /// The allocator of what is made ready.
    pub alloc: Global,
    /// The number of comparisons begun.
    pub compared: u32,
    /// The number of the next draw.
    pub event: u64,
}

impl Moment {
    /// The moment after so many draws.
    pub(crate) fn after(self, draws: u64) -> Moment
        requires { self.event + draws < 2 ^ 64 }
        ensures { result ≡ record self { event = self.event + draws } }
    {
        Moment {
            event: self.event + draws,
            ..self
        }
    }
}
