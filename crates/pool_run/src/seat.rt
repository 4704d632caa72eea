//! Seats.
ghost use Rattle.std.specs.Prelude.{◌≡◌, [], false, option_map};
ghost use Rattle.pool_run.specs.Seats.{fault_of, with_fault};

use board_steps::Ticket;
use outside::{Fault, Spawner};
use std::alloc::Global;
use std::marker::Model;

/// A place for one child at a time. It keeps the tickets that it took, and whether the run of the
/// last one failed or there was no memory.
#[derive(Drop)]
pub struct Seat<S: Spawner> {
    pub(crate) spawner: S,
    pub(crate) tickets: Vec<Ticket>,
    pub(crate) failed: bool,
    pub(crate) short: bool,
}

impl<S: Spawner> Model for Seat<S> {
    ghost use Rattle.pool_run.specs.Seats.{SeatState};

    ghost Value = { SeatState };

    ghost view = { λ seat.
        record { told = S.told seat.spawner; tickets = seat.tickets.items; failed = seat.failed; short = seat.short } };
}

impl<S: Spawner> Seat<S> {
    /// The seat of this spawner. Takes no memory.
    pub fn new(alloc: Global, spawner: S) -> Seat<S>
        ensures { result ≡ record { told = S.told spawner; tickets = []; failed = false; short = false } }
    {
        Seat {
            spawner,
            tickets: Vec::new(alloc),
            failed: false,
            short: false,
        }
    }

    /// The spawner.
    pub fn spawner(&self) -> &S
        ensures { S.told result.now ≡ self.now.told }
    {
        &self.spawner
    }

    /// The tickets that it took since it was made or cleared, oldest first.
    pub fn tickets(&self) -> &[Ticket]
        ensures { result.now ≡ self.now.tickets }
    {
        self.tickets.as_slice()
    }

    /// The ticket whose run failed, where one is kept: the last one.
    pub fn fault(&self) -> Option<&Ticket>
        ensures { option_map (λ t. t.now) result ≡ fault_of self.now }
    {
        if self.failed {
            self.tickets.last()
        } else {
            None
        }
    }

    /// Whether there was no memory.
    pub fn short(&self) -> bool
        ensures { result ≡ self.now.short }
    {
        self.short
    }

    /// Keeps why the run of the last ticket couldn't be made.
    pub(crate) fn keep(&mut self, fault: Fault)
        ensures { self.new ≡ with_fault fault self.old }
    {
        match fault {
            Fault::Failed => self.failed = true,
            Fault::Memory => self.short = true,
        }
    }

    /// Drops the fault and that there was no memory.
    pub(crate) fn forget(&mut self)
        ensures { self.new ≡ record self.old { failed = false; short = false } }
    {
        self.failed = false;
        self.short = false;
    }

    /// Drops the tickets, the fault and that there was no memory; the spawner stays as it was.
    pub fn clear(&mut self)
        ensures { self.new ≡ record { told = self.old.told; tickets = []; failed = false; short = false } }
    {
        self.tickets.clear();
        self.forget();
    }
}
