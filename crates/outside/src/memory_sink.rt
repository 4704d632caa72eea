//! A sink in memory.
ghost use Rattle.std.specs.Prelude.{◌≡◌, [], ◌∷◌, ◌++◌, OnOk, OnErr};
ghost use Rattle.outside.specs.SinkState.{first_sink};

use crate::faults::Fault;
use crate::numbers::has_number;
use crate::sink::Sink;
use objective::Memory;
use std::alloc::Global;
use std::marker::Model;

/// A sink that keeps what it takes, and which of its writes fail or take nothing.
#[derive(Drop)]
pub struct MemorySink {
    bytes: Vec<u8>,
    bad_writes: Vec<u32>,
    empty_writes: Vec<u32>,
    writes: usize,
    faults: u64,
    empties: u64,
}

impl Model for MemorySink {
    ghost use Rattle.outside.specs.SinkState.{SinkState};

    ghost Value = { SinkState };

    ghost view = { λ s. record {
      bytes = s.bytes.items;
      bad_writes = s.bad_writes.items;
      empty_writes = s.empty_writes.items;
      writes = s.writes;
      faults = s.faults;
      empties = s.empties;
    } };
}

impl MemorySink {
    /// A sink that has taken nothing. Takes no memory.
    pub fn new(alloc: Global) -> MemorySink
        ensures { result ≡ first_sink }
    {
        MemorySink {
            bytes: Vec::new(alloc),
            bad_writes: Vec::new(alloc),
            empty_writes: Vec::new(alloc),
            writes: 0,
            faults: 0,
            empties: 0,
        }
    }

    /// What it took.
    pub fn bytes(&self) -> &[u8]
        ensures { result.now ≡ self.now.bytes }
    {
        self.bytes.as_slice()
    }

    /// Makes the write with this number, from 1, fail.
    pub fn fail_at(&mut self, write: u32) -> Result<(), Memory>
        ensures ok { OnOk result (self.new ≡ record self.old { bad_writes = self.old.bad_writes ++ write ∷ [] }) }
        ensures err { OnErr result (self.new ≡ self.old) }
    {
        self.bad_writes.push(write)?;
        Ok(())
    }

    /// Makes the write with this number, from 1, take nothing.
    pub fn nothing_at(&mut self, write: u32) -> Result<(), Memory>
        ensures ok { OnOk result (self.new ≡ record self.old { empty_writes = self.old.empty_writes ++ write ∷ [] }) }
        ensures err { OnErr result (self.new ≡ self.old) }
    {
        self.empty_writes.push(write)?;
        Ok(())
    }

    /// How many writes have failed.
    pub fn faults(&self) -> u64
        ensures { result ≡ self.now.faults }
    {
        self.faults
    }
}

impl Sink for MemorySink {
    ghost use Rattle.std.specs.Prelude.{◌≡◌, ◌≤◌, Some, length, take, IfOk, OnErr};
    ghost use Rattle.outside.specs.Changes.{has_failed, FailsWhere, after_taking, is_empty_taking};
    ghost use Rattle.outside.specs.Counts.{next_count, count_after};
    ghost use Rattle.outside.specs.SinkState.{is_bad_write, taken_length};

    ghost told = { λ s. record { taken = Some s.bytes; faults = s.faults; empties = s.empties } };

    /// Fails exactly where the number of this write was named so, unless there is no memory
    /// left; takes nothing where it was named so, else the whole piece.
    fn write(&mut self, piece: &[u8]) -> Result<usize, Fault>
        ensures failing { FailsWhere (is_bad_write self.old) result }
        ensures length { IfOk result (λ n. n ≡ taken_length self.old piece.now) }
        ensures numbered { self.new.writes ≡ next_count self.old.writes }
        ensures bad_writes { self.new.bad_writes ≡ self.old.bad_writes }
        ensures empty_writes { self.new.empty_writes ≡ self.old.empty_writes }
        ensures within { IfOk result (λ n. n ≤ length piece.now) }
        ensures took { IfOk result (λ n. Some self.new.bytes ≡ after_taking (Some self.old.bytes) (take n piece.now)) }
        ensures refused { OnErr result (Some self.new.bytes ≡ Some self.old.bytes) }
        ensures emptied { self.new.empties ≡ count_after (is_empty_taking result piece.now) self.old.empties }
        ensures never_falls { self.old.empties ≤ self.new.empties }
        ensures counted { self.new.faults ≡ count_after (has_failed result) self.old.faults }
        ensures counts { self.old.faults ≤ self.new.faults }
    {
        self.writes = self.writes.saturating_add(1);
        if has_number(self.bad_writes.as_slice(), self.writes) {
            self.faults = self.faults.saturating_add(1);
            return Err(Fault::Failed);
        }
        if has_number(self.empty_writes.as_slice(), self.writes) {
            if !piece.is_empty() {
                self.empties = self.empties.saturating_add(1);
            }
            return Ok(0);
        }
        self.bytes.extend_from_slice(piece)?;
        Ok(piece.len())
    }
}
