//! Files in memory.
ghost use Rattle.std.specs.Prelude.{◌≡◌, List, ℕ, [], ◌∷◌, ◌++◌, Some, OnOk, OnErr, option_map, bytes_eq, if◌then◌else◌};
ghost use Rattle.outside.specs.Folders.{bytes_of, with_file, bytes_after};

use crate::faults::Fault;
use crate::files::Files;
use crate::numbers::has_number;
use objective::Memory;
use plain_text::{Items, Text};
use std::alloc::Global;
use std::marker::Model;

/// A file.
#[derive(Drop)]
struct File {
    name: Text,
    bytes: Items<u8>,
}

/// Files in memory, and which reads of them fail.
#[derive(Drop)]
pub struct MemoryFiles {
    alloc: Global,
    files: Vec<File>,
    bad_reads: Vec<u32>,
    reads: usize,
    faults: u64,
}

impl Model for MemoryFiles {
    ghost use Rattle.outside.specs.Folders.{Folder};

    ghost Value = { Folder };

    ghost view = { λ m. record {
      files = m.files.items;
      bad_reads = m.bad_reads.items;
      reads = m.reads;
      faults = m.faults;
    } };
}

/// The bytes of the first file with this name.
fn bytes_named<'a>(files: &'a [File], name: &str) -> Option<&'a [u8]>
    ensures { option_map (λ bytes. bytes.now) result ≡ bytes_of files.now name.now }
{
    let file = files.iter().find(|file| file.name.as_str() == name)?;
    Some(file.bytes.as_slice())
}

impl MemoryFiles {
    /// No files. Takes no memory.
    pub fn new(alloc: Global) -> MemoryFiles
        ensures { result ≡ record { files = []; bad_reads = []; reads = 0; faults = 0 } }
    {
        MemoryFiles {
            alloc,
            files: Vec::new(alloc),
            bad_reads: Vec::new(alloc),
            reads: 0,
            faults: 0,
        }
    }

    /// Gives the name these bytes. Each other name has what it had.
    pub fn put(&mut self, name: &str, bytes: &[u8]) -> Result<(), Memory>
        ensures ok { OnOk result (self.new ≡ with_file self.old name.now bytes.now) }
        ensures err { OnErr result (self.new ≡ self.old) }
        ensures named { let had = bytes_after self.old name.now bytes.now in
            OnOk result ((other : List ℕ) → bytes_of self.new.files other ≡ had other) }
    {
        let name = Text::of(self.alloc, name)?;
        let bytes = Items::new(Vec::from_slice(self.alloc, bytes)?)?;
        self.files.insert(0, File { name, bytes })?;
        Ok(())
    }

    /// Makes the read with this number, from 1, fail.
    pub fn fail_at(&mut self, read: u32) -> Result<(), Memory>
        ensures ok { OnOk result (self.new ≡ record self.old { bad_reads = self.old.bad_reads ++ read ∷ [] }) }
        ensures err { OnErr result (self.new ≡ self.old) }
    {
        self.bad_reads.push(read)?;
        Ok(())
    }

    /// How many reads have failed.
    pub fn faults(&self) -> u64
        ensures { result ≡ self.now.faults }
    {
        self.faults
    }
}

impl Files for MemoryFiles {
    ghost use Rattle.std.specs.Prelude.{◌≡◌, ◌≤◌, Some, IfSome, IfOk};
    ghost use Rattle.outside.specs.Changes.{has_failed, FailsWhere};
    ghost use Rattle.outside.specs.Counts.{next_count, count_after};
    ghost use Rattle.outside.specs.Folders.{bytes_of, is_unreadable};

    ghost told = { λ s. record { contents = Some (bytes_of s.files); faults = s.faults } };

    /// Fails exactly where the number of this read was named, or there is no such file, unless
    /// there is no memory left.
    fn read(&mut self, name: &str) -> Result<Vec<u8>, Fault>
        ensures failing { FailsWhere (is_unreadable self.old name.now) result }
        ensures change { let faults = count_after (has_failed result) self.old.faults in
            self.new ≡ record self.old { reads = next_count self.old.reads; faults = faults } }
        ensures same { Some (bytes_of self.new.files) ≡ Some (bytes_of self.old.files) }
        ensures given { IfOk result (λ bytes. bytes_of self.old.files name.now ≡ Some bytes.items) }
        ensures counted { self.new.faults ≡ count_after (has_failed result) self.old.faults }
        ensures counts { self.old.faults ≤ self.new.faults }
    {
        self.reads = self.reads.saturating_add(1);
        if !has_number(self.bad_reads.as_slice(), self.reads) {
            if let Some(bytes) = bytes_named(self.files.as_slice(), name) {
                return Ok(Vec::from_slice(self.alloc, bytes)?);
            }
        }
        self.faults = self.faults.saturating_add(1);
        Err(Fault::Failed)
    }
}
