//! Files of the system.
ghost use Rattle.std.specs.Prelude.{◌≡◌, None};

use crate::faults::fault_of;
use outside::Fault;
use std::io;
use std::io::Read;

/// How many bytes of a file are read at most.
const MOST: u64 = 1 << 32;

/// Files of the system. What they hold isn't told.
#[derive(Drop)]
pub struct RealFiles<'a, R> {
    rt: &'a R,
    faults: u64,
}

impl<'a, R: std::rt::Files + AllocGlobal> RealFiles<'a, R> {
    /// The files that this runtime opens; no read has failed. Takes no memory.
    pub fn new(rt: &'a R) -> RealFiles<'a, R>
        ensures { result.faults ≡ 0 }
    {
        RealFiles { rt, faults: 0 }
    }

    /// How many reads have failed; it stands still at the greatest u64.
    pub fn faults(&self) -> u64
        ensures { result ≡ self.now.faults }
    {
        self.faults
    }
}

/// The first 2^32 bytes of a file, which is all of most files.
fn first_bytes<R: std::rt::Files + AllocGlobal>(rt: &R, name: &str) -> io::Result<Vec<u8>> {
    let mut bytes = Vec::new(rt.alloc());
    std::fs::open(rt, name)?.take(MOST).read_to_end(&mut bytes)?;
    Ok(bytes)
}

impl<'a, R: std::rt::Files + AllocGlobal> outside::Files for RealFiles<'a, R> {
    ghost told = { λ s. record { contents = None; faults = s.faults } };

    /// Reads a whole file, and of a longer one its first 2^32 bytes. Memory where the
    /// system or the allocator has none left; Failed at every other error.
    fn read(&mut self, name: &str) -> Result<Vec<u8>, Fault> {
        match first_bytes(self.rt, name).map_err(fault_of) {
            Ok(bytes) => Ok(bytes),
            Err(Fault::Memory) => Err(Fault::Memory),
            Err(Fault::Failed) => {
                self.faults = self.faults.saturating_add(1);
                Err(Fault::Failed)
            }
        }
    }
}
