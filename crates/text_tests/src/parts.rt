//! An output that takes at most three bytes at a time.
ghost use Rattle.std.specs.Prelude.{◌≡◌};

use crate::checks::check;
use objective::Memory;
use outside::{Fault, Sink, write_whole};
use std::alloc::Global;

/// What was taken, and in how many writes.
#[derive(Drop)]
struct Narrow {
    bytes: Vec<u8>,
    writes: u32,
}

impl Sink for Narrow {
    ghost use Rattle.std.specs.Prelude.{Some};

    ghost told = { λ s. record { taken = Some s.bytes.items; faults = 0; empties = 0 } };

    fn write(&mut self, piece: &[u8]) -> Result<usize, Fault> {
        let part = match piece.get(..3) {
            Some(first) => first,
            None => piece,
        };
        self.bytes.extend_from_slice(part)?;
        self.writes = self.writes.saturating_add(1);
        Ok(part.len())
    }
}

/// Whether a piece is taken whole, in so many writes.
fn is_taken(alloc: Global, piece: &[u8], writes: u32) -> bool {
    let mut sink = Narrow {
        bytes: Vec::new(alloc),
        writes: 0,
    };
    let right = write_whole(&mut sink, piece).is_ok();
    right && sink.bytes.as_slice() == piece && sink.writes == writes
}

#[test]
fn pieces_are_taken_in_parts(rt: HostRuntime) {
    for (piece, writes) in &[("", 0), ("abc", 1), ("abcd", 2), ("abcdefg", 3)] {
        check(&rt, is_taken(rt.alloc(), piece.as_bytes(), *writes), piece);
    }
}
