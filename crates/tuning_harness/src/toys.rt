//! A tuning of the toy in memory, and what it came to.
ghost use Rattle.std.specs.Prelude.{All, IsTrue, IfOk};

use objective::Memory;
use outside::{MemoryFiles, MemorySink};
use plain_text::Text;
use std::alloc::Global;
use std::sync::Wait;
use std::thread::Threads;
use test_support::words_between;
use toy_bench::{ToySeat, toy_files};
use tuner::{Seat, Status, tune};

/// How many seats there are.
const SEATS: u32 = 8;

/// What a tuning of the toy came to.
#[derive(Drop)]
pub struct ToyTuning {
    /// How it ended.
    pub status: Status,
    /// What it printed.
    pub printed: Vec<u8>,
}

/// Seats of the toy.
fn toy_seats(alloc: Global) -> Result<Vec<Seat<ToySeat>>, Memory>
    ensures { IfOk result (λ seats. All (λ seat. IsTrue seat.told.idle) seats.items) }
{
    let mut seats = Vec::new(alloc);
    for _ in 0..SEATS {
        seats.push(Seat::new(alloc, ToySeat::new(alloc)?))?;
    }
    Ok(seats)
}

/// The one call of the tuner.
fn tuned<R: Threads + Wait + Sync>(
    rt: &R,
    alloc: Global,
    words: &[Text],
    files: &mut MemoryFiles,
    out: &mut MemorySink,
    seats: &mut [Seat<ToySeat>],
) -> Status
    requires { All (λ seat. IsTrue seat.told.idle) seats.old }
{
    let mut log = MemorySink::new(alloc);
    tune(rt, alloc, words, files, out, &mut log, seats)
}

/// What a tuning of the toy with this number comes to, by its scenario and further words, each
/// after a bar, over eight seats.
pub fn ran_toy<R: Threads + Wait + Sync>(
    rt: &R,
    alloc: Global,
    number: u32,
    words: &str,
) -> Result<ToyTuning, Memory> {
    let words = format!(in alloc; "-scenariofile|toy{words}")?;
    let words = words_between(alloc, words.as_str())?;
    let mut files = toy_files(alloc, number)?;
    let mut seats = toy_seats(alloc)?;
    let mut out = MemorySink::new(alloc);
    let (given, seats) = (words.as_slice(), seats.as_mut_slice());
    let status = tuned(rt, alloc, given, &mut files, &mut out, seats);
    let printed = Vec::from_slice(alloc, out.bytes())?;
    Ok(ToyTuning { status, printed })
}
