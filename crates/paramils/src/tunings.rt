//! What a tuning needs: seats of the system or of a toy, and the standard streams.
ghost use Rattle.std.specs.Prelude.{All, IfOk, IsTrue};

use crate::command::toy_words;
use crate::process_seat::ProcessSeat;
use crate::real_sink::{RealSink, Standard};
use objective::{MAX_WORKERS, Memory};
use outside::{Files, Spawner};
use plain_text::Text;
use std::alloc::Global;
use std::fs::File;
use std::process::Processes;
use std::rt;
use std::rt::Clock;
use std::sync::Wait;
use std::thread::Threads;
use toy_bench::{ToySeat, toy_files};
use tuner::{Seat, tune};

/// The standard streams of this process.
#[derive(Clone, Copy)]
pub(crate) struct Streams {
    /// Where the result goes.
    pub(crate) out: Standard,
    /// Where the log goes.
    pub(crate) log: Standard,
}

/// A seat of this process for each worker that a scenario may ask for. Memory where there is
/// none left.
pub(crate) fn process_seats<R: rt::Files<File = File> + Processes + Clock + AllocGlobal>(
    rt: &R,
    process: u32,
) -> Result<Vec<Seat<ProcessSeat<'_, R>>>, Memory>
    ensures { IfOk result (λ seats. All (λ seat. IsTrue seat.told.idle) seats.items) }
{
    let mut seats = Vec::new(rt.alloc());
    for number in 0..MAX_WORKERS {
        seats.push(Seat::new(rt.alloc(), ProcessSeat::new(rt, process, number)?))?;
    }
    Ok(seats)
}

/// As many seats of a toy. Memory where there is none left.
fn toy_seats(alloc: Global) -> Result<Vec<Seat<ToySeat>>, Memory>
    ensures { IfOk result (λ seats. All (λ seat. IsTrue seat.told.idle) seats.items) }
{
    let mut seats = Vec::new(alloc);
    for _ in 0..MAX_WORKERS {
        seats.push(Seat::new(alloc, ToySeat::new(alloc)?))?;
    }
    Ok(seats)
}

/// The exit status of a tuning by these words over these files and seats. It may wait.
pub(crate) fn tuned<R: Threads + Wait + Sync + AllocGlobal, F: Files, S: Spawner + Send>(
    rt: &R,
    words: &[Text],
    files: &mut F,
    streams: Streams,
    seats: &mut [Seat<S>],
) -> u8
    requires { All (λ seat. IsTrue seat.told.idle) seats.old }
{
    let mut out = RealSink::new(streams.out);
    let mut log = RealSink::new(streams.log);
    tune(rt, rt.alloc(), words, files, &mut out, &mut log, seats).code()
}

/// The exit status of a tuning of the toy with this number by the words after it. It may wait.
pub(crate) fn tune_toy<R: Threads + Wait + Sync + AllocGlobal>(
    rt: &R,
    number: u32,
    words: &[Text],
    streams: Streams,
) -> Result<u8, Memory> {
    let words = toy_words(rt.alloc(), words)?;
    let mut files = toy_files(rt.alloc(), number)?;
    let mut seats = toy_seats(rt.alloc())?;
    Ok(tuned(
        rt,
        words.as_slice(),
        &mut files,
        streams,
        seats.as_mut_slice(),
    ))
}
