//! Tunings by several seats whose children wait for each other, and what these started.
ghost use Rattle.std.specs.Prelude.{All, IsTrue, IfOk};

use crate::counts::Counts;
use crate::plan::Plan;
use crate::planned_seat::PlannedSeat;
use objective::Memory;
use outside::{MemoryFiles, MemorySink};
use plain_text::Text;
use std::alloc::Global;
use std::rt::Clock;
use std::sync::{Arc, Wait};
use std::thread::Threads;
use test_support::words_between;
use tuner::{Seat, Status, tune};
use tuning_harness::usual;

/// What a tuning by several seats came to.
#[derive(Drop)]
pub(crate) struct Tuning {
    pub(crate) status: Status,
    /// What it printed.
    pub(crate) printed: Vec<u8>,
    /// The runs whose children were started, each followed by a space: those of all seats, in order.
    pub(crate) starts: String,
    /// How many children each seat started at least.
    pub(crate) least: usize,
    /// How many starts and looks failed, and how many kills nobody went on beside.
    pub(crate) faults: u64,
}

/// The usual files, with this line for the instance.
fn folder_with(alloc: Global, instance: &str) -> Result<MemoryFiles, Memory> {
    let mut folder = MemoryFiles::new(alloc);
    for (name, bytes) in &usual() {
        folder.put(name, bytes)?;
    }
    folder.put("i", instance.as_bytes())?;
    Ok(folder)
}

/// A seat by this plan, of those that share these counts.
fn seat_by<'a, R: Clock>(
    rt: &'a R,
    alloc: Global,
    plan: Plan,
    counts: &Arc<Counts, Global>,
) -> Result<Seat<PlannedSeat<'a, R>>, Memory>
    ensures { IfOk result (λ seat. IsTrue seat.told.idle) }
{
    Ok(Seat::new(alloc, PlannedSeat::new(rt, alloc, plan, counts)?))
}

/// So many seats by this plan.
fn seats_by<'a, R: Clock>(
    rt: &'a R,
    alloc: Global,
    plan: Plan,
    count: u32,
) -> Result<Vec<Seat<PlannedSeat<'a, R>>>, Memory>
    ensures { IfOk result (λ seats. All (λ seat. IsTrue seat.told.idle) seats.items) }
{
    let counts = Arc::new(alloc, Counts::new())?;
    let mut seats = Vec::new(alloc);
    for _ in 0..count {
        seats.push(seat_by(rt, alloc, plan, &counts)?)?;
    }
    Ok(seats)
}

/// Appends copies of these texts.
fn push_all(texts: &[String], all: &mut Vec<String>) -> Result<(), Memory> {
    for text in texts {
        all.push(text.clone()?)?;
    }
    Ok(())
}

/// The runs that these seats started, in order.
fn all_starts<'a, R: Clock>(
    alloc: Global,
    seats: &[Seat<PlannedSeat<'a, R>>],
) -> Result<Vec<String>, Memory> {
    let mut all = Vec::new(alloc);
    for seat in seats {
        push_all(seat.spawner().starts(), &mut all)?;
    }
    all.sort()?;
    Ok(all)
}

/// These texts, each followed by a space.
fn spaced(alloc: Global, texts: &[String]) -> Result<String, Memory> {
    let mut line = String::new(alloc);
    for text in texts {
        line.push_str(text.as_str())?;
        line.push(' ')?;
    }
    Ok(line)
}

/// How many children each of these seats started at least.
fn least_starts<'a, R: Clock>(seats: &[Seat<PlannedSeat<'a, R>>]) -> usize {
    let mut least = usize::MAX;
    for seat in seats {
        least = least.min(seat.spawner().starts().len());
    }
    least
}

/// What went wrong at these seats.
fn all_faults<'a, R: Clock>(seats: &[Seat<PlannedSeat<'a, R>>]) -> u64 {
    let mut faults = 0u64;
    for seat in seats {
        faults = faults.saturating_add(seat.spawner().faults());
    }
    faults
}

/// What a tuning that ended so came to.
fn came_to<'a, R: Clock>(
    alloc: Global,
    status: Status,
    printed: &[u8],
    seats: &[Seat<PlannedSeat<'a, R>>],
) -> Result<Tuning, Memory> {
    let printed = Vec::from_slice(alloc, printed)?;
    let all = all_starts(alloc, seats)?;
    Ok(Tuning {
        status,
        printed,
        starts: spaced(alloc, all.as_slice())?,
        least: least_starts(seats),
        faults: all_faults(seats),
    })
}

/// A tuning over these seats.
fn tuned_in<'a, R: Threads + Wait + Sync + Clock>(
    rt: &'a R,
    alloc: Global,
    words: &[Text],
    folder: &mut MemoryFiles,
    seats: &mut [Seat<PlannedSeat<'a, R>>],
) -> Result<Tuning, Memory>
    requires { All (λ seat. IsTrue seat.told.idle) seats.old }
{
    let mut out = MemorySink::new(alloc);
    let mut log = MemorySink::new(alloc);
    let status = tune(rt, alloc, words, folder, &mut out, &mut log, seats);
    came_to(alloc, status, out.bytes(), seats)
}

/// A tuning with these further words over so many seats by this plan, over children with these answers.
pub(crate) fn tuned<R: Threads + Wait + Sync + Clock>(
    rt: &R,
    alloc: Global,
    plan: Plan,
    seats: u32,
    further: &str,
    answers: &str,
) -> Result<Tuning, Memory> {
    let words = format!(in alloc; "-scenariofile|s|-workers|{seats}|{further}")?;
    let words = words_between(alloc, words.as_str())?;
    let instance = format!(in alloc; "one {answers}\n")?;
    let mut folder = folder_with(alloc, instance.as_str())?;
    let mut seats = seats_by(rt, alloc, plan, seats)?;
    tuned_in(
        rt,
        alloc,
        words.as_slice(),
        &mut folder,
        seats.as_mut_slice(),
    )
}

impl Tuning {
    /// Whether it ended with this exit status, printed this and started these children, and nothing failed.
    pub(crate) fn is(&self, code: u8, printed: &str, starts: &str) -> bool {
        self.status.code() == code
            && self.printed.as_slice() == printed.as_bytes()
            && self.starts.as_str() == starts
            && self.faults == 0
    }
}
