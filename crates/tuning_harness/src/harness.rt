//! A tuning in memory, and what it came to.
ghost use Rattle.std.specs.Prelude.{◌≡◌, All, IsTrue, IfOk, true};

use crate::rows::Rows;
use objective::Memory;
use outside::{MemoryFiles, MemorySink, Script, TableSeat};
use plain_text::Text;
use std::alloc::Global;
use std::sync::Wait;
use std::thread::Threads;
use test_support::{numbers, words_between};
use tuner::{Seat, Status, tune};

/// A file: its name and its bytes.
pub type File<'a> = (&'a str, &'a [u8]);

/// The default settings on two pairs, by BasicILS.
pub const SCENARIO: &str =
    "algo = w\nparamfile = p\ninstance_file = i\ncutoff_time = 10\ncap_floor = 0.000001\napproach = basic\nN = 2\nr = 0\ns = 1\np_restart = 0\npair_order = file\n";

/// The usual files.
pub fn usual() -> [File<'static>; 3] {
    [
        ("s", SCENARIO.as_bytes()),
        ("p", b"x {a, b} [a]\n"),
        ("i", b"one\n"),
    ]
}

/// The words of a tuning that ends with the opening evaluation.
pub const WORDS: &str = "-scenariofile|s|-maxComparisons|0";

/// What goes wrong, by numbers from 1; 0 where nothing does.
#[derive(Clone, Copy)]
pub struct Faults {
    /// How many looks at the first two children come before they have ended.
    pub pending: [u32; 2],
    /// The read that fails.
    pub read: u32,
    /// The write that fails.
    pub write: u32,
    /// The write that takes nothing.
    pub empty: u32,
    /// The start that fails.
    pub start: u32,
    /// The look that fails.
    pub look: u32,
}

/// Nothing goes wrong, and the first two children are looked at more than once.
pub const NONE: Faults = Faults {
    pending: [3, 1],
    read: 0,
    write: 0,
    empty: 0,
    start: 0,
    look: 0,
};

/// What a tuning came to.
#[derive(Drop)]
pub struct Tuning {
    /// How it ended.
    pub status: Status,
    /// What it printed.
    pub printed: Vec<u8>,
    /// The words of each start of the first seat, parted by spaces, in a line of its own.
    pub starts: String,
    /// The same of starts with one setting, in short: its value, the seed and the cutoff, as in
    /// `a2@10.000000`, each followed by a space.
    pub cells: String,
    /// The folders that these were started in, each in a line of its own.
    pub folders: String,
    /// How many children the first seat started.
    pub started: usize,
    /// How many starts and looks of the first seat failed.
    pub failed: u64,
    /// How many children the second seat started.
    pub others: usize,
    /// How many reads failed.
    pub unread: u64,
}

/// Puts these files into a folder; each stands in the place of an earlier one of its name.
fn put_all(folder: &mut MemoryFiles, files: &[File<'_>]) -> Result<(), Memory> {
    for (name, bytes) in files {
        folder.put(name, bytes)?;
    }
    Ok(())
}

/// An output with these faults.
fn sink(alloc: Global, faults: &Faults) -> Result<MemorySink, Memory> {
    let mut sink = MemorySink::new(alloc);
    sink.fail_at(faults.write)?;
    sink.nothing_at(faults.empty)?;
    Ok(sink)
}

/// The script of these faults.
fn script(alloc: Global, faults: &Faults) -> Result<Script, Memory> {
    Ok(Script {
        pending: numbers(alloc, &faults.pending)?,
        bad_starts: numbers(alloc, &[faults.start])?,
        bad_polls: numbers(alloc, &[faults.look])?,
        stuck: numbers(alloc, &[])?,
    })
}

/// A seat with these faults.
fn seat(alloc: Global, faults: &Faults) -> Result<Seat<TableSeat<Rows>>, Memory>
    ensures { IfOk result (λ seat. IsTrue seat.told.idle) }
{
    Ok(Seat::new(alloc, TableSeat::new(alloc, script(alloc, faults)?)?))
}

/// Appends the words, parted by spaces, and ends the line.
fn push_words(words: &[Text], line: &mut String) -> Result<(), Memory> {
    let mut is_first = true;
    for word in words {
        if !is_first {
            line.push(' ')?;
        }
        line.push_str(word.as_str())?;
        is_first = false;
    }
    line.push('\n')?;
    Ok(())
}

/// The words of each start of a seat.
fn all_starts(alloc: Global, seat: &TableSeat<Rows>) -> Result<String, Memory> {
    let mut text = String::new(alloc);
    for start in seat.starts() {
        push_words(start.as_slice(), &mut text)?;
    }
    Ok(text)
}

/// Appends the value, the seed and the cutoff of a start with one setting.
fn push_cell(words: &[Text], cells: &mut String) -> Result<(), Memory> {
    if let [_, _, _, cutoff, _, seed, _, value] = words {
        cells.push_str(value.as_str())?;
        cells.push_str(seed.as_str())?;
        cells.push('@')?;
        cells.push_str(cutoff.as_str())?;
        cells.push(' ')?;
    }
    Ok(())
}

/// The value, the seed and the cutoff of each start of a seat.
fn all_cells(alloc: Global, seat: &TableSeat<Rows>) -> Result<String, Memory> {
    let mut cells = String::new(alloc);
    for start in seat.starts() {
        push_cell(start.as_slice(), &mut cells)?;
    }
    Ok(cells)
}

/// The folder of each start of a seat.
fn all_folders(alloc: Global, seat: &TableSeat<Rows>) -> Result<String, Memory> {
    let mut text = String::new(alloc);
    for folder in seat.folders() {
        text.push_str(folder.as_str())?;
        text.push('\n')?;
    }
    Ok(text)
}

/// What a tuning that ended so came to.
fn outcome(
    alloc: Global,
    status: Status,
    printed: &[u8],
    first: &TableSeat<Rows>,
    second: &TableSeat<Rows>,
    unread: u64,
) -> Result<Tuning, Memory> {
    let printed = Vec::from_slice(alloc, printed)?;
    Ok(Tuning {
        status,
        printed,
        starts: all_starts(alloc, first)?,
        cells: all_cells(alloc, first)?,
        folders: all_folders(alloc, first)?,
        started: first.starts().len(),
        failed: first.faults(),
        others: second.starts().len(),
        unread,
    })
}

/// The one call of the tuner.
fn tuned<R: Threads + Wait + Sync>(
    rt: &R,
    alloc: Global,
    words: &[Text],
    files: &mut MemoryFiles,
    out: &mut MemorySink,
    seats: &mut [Seat<TableSeat<Rows>>],
) -> Status
    requires { All (λ seat. IsTrue seat.told.idle) seats.old }
{
    let mut log = MemorySink::new(alloc);
    tune(rt, alloc, words, files, out, &mut log, seats)
}

/// What a tuning by these words over this folder, this output and two seats comes to.
fn ran_over<R: Threads + Wait + Sync>(
    rt: &R,
    alloc: Global,
    words: &[Text],
    folder: &mut MemoryFiles,
    out: &mut MemorySink,
    faults: &Faults,
) -> Result<Tuning, Memory> {
    let mut seats = [seat(alloc, faults)?, seat(alloc, faults)?];
    let status = tuned(rt, alloc, words, folder, out, &mut seats);
    let (first, second) = (seats[0].spawner(), seats[1].spawner());
    outcome(alloc, status, out.bytes(), first, second, folder.faults())
}

/// What a tuning by these words over this folder and two seats comes to.
fn ran_in<R: Threads + Wait + Sync>(
    rt: &R,
    alloc: Global,
    words: &str,
    folder: &mut MemoryFiles,
    faults: &Faults,
) -> Result<Tuning, Memory> {
    folder.fail_at(faults.read)?;
    let words = words_between(alloc, words)?;
    let mut out = sink(alloc, faults)?;
    ran_over(rt, alloc, words.as_slice(), folder, &mut out, faults)
}

/// What a tuning by these words, parted by bars, comes to over two seats and the usual files;
/// these files stand in the place of those of their names.
pub fn ran<R: Threads + Wait + Sync>(
    rt: &R,
    alloc: Global,
    words: &str,
    files: &[File<'_>],
    faults: &Faults,
) -> Result<Tuning, Memory> {
    let mut folder = MemoryFiles::new(alloc);
    put_all(&mut folder, &usual())?;
    put_all(&mut folder, files)?;
    ran_in(rt, alloc, words, &mut folder, faults)
}

/// What a tuning by these words, parted by bars, comes to over two seats and these files alone.
pub fn ran_alone<R: Threads + Wait + Sync>(
    rt: &R,
    alloc: Global,
    words: &str,
    files: &[File<'_>],
) -> Result<Tuning, Memory> {
    let mut folder = MemoryFiles::new(alloc);
    put_all(&mut folder, files)?;
    ran_in(rt, alloc, words, &mut folder, &NONE)
}

/// So many seats with these faults.
fn all_seats(
    alloc: Global,
    count: usize,
    faults: &Faults,
) -> Result<Vec<Seat<TableSeat<Rows>>>, Memory>
    ensures { IfOk result (λ seats. All (λ seat. IsTrue seat.told.idle) seats.items) }
{
    let mut seats = Vec::new(alloc);
    for _ in 0..count {
        seats.push(seat(alloc, faults)?)?;
    }
    Ok(seats)
}

/// How a tuning by these words, parted by bars, over so many seats and the usual files ends, and what
/// it prints; these files stand in the place of those of their names.
pub fn printed_by<R: Threads + Wait + Sync>(
    rt: &R,
    alloc: Global,
    seats: usize,
    words: &str,
    files: &[File<'_>],
    faults: &Faults,
) -> Result<(Status, Vec<u8>), Memory> {
    let mut folder = MemoryFiles::new(alloc);
    put_all(&mut folder, &usual())?;
    put_all(&mut folder, files)?;
    let words = words_between(alloc, words)?;
    let mut out = MemorySink::new(alloc);
    let mut seats = all_seats(alloc, seats, faults)?;
    let seats = seats.as_mut_slice();
    let status = tuned(rt, alloc, words.as_slice(), &mut folder, &mut out, seats);
    Ok((status, Vec::from_slice(alloc, out.bytes())?))
}

/// Whether a tuning by these words, parted by bars, over the usual files and no seat ends so,
/// and prints this.
pub fn is_unseated<R: Threads + Wait + Sync>(
    rt: &R,
    alloc: Global,
    words: &str,
    status: Status,
    printed: &[u8],
) -> Result<bool, Memory> {
    let words = words_between(alloc, words)?;
    let mut folder = MemoryFiles::new(alloc);
    put_all(&mut folder, &usual())?;
    let mut out = MemorySink::new(alloc);
    let mut none: [Seat<TableSeat<Rows>>; 0] = [];
    let ended = tuned(
        rt,
        alloc,
        words.as_slice(),
        &mut folder,
        &mut out,
        &mut none,
    );
    Ok(ended == status && out.bytes() == printed)
}
