//! Boards that one seat drives.
ghost use Rattle.std.specs.Prelude.{◌≡◌, [], false, true, IfOk, IsTrue};

use crate::checks::check;
use crate::grid::Grid;
use crate::setups::{GridBoard, Setup, problem};
use crate::texts::push_ticket;
use basic_ils::Basic;
use ils_face::Search;
use ils_frame::Ils;
use objective::Memory;
use outside::{Script, TableSeat};
use plain_text::{Items, Text};
use pool_core::Board;
use pool_run::{Driven, Seat, drive};
use std::alloc::Global;
use std::sync::Wait;
use wrapper_lines::Program;

/// A board with the number of the start and of the look that fail, 0 for none.
type Course<'a> = (Setup<'a>, u32, u32);

/// The opening board of a setup for one worker.
fn opened<P: Search>(alloc: Global, setup: &Setup<'_>) -> Result<GridBoard<P>, Memory>
    ensures free { IfOk result (λ b. b.live ≡ []) }
    ensures going { IfOk result (λ b. b.stopped ≡ false) }
{
    Board::open(alloc, problem(alloc, setup, 1)?)
}

/// One number, where it isn't 0.
fn number(alloc: Global, number: u32) -> Result<Items<u32>, Memory> {
    let mut numbers = Vec::new(alloc);
    numbers.push(number)?;
    Items::new(numbers)
}

/// A seat whose start and look with these numbers fail.
fn seat(alloc: Global, bad_start: u32, bad_look: u32) -> Result<Seat<TableSeat<Grid>>, Memory>
    ensures { IfOk result (λ s. s.told.idle ≡ true) }
{
    let (bad_starts, bad_polls) = (number(alloc, bad_start)?, number(alloc, bad_look)?);
    let script = Script {
        pending: Items::new(Vec::new(alloc))?,
        bad_starts,
        bad_polls,
        stuck: Items::new(Vec::new(alloc))?,
    };
    Ok(Seat::new(alloc, TableSeat::new(alloc, script)?))
}

/// A program of one word.
fn program(alloc: Global) -> Result<Program, Memory> {
    let mut words = Vec::new(alloc);
    words.push(Text::of(alloc, "w")?)?;
    Ok(Program {
        words: Items::new(words)?,
        dir: Text::of(alloc, "")?,
        cutoff_length: 7,
    })
}

/// How a drive ends.
fn word(driven: Driven) -> &'static str {
    match driven {
        Driven::Ended => "Ended",
        Driven::Fault => "Fault",
        Driven::Memory => "Memory",
    }
}

/// Appends the tickets of a seat, with a bar after each, its starts and faults, and the number of
/// the kept ticket.
fn push_seat(alloc: Global, seat: &Seat<TableSeat<Grid>>, text: &mut String) -> Result<(), Memory> {
    for ticket in seat.tickets() {
        push_ticket(alloc, ticket, text)?;
        text.push('|')?;
    }
    let kept = match seat.fault() {
        Some(ticket) => ticket.number,
        None => 0,
    };
    let (starts, faults) = (seat.spawner().starts().len(), seat.spawner().faults());
    text.push_str(format!(in alloc; "{starts} starts, {faults} faults, kept {kept}")?.as_str())?;
    Ok(())
}

/// Appends what a seat came to that drove a board to its end.
fn push_drive<R: Wait, P: Search>(
    rt: &R,
    alloc: Global,
    board: &mut GridBoard<P>,
    seat: &mut Seat<TableSeat<Grid>>,
    text: &mut String,
) -> Result<(), Memory>
    requires idle { IsTrue seat.old.told.idle }
    requires free { board.old.live ≡ [] }
    requires going { board.old.stopped ≡ false }
{
    let program = program(alloc)?;
    text.push_str(word(drive(rt, board, &program, seat)))?;
    text.push(' ')?;
    push_seat(alloc, seat, text)
}

/// Whether a drive of a board by this seat comes to this.
fn comes_to<R: Wait, P: Search>(
    rt: &R,
    alloc: Global,
    board: &mut GridBoard<P>,
    seat: &mut Seat<TableSeat<Grid>>,
    wanted: &str,
) -> Result<bool, Memory>
    requires idle { IsTrue seat.old.told.idle }
    requires free { board.old.live ≡ [] }
    requires going { board.old.stopped ≡ false }
{
    let mut text = String::new(alloc);
    push_drive(rt, alloc, board, seat, &mut text)?;
    Ok(text.as_str() == wanted)
}

/// The same of a seat that is owned.
fn comes_to_by<R: Wait, P: Search>(
    rt: &R,
    alloc: Global,
    board: &mut GridBoard<P>,
    mut seat: Seat<TableSeat<Grid>>,
    wanted: &str,
) -> Result<bool, Memory>
    requires idle { IsTrue seat.told.idle }
    requires free { board.old.live ≡ [] }
    requires going { board.old.stopped ≡ false }
{
    comes_to(rt, alloc, board, &mut seat, wanted)
}

/// Whether a drive of a board by a seat whose start and look with these numbers fail comes to this.
fn goes_so<R: Wait, P: Search>(
    rt: &R,
    alloc: Global,
    board: &mut GridBoard<P>,
    bad: (u32, u32),
    wanted: &str,
) -> Result<bool, Memory>
    requires free { board.old.live ≡ [] }
    requires going { board.old.stopped ≡ false }
{
    let seat = seat(alloc, bad.0, bad.1)?;
    comes_to_by(rt, alloc, board, seat, wanted)
}

/// The same of a board that is owned.
fn goes_so_on<R: Wait, P: Search>(
    rt: &R,
    alloc: Global,
    mut board: GridBoard<P>,
    bad: (u32, u32),
    wanted: &str,
) -> Result<bool, Memory>
    requires free { board.live ≡ [] }
    requires going { board.stopped ≡ false }
{
    goes_so(rt, alloc, &mut board, bad, wanted)
}

/// Whether a drive of this course comes to this.
fn is_so<R: Wait, P: Search>(
    rt: &R,
    alloc: Global,
    course: Course<'_>,
    wanted: &str,
) -> Result<bool, Memory> {
    let (setup, bad_start, bad_look) = course;
    let board = opened::<P>(alloc, &setup)?;
    goes_so_on(rt, alloc, board, (bad_start, bad_look), wanted)
}

/// The setup of two values with these letters, for so many comparisons.
fn setup(letters: &str, budget: u32) -> Setup<'_> {
    Setup {
        lines: "x {a, b} [a]",
        letters,
        runs: 2,
        budget,
    }
}

#[test]
fn drives_of_one_seat(rt: HostRuntime) {
    for (name, letters, budget, bad_start, bad_look, wanted) in &[
        (
            "the default alone",
            "34",
            0,
            0,
            0,
            "Ended Asked 1 a1@10.000000 0|Asked 2 a2@10.000000 0|2 starts, 0 faults, kept 0",
        ),
        (
            "four runs",
            "34uu24",
            2,
            0,
            0,
            "Ended Asked 1 a1@10.000000 0|Asked 2 a2@10.000000 0|Asked 3 b1@7.000000 2|Asked 4 b2@5.000000 2|4 starts, 0 faults, kept 0",
        ),
        (
            "the first start fails",
            "34uu24",
            2,
            1,
            0,
            "Fault Asked 1 a1@10.000000 0|0 starts, 1 faults, kept 1",
        ),
        (
            "the second start fails",
            "34uu24",
            2,
            2,
            0,
            "Fault Asked 1 a1@10.000000 0|Asked 2 a2@10.000000 0|1 starts, 1 faults, kept 2",
        ),
        (
            "the third start fails",
            "34uu24",
            2,
            3,
            0,
            "Fault Asked 1 a1@10.000000 0|Asked 2 a2@10.000000 0|Asked 3 b1@7.000000 2|2 starts, 1 faults, kept 3",
        ),
        (
            "the fourth start fails",
            "34uu24",
            2,
            4,
            0,
            "Fault Asked 1 a1@10.000000 0|Asked 2 a2@10.000000 0|Asked 3 b1@7.000000 2|Asked 4 b2@5.000000 2|3 starts, 1 faults, kept 4",
        ),
        (
            "the first look fails",
            "34uu24",
            2,
            0,
            1,
            "Fault Asked 1 a1@10.000000 0|1 starts, 1 faults, kept 1",
        ),
        (
            "the second look fails",
            "34uu24",
            2,
            0,
            2,
            "Fault Asked 1 a1@10.000000 0|Asked 2 a2@10.000000 0|2 starts, 1 faults, kept 2",
        ),
        (
            "the third look fails",
            "34uu24",
            2,
            0,
            3,
            "Fault Asked 1 a1@10.000000 0|Asked 2 a2@10.000000 0|Asked 3 b1@7.000000 2|3 starts, 1 faults, kept 3",
        ),
        (
            "the fourth look fails",
            "34uu24",
            2,
            0,
            4,
            "Fault Asked 1 a1@10.000000 0|Asked 2 a2@10.000000 0|Asked 3 b1@7.000000 2|Asked 4 b2@5.000000 2|4 starts, 1 faults, kept 4",
        ),
    ] {
        let course = (setup(letters, *budget), *bad_start, *bad_look);
        let right = is_so::<HostRuntime, Ils<Basic>>(&rt, rt.alloc(), course, wanted);
        check(&rt, matches!(right, Ok(true)), name);
    }
}
