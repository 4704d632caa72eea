//! Boards whose steps come in any order.
ghost use Rattle.std.specs.Prelude.{◌<◌};

use crate::checks::check;
use crate::hands::recorded;
use crate::setups::{Setup, open, open_copy, problem};
use crate::texts::entries_text;
use basic_ils::Basic;
use focused_ils::Focused;
use ils_face::Search;
use ils_frame::Ils;
use objective::Memory;
use outside::{Spawner, Table, TableSeat};
use pool_core::{Advanced, Board, Ending, Event, Kind, Problem, Recorded, Taken, Ticket};
use std::alloc::Global;

/// The most turns of a board.
const TURNS: u32 = 100_000;

/// The lists of choices for each row and number of workers.
const LISTS: u64 = 100;

/// Choices, by a linear congruential generator.
#[derive(Drop)]
struct Choices {
    state: u64,
}

impl Choices {
    /// The list of choices with a number.
    fn new(number: u64) -> Choices {
        Choices { state: number }
    }

    /// The next choice of so many.
    fn of(&mut self, count: usize) -> usize
        requires { 0 < count }
        ensures { result < count }
    {
        self.state = self
            .state
            .wrapping_mul(6_364_136_223_846_793_005)
            .wrapping_add(1_442_695_040_888_963_407);
        (self.state >> 33) as usize % count
    }
}

/// Takes a ticket for a free seat, where there is one.
fn take<P: Search, S: Spawner>(
    board: &mut Board<P, S>,
    held: &mut Vec<Ticket>,
    seats: usize,
) -> Result<(), Memory> {
    if held.len() < seats {
        if let Taken::Ticket(ticket) = board.take()? {
            held.push(ticket)?;
        }
    }
    Ok(())
}

/// The ticket of a seat that was running.
fn freed(held: &mut Vec<Ticket>, choices: &mut Choices) -> Option<Ticket> {
    if held.is_empty() {
        return None;
    }
    let i = choices.of(held.len());
    Some(held.remove(i))
}

/// Ends a run by its answer, or as one that was killed where it is marked.
fn finish<P: Search, T: Table>(board: &mut Board<P, TableSeat<T>>, ticket: &Ticket) {
    if recorded(board, ticket) == Recorded::Marked {
        let _ = board.killed(ticket);
    }
}

/// Ends the run of a seat.
fn finish_one<P: Search, T: Table>(
    board: &mut Board<P, TableSeat<T>>,
    held: &mut Vec<Ticket>,
    choices: &mut Choices,
) {
    if let Some(ticket) = freed(held, choices) {
        finish(board, &ticket);
    }
}

/// Loses the run of a seat.
fn lose_one<P: Search, S: Spawner>(
    board: &mut Board<P, S>,
    held: &mut Vec<Ticket>,
    choices: &mut Choices,
) {
    if let Some(ticket) = freed(held, choices) {
        let _ = board.lost(&ticket);
    }
}

/// Stops the board, or lets it go on where no seat runs.
fn halt<P: Search, S: Spawner>(
    board: &mut Board<P, S>,
    held: &[Ticket],
    choice: usize,
) -> Result<(), Memory> {
    if held.is_empty() {
        board.resume()?;
    } else if choice == 0 {
        board.stop();
    }
    Ok(())
}

/// Makes the step of a choice from 1 to 9.
fn step<P: Search, T: Table>(
    board: &mut Board<P, TableSeat<T>>,
    held: &mut Vec<Ticket>,
    seats: usize,
    choices: &mut Choices,
) -> Result<(), Memory> {
    match choices.of(12) {
        0..=4 => take(board, held, seats)?,
        5..=8 => finish_one(board, held, choices),
        9 => lose_one(board, held, choices),
        10 => {
            let _ = board.mark();
        }
        _ => halt(board, held, choices.of(4))?,
    }
    Ok(())
}

/// Whether an advance comes to the end of the search.
fn ends<P: Search, S: Spawner>(board: &mut Board<P, S>) -> Result<bool, Memory> {
    Ok(matches!(board.advance()?, Advanced::Ended | Advanced::Aborted))
}

/// Plays a board to the end of its search, by choices. The tickets that are live then are held.
fn play<P: Search, T: Table>(
    board: &mut Board<P, TableSeat<T>>,
    held: &mut Vec<Ticket>,
    seats: usize,
    choices: &mut Choices,
) -> Result<(), Memory> {
    for _ in 0..TURNS {
        if choices.of(4) > 0 {
            step(board, held, seats, choices)?;
        } else if ends(board)? {
            return Ok(());
        }
    }
    Ok(())
}

/// Plays a board by one seat.
fn play_alone<P: Search, T: Table>(board: &mut Board<P, TableSeat<T>>) -> Result<(), Memory> {
    for _ in 0..TURNS {
        if ends(board)? {
            return Ok(());
        }
        if let Taken::Ticket(ticket) = board.take()? {
            finish(board, &ticket);
        }
    }
    Ok(())
}

/// Gives up all that runs at the end of the search; whether nothing is live then, and nothing
/// was contradicted.
fn is_cleared<P: Search, S: Spawner>(board: &mut Board<P, S>, held: &[Ticket]) -> bool {
    let _ = board.mark();
    for ticket in held {
        let _ = board.killed(ticket);
    }
    board.live() == 0 && board.cache().conflicts() == 0
}

/// How a search is to end.
#[derive(Clone, Copy, PartialEq, Eq)]
enum End {
    /// With all its incumbents.
    Finished,
    /// At a run that aborts, with all these incumbents.
    Aborted,
    /// With all these incumbents, or at a run that aborts with the first ones.
    Either,
}

/// Whether a search has ended so, with these incumbents.
fn is_ended<P: Search, S: Spawner>(
    alloc: Global,
    board: &Board<P, S>,
    end: End,
    wanted: &str,
) -> Result<bool, Memory> {
    let entries = entries_text(alloc, board.search().entries())?;
    let (all, some) = (
        entries.as_str() == wanted,
        wanted.starts_with(entries.as_str()),
    );
    Ok(match board.ending() {
        Ending::Running => false,
        Ending::Finished => end != End::Aborted && all,
        Ending::Aborted(_) => (end == End::Aborted && all) || (end == End::Either && some),
    })
}

/// The bit of an event's kind.
fn bit_of(event: &Event) -> u16 {
    match event {
        Event::Advance => 1,
        Event::Take {
            kind: Kind::Asked,
            ..
        } => 2,
        Event::Take { .. } => 4,
        Event::Record { .. } => 8,
        Event::Lost { .. } => 16,
        Event::Mark { .. } => 32,
        Event::Killed { .. } => 64,
        Event::Stop => 128,
        Event::Resume => 256,
    }
}

/// The bits of the events that came.
fn bits_of(journal: &[Event]) -> u16 {
    let mut bits = 0;
    for event in journal {
        bits |= bit_of(event);
    }
    bits
}

/// Whether a board that is played by choices ends so.
fn is_played<P: Search, T: Table>(
    alloc: Global,
    board: &mut Board<P, TableSeat<T>>,
    seats: usize,
    number: u64,
    wanted: (End, &str),
) -> Result<bool, Memory> {
    let mut held = Vec::new(alloc);
    play(board, &mut held, seats, &mut Choices::new(number))?;
    let (end, entries) = wanted;
    let ended = is_ended(alloc, board, end, entries)?;
    Ok(ended && is_cleared(board, held.as_slice()))
}

/// Whether a board that is played by choices ends so. Adds the bits of its events.
fn is_counted<P: Search, T: Table>(
    alloc: Global,
    board: &mut Board<P, TableSeat<T>>,
    number: u64,
    wanted: (End, &str),
    bits: &mut u16,
) -> Result<bool, Memory> {
    let seats = board.problem().rules.workers as usize;
    let right = is_played(alloc, board, seats, number, wanted)?;
    *bits |= bits_of(board.journal());
    Ok(right)
}

/// Whether a problem's board ends so by a list of choices. Adds the bits of its events.
fn is_right<P: Search>(
    alloc: Global,
    problem: &Problem,
    number: u64,
    wanted: (End, &str),
    bits: &mut u16,
) -> Result<bool, Memory> {
    let mut board = open_copy::<P>(alloc, problem)?;
    is_counted(alloc, &mut board, number, wanted, bits)
}

/// Whether a problem's board ends so by each list of choices.
fn are_right<P: Search>(
    alloc: Global,
    problem: &Problem,
    wanted: (End, &str),
    bits: &mut u16,
) -> Result<bool, Memory> {
    for number in 0..LISTS {
        if !is_right::<P>(alloc, problem, number, wanted, bits)? {
            return Ok(false);
        }
    }
    Ok(true)
}

/// Whether a setup ends so with so many workers. Adds the bits of its events.
fn ends_with<P: Search>(
    alloc: Global,
    setup: &Setup<'_>,
    workers: u32,
    wanted: (End, &str),
    bits: &mut u16,
) -> Result<bool, Memory> {
    let problem = problem(alloc, setup, workers)?;
    are_right::<P>(alloc, &problem, wanted, bits)
}

/// Whether a setup ends so with two and with three workers. Adds the bits of its events.
fn ends_so<P: Search>(
    alloc: Global,
    setup: &Setup<'_>,
    wanted: (End, &str),
    bits: &mut u16,
) -> Result<bool, Memory> {
    Ok(
        ends_with::<P>(alloc, setup, 2, wanted, bits)?
            && ends_with::<P>(alloc, setup, 3, wanted, bits)?,
    )
}

/// The incumbents of a board that is played by one seat.
fn entries_alone<P: Search, T: Table>(
    alloc: Global,
    board: &mut Board<P, TableSeat<T>>,
) -> Result<String, Memory> {
    play_alone(board)?;
    entries_text(alloc, board.search().entries())
}

/// The incumbents that one seat finds.
fn found_alone<P: Search>(alloc: Global, setup: &Setup<'_>) -> Result<String, Memory> {
    let mut board = open::<P>(alloc, setup, 1)?;
    entries_alone(alloc, &mut board)
}

/// Whether a setup of two values ends so in any order.
fn is_row<P: Search>(
    alloc: Global,
    letters: &str,
    budget: u32,
    wanted: (End, &str),
    bits: &mut u16,
) -> Result<bool, Memory> {
    let setup = Setup {
        lines: "x {a, b} [a]",
        letters,
        runs: 2,
        budget,
    };
    ends_so::<P>(alloc, &setup, wanted, bits)
}

/// Whether a setup of four values ends in any order as one seat's, where aborts are unsolved.
fn is_as_alone<P: Search>(
    alloc: Global,
    letters: &str,
    quiet: &str,
    runs: u32,
    bits: &mut u16,
) -> Result<bool, Memory> {
    let setup = Setup {
        lines: "x {a, b, c, d} [a]",
        letters,
        runs,
        budget: 9,
    };
    let entries = found_alone::<P>(
        alloc,
        &Setup {
            letters: quiet,
            ..setup
        },
    )?;
    let end = if letters == quiet {
        End::Finished
    } else {
        End::Either
    };
    ends_so::<P>(alloc, &setup, (end, entries.as_str()), bits)
}

#[test]
fn rows_in_any_order(rt: HostRuntime) {
    let mut bits = 0;
    for (letters, budget, end, entries) in &[
        ("34uu", 0, End::Finished, "0 2 7.000000 a|"),
        ("34uu29", 1, End::Finished, "0 2 7.000000 a|"),
        ("34uu29", 2, End::Finished, "0 2 7.000000 a|"),
        ("34uu25", 2, End::Finished, "0 2 7.000000 a|"),
        ("34uu81", 1, End::Finished, "0 2 7.000000 a|"),
        ("00uu00", 1, End::Finished, "0 2 0.000000 a|"),
        ("u1uu9u", 1, End::Finished, "0 2 101.000000 a|"),
        ("34uul1", 1, End::Finished, "0 2 7.000000 a|"),
        ("54uul1", 1, End::Aborted, "0 2 9.000000 a|"),
        ("34uu8x", 1, End::Finished, "0 2 7.000000 a|"),
        ("34uu24", 2, End::Finished, "0 2 7.000000 a|1 2 6.000000 b|"),
    ] {
        let right = is_row::<Ils<Basic>>(rt.alloc(), letters, *budget, (*end, entries), &mut bits);
        check(&rt, matches!(right, Ok(true)), letters);
    }
    assert!(rt; bits == 511, "{bits}");
}

#[test]
fn tables_in_any_order(rt: HostRuntime) {
    let mut bits = 0;
    for (letters, quiet, runs) in &[
        ("5432425133339111", "5432425133339111", 4),
        ("9999888877776666", "9999888877776666", 4),
        ("1234432122225050", "1234432122225050", 4),
        ("8u5c7u3c2u9u1ccc", "8u5c7u3c2u9u1ccc", 3),
        ("uuuuuuu9uu99u999", "uuuuuuu9uu99u999", 4),
        ("544x425133x39111", "544u425133u39111", 4),
        ("99l9888l77l76l66", "99u9888u77u76u66", 4),
        ("983l76ul54xu321c", "983u76uu54uu321c", 2),
    ] {
        let right = is_as_alone::<Ils<Basic>>(rt.alloc(), letters, quiet, *runs, &mut bits);
        check(&rt, matches!(right, Ok(true)), letters);
    }
    assert!(rt; bits == 511, "{bits}");
}

/// Two values, and four.
const TWO: &str = "x {a, b} [a]";

const FOUR: &str = "x {a, b, c, d} [a]";

#[test]
fn counted_runs_in_any_order(rt: HostRuntime) {
    // The incumbents were worked out apart from the boards: by the definitions of the draws, of
    // the search and of FocusedILS, one evaluation after another, over costs that are all known.
    // So b wins the first row's comparison 1 by its first run, of 2 seconds against 3.
    let mut bits = 0;
    for (letters, lines, runs, budget, end, entries) in &[
        (
            "33332222",
            TWO,
            4,
            1,
            End::Finished,
            "0 0 0.000000 a|1 1 2.000000 b|",
        ),
        ("11112222", TWO, 4, 3, End::Finished, "0 0 0.000000 a|"),
        (
            "3uuu2999",
            TWO,
            4,
            3,
            End::Finished,
            "0 0 0.000000 a|1 1 2.000000 b|",
        ),
        ("00000000", TWO, 4, 3, End::Finished, "0 0 0.000000 a|"),
        ("7777l222", TWO, 4, 1, End::Finished, "0 0 0.000000 a|"),
        ("9999l222", TWO, 4, 1, End::Aborted, "0 0 0.000000 a|"),
        ("x3332222", TWO, 4, 1, End::Aborted, "0 0 0.000000 a|"),
        (
            "3161412233332422",
            FOUR,
            4,
            12,
            End::Finished,
            "0 0 0.000000 a|1 3 9.000000 c|2 4 11.000000 a|6 4 10.000000 d|7 4 9.000000 b|",
        ),
        (
            "9999888877776666",
            FOUR,
            4,
            9,
            End::Finished,
            "0 0 0.000000 a|1 1 7.000000 c|4 3 18.000000 d|",
        ),
        (
            "8u5c7u3c2u9u1ccc",
            FOUR,
            3,
            9,
            End::Finished,
            "0 0 0.000000 a|1 1 2.000000 c|8 3 110.000000 b|",
        ),
        (
            "uuuuuuu9uu99u999",
            FOUR,
            4,
            9,
            End::Finished,
            "0 0 0.000000 a|1 3 209.000000 c|6 4 127.000000 d|",
        ),
        (
            "5432425133339111",
            FOUR,
            4,
            9,
            End::Finished,
            "0 0 0.000000 a|1 1 3.000000 c|",
        ),
    ] {
        let setup = Setup {
            lines,
            letters,
            runs: *runs,
            budget: *budget,
        };
        let right = ends_so::<Ils<Focused>>(rt.alloc(), &setup, (*end, entries), &mut bits);
        check(&rt, matches!(right, Ok(true)), letters);
    }
    assert!(rt; bits == 511, "{bits}");
}
