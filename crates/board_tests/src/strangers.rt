//! Tickets of other boards.
use crate::checks::check;
use crate::hands::recorded;
use crate::setups::{Setup, open};
use basic_ils::Basic;
use ils_face::Search;
use ils_frame::Ils;
use objective::Memory;
use outside::{Spawner, Table, TableSeat};
use pool_core::{Board, Recorded, Standing, Taken, Ticket};
use std::alloc::Global;

/// The letters of the board that judges.
const OWN: &str = "34uu81";

/// The first ticket of a board.
fn first<P: Search, S: Spawner>(board: &mut Board<P, S>) -> Result<Ticket, Memory> {
    let _ = board.advance()?;
    match board.take()? {
        Taken::Ticket(ticket) => Ok(ticket),
        _ => Err(Memory),
    }
}

/// Whether a ticket is a stranger, and changes nothing.
fn is_strange<P: Search, T: Table>(board: &mut Board<P, TableSeat<T>>, ticket: &Ticket) -> bool {
    let (events, live) = (board.journal().len(), board.live());
    let stands = board.standing(ticket) == Standing::Stranger;
    let ends = recorded(board, ticket) == Recorded::Stranger;
    let kept = !board.lost(ticket) && !board.killed(ticket);
    stands && ends && kept && board.journal().len() == events && board.live() == live
}

/// Whether a ticket is as good as the board's own.
fn is_known<P: Search, T: Table>(board: &mut Board<P, TableSeat<T>>, ticket: &Ticket) -> bool {
    let stands = board.standing(ticket) == Standing::Live;
    stands && recorded(board, ticket) == Recorded::Fresh && is_strange(board, ticket)
}

/// The setup of two values with these letters.
fn setup(letters: &str) -> Setup<'_> {
    Setup {
        lines: "x {a, b} [a]",
        letters,
        runs: 2,
        budget: 1,
    }
}

/// The first ticket of a board with these letters.
fn first_of<P: Search>(alloc: Global, letters: &str) -> Result<Ticket, Memory> {
    first(&mut open::<P>(alloc, &setup(letters), 2)?)
}

/// Whether a board takes the first ticket of another one for a stranger, before and after it gave
/// its own; where it is the same, after it gave its own for that.
fn is_judged<P: Search, T: Table>(
    board: &mut Board<P, TableSeat<T>>,
    ticket: &Ticket,
    same: bool,
) -> Result<bool, Memory> {
    let early = is_strange(board, ticket);
    let _own = first(board)?;
    let late = if same {
        is_known(board, ticket)
    } else {
        is_strange(board, ticket)
    };
    Ok(early && late)
}

/// Whether the board that judges takes a ticket so.
fn judges<P: Search>(alloc: Global, ticket: &Ticket, same: bool) -> Result<bool, Memory> {
    let mut board = open::<P>(alloc, &setup(OWN), 2)?;
    is_judged(&mut board, ticket, same)
}

/// Whether that board judges the first ticket of one with these letters by whether they are its
/// own.
fn is_told_apart<P: Search>(alloc: Global, letters: &str) -> Result<bool, Memory> {
    let other = first_of::<P>(alloc, letters)?;
    judges::<P>(alloc, &other, letters == OWN)
}

#[test]
fn tickets_of_other_boards(rt: HostRuntime) {
    for letters in &[OWN, "34uu82"] {
        let right = is_told_apart::<Ils<Basic>>(rt.alloc(), letters);
        check(&rt, matches!(right, Ok(true)), letters);
    }
}
