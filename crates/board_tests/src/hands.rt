//! Boards by hand, step by step.
use crate::checks::check;
use crate::setups::{Setup, open};
use crate::texts::{push_entries, push_journal, push_ticket, push_wishes};
use basic_ils::Basic;
use focused_ils::Focused;
use ils_face::Search;
use ils_frame::Ils;
use objective::{Memory, seen};
use outside::{Spawner, Table, TableSeat};
use plain_text::first_word;
use pool_core::{Advanced, Board, Ending, Recorded, Standing, Taken, Ticket};
use predictor::wishes;
use run_cache::Known;
use std::alloc::Global;

/// Records what the table says of a ticket's run.
pub(crate) fn recorded<P: Search, T: Table>(
    board: &mut Board<P, TableSeat<T>>,
    ticket: &Ticket,
) -> Recorded {
    let answer = seen(T::outcome(&ticket.run.key), ticket.run.cutoff);
    board.record(ticket, answer)
}

/// Takes a ticket, and keeps it where one is given; tells what is answered.
fn take<P: Search, S: Spawner>(
    alloc: Global,
    board: &mut Board<P, S>,
    tickets: &mut Vec<Ticket>,
    text: &mut String,
) -> Result<(), Memory> {
    let word = match board.take()? {
        Taken::Ticket(ticket) => {
            push_ticket(alloc, &ticket, text)?;
            tickets.push(ticket)?;
            ""
        }
        Taken::Idle => "Idle",
        Taken::Decided => "Decided",
        Taken::Ended => "Ended",
        Taken::Stopped => "Stopped",
    };
    text.push_str(word)?;
    Ok(())
}

/// Tells the runs that may be needed soon, at most k.
fn wish<P: Search, S: Spawner>(
    alloc: Global,
    board: &Board<P, S>,
    k: u32,
    text: &mut String,
) -> Result<(), Memory> {
    let wishes = wishes(alloc, board.search(), board.cache(), k)?;
    push_wishes(alloc, wishes.as_slice(), text)
}

/// What an advance comes to.
fn advance<P: Search, S: Spawner>(board: &mut Board<P, S>) -> Result<&'static str, Memory> {
    Ok(match board.advance()? {
        Advanced::Moved => "Moved",
        Advanced::Waits => "Waits",
        Advanced::Ended => "Ended",
        Advanced::Aborted => "Aborted",
        Advanced::Stopped => "Stopped",
    })
}

/// What a resume comes to.
fn resume<P: Search, S: Spawner>(board: &mut Board<P, S>) -> Result<&'static str, Memory> {
    board.resume()?;
    Ok("Ok")
}

/// Whether the board is at its end.
fn ending<P: Search, S: Spawner>(board: &Board<P, S>) -> &'static str {
    match board.ending() {
        Ending::Running => "Running",
        Ending::Finished => "Finished",
        Ending::Aborted(_) => "Aborted",
    }
}

/// A small number.
fn digit(number: usize) -> &'static str {
    match number {
        0 => "0",
        1 => "1",
        2 => "2",
        _ => "many",
    }
}

/// Whether it is so.
fn truth(right: bool) -> &'static str {
    if right { "true" } else { "false" }
}

/// What a record comes to.
fn record<P: Search, T: Table>(
    board: &mut Board<P, TableSeat<T>>,
    ticket: &Ticket,
) -> &'static str {
    match recorded(board, ticket) {
        Recorded::Fresh => "Fresh",
        Recorded::Same => "Same",
        Recorded::Conflict => "Conflict",
        Recorded::Marked => "Marked",
        Recorded::Stranger => "Stranger",
    }
}

/// What the board says of a ticket.
fn standing<P: Search, S: Spawner>(board: &Board<P, S>, ticket: &Ticket) -> &'static str {
    match board.standing(ticket) {
        Standing::Live => "Live",
        Standing::Marked => "Marked",
        Standing::Stranger => "Stranger",
    }
}

/// Whether nothing is known of a ticket's cell.
fn known<P: Search, S: Spawner>(board: &Board<P, S>, ticket: &Ticket) -> &'static str {
    match board.cache().known(&ticket.cell) {
        Known::Nothing => "Nothing",
        _ => "Something",
    }
}

/// Makes a step that is of one ticket, and tells what is answered.
fn step_of<P: Search, T: Table>(
    board: &mut Board<P, TableSeat<T>>,
    ticket: &Ticket,
    step: &str,
) -> &'static str {
    match step {
        "record" => record(board, ticket),
        "lost" => truth(board.lost(ticket)),
        "killed" => truth(board.killed(ticket)),
        "standing" => standing(board, ticket),
        _ => known(board, ticket),
    }
}

/// Stops the board.
fn stop<P: Search, S: Spawner>(board: &mut Board<P, S>) -> &'static str {
    board.stop();
    "-"
}

/// Makes a step of all, and tells what is answered.
fn step<P: Search, S: Spawner>(
    board: &mut Board<P, S>,
    step: &str,
) -> Result<&'static str, Memory> {
    match step {
        "advance" => advance(board),
        "mark" => Ok(digit(board.mark())),
        "stop" => Ok(stop(board)),
        "resume" => resume(board),
        "ending" => Ok(ending(board)),
        _ => Ok(digit(board.live())),
    }
}

/// The words of a step without the number at its end, and the number; 0 where there is none.
fn parted(step: &str) -> (&str, u32) {
    match step.split_once('-') {
        Some((word, number)) => (word, number.parse().unwrap_or(0)),
        None => (step, 0),
    }
}

/// Makes a step, and tells what is answered.
fn answer<P: Search, T: Table>(
    alloc: Global,
    board: &mut Board<P, TableSeat<T>>,
    tickets: &mut Vec<Ticket>,
    name: &str,
    text: &mut String,
) -> Result<(), Memory> {
    let (word, number) = parted(name);
    if word == "take" {
        return take(alloc, board, tickets, text);
    }
    if word == "wishes" {
        return wish(alloc, board, number, text);
    }
    let said = match tickets.get((number as usize).wrapping_sub(1)) {
        Some(ticket) => step_of(board, ticket, word),
        None => step(board, word)?,
    };
    text.push_str(said)?;
    Ok(())
}

/// Makes the step that a line begins with, and tells it with what is answered.
fn say<P: Search, T: Table>(
    alloc: Global,
    board: &mut Board<P, TableSeat<T>>,
    tickets: &mut Vec<Ticket>,
    line: &str,
    text: &mut String,
) -> Result<(), Memory> {
    let name = first_word(line);
    text.push_str(name)?;
    text.push(' ')?;
    answer(alloc, board, tickets, name, text)?;
    text.push('|')?;
    Ok(())
}

/// Makes the steps that the lines begin with, one after another.
fn say_all<P: Search, T: Table>(
    alloc: Global,
    board: &mut Board<P, TableSeat<T>>,
    tickets: &mut Vec<Ticket>,
    lines: &str,
    text: &mut String,
) -> Result<(), Memory> {
    for line in lines.split('|') {
        if !line.is_empty() {
            say(alloc, board, tickets, line, text)?;
        }
    }
    Ok(())
}

/// What is said where these steps are made: each step and what is answered, with a bar after it.
fn said<P: Search, T: Table>(
    alloc: Global,
    board: &mut Board<P, TableSeat<T>>,
    lines: &str,
) -> Result<String, Memory> {
    let mut tickets = Vec::new(alloc);
    let mut text = String::new(alloc);
    say_all(alloc, board, &mut tickets, lines, &mut text)?;
    Ok(text)
}

/// The incumbents of a board, and its journal.
fn kept<P: Search, S: Spawner>(alloc: Global, board: &Board<P, S>) -> Result<String, Memory> {
    let mut text = String::new(alloc);
    push_entries(alloc, board.search().entries(), &mut text)?;
    push_journal(alloc, board.journal(), &mut text)?;
    Ok(text)
}

/// Whether a board answers these steps so.
fn says<P: Search, T: Table>(
    alloc: Global,
    board: &mut Board<P, TableSeat<T>>,
    lines: &str,
) -> Result<bool, Memory> {
    let said = said(alloc, board, lines)?;
    Ok(said.as_str() == lines)
}

/// Whether a board keeps this.
fn keeps<P: Search, S: Spawner>(
    alloc: Global,
    board: &Board<P, S>,
    wanted: &str,
) -> Result<bool, Memory> {
    let kept = kept(alloc, board)?;
    Ok(kept.as_str() == wanted)
}

/// Whether a board answers these steps so, and keeps this.
fn goes_so<P: Search, T: Table>(
    alloc: Global,
    board: &mut Board<P, TableSeat<T>>,
    lines: &str,
    wanted: &str,
) -> Result<bool, Memory> {
    Ok(says(alloc, board, lines)? && keeps(alloc, board, wanted)?)
}

/// A board by hand: its letters, the comparisons, the steps with their answers, and what it
/// keeps.
type Hand<'a> = (&'a str, u32, &'a str, &'a str);

/// Whether a board goes as it does by hand.
fn is_so<P: Search>(alloc: Global, hand: Hand<'_>) -> Result<bool, Memory> {
    let (letters, budget, lines, keeps) = hand;
    let setup = Setup {
        lines: "x {a, b} [a]",
        letters,
        runs: 2,
        budget,
    };
    let mut board = open::<P>(alloc, &setup, 2)?;
    goes_so(alloc, &mut board, lines, keeps)
}

#[test]
fn boards_by_hand(rt: HostRuntime) {
    for (name, letters, budget, lines, keeps) in &[
        (
            "a run ahead that aborts where the walk never comes",
            "34uu8x",
            1,
            "advance Waits|wishes-5 a2@10.000000,|wishes-0 |take Asked 1 a1@10.000000 0|\
             take Ahead 2 a2@10.000000 0|take Idle|live 2|record-1 Fresh|record-2 Fresh|\
             take Decided|advance Moved|advance Moved|advance Waits|wishes-5 b2@7.000000,|\
             take Asked 3 b1@7.000000 2|take Ahead 4 b2@7.000000 2|record-4 Fresh|record-3 Fresh|\
             advance Moved|advance Ended|take Ended|ending Finished|live 0|",
            "0 2 7.000000 a|Advance|Asked 1 a1@10.000000 0|Ahead 2 a2@10.000000 0|\
             Record 1 Solved(Micros(3000000))|Record 2 Solved(Micros(4000000))|Advance|Advance|\
             Asked 3 b1@7.000000 2|Ahead 4 b2@7.000000 2|Record 4 Abort|Record 3 Timeout|Advance|",
        ),
        (
            "a run ahead that is lost",
            "34uu8x",
            1,
            "advance Waits|wishes-5 a2@10.000000,|wishes-0 |take Asked 1 a1@10.000000 0|\
             take Ahead 2 a2@10.000000 0|take Idle|live 2|record-1 Fresh|record-2 Fresh|\
             take Decided|advance Moved|advance Moved|advance Waits|take Asked 3 b1@7.000000 2|\
             take Ahead 4 b2@7.000000 2|lost-4 true|take Idle|record-3 Fresh|advance Moved|\
             advance Ended|take Ended|ending Finished|lost-4 false|",
            "0 2 7.000000 a|Advance|Asked 1 a1@10.000000 0|Ahead 2 a2@10.000000 0|\
             Record 1 Solved(Micros(3000000))|Record 2 Solved(Micros(4000000))|Advance|Advance|\
             Asked 3 b1@7.000000 2|Ahead 4 b2@7.000000 2|Lost 4|Record 3 Timeout|Advance|",
        ),
        (
            "a needed cutoff below a live run ahead's",
            "34uu24",
            2,
            "advance Waits|wishes-5 a2@10.000000,|wishes-0 |take Asked 1 a1@10.000000 0|\
             take Ahead 2 a2@10.000000 0|take Idle|live 2|record-1 Fresh|record-2 Fresh|\
             take Decided|advance Moved|advance Moved|advance Waits|wishes-1 b2@10.000000,|\
             wishes-7 b2@10.000000,|take Asked 3 b1@7.000000 2|take Ahead 4 b2@10.000000 2|\
             record-3 Fresh|advance Waits|standing-4 Live|mark 1|standing-4 Marked|take Idle|\
             record-4 Marked|known-4 Nothing|killed-4 true|standing-4 Stranger|\
             take Asked 5 b2@5.000000 2|record-5 Fresh|advance Moved|advance Moved|advance Moved|\
             advance Ended|ending Finished|",
            "0 2 7.000000 a|1 2 6.000000 b|Advance|Asked 1 a1@10.000000 0|Ahead 2 a2@10.000000 0|\
             Record 1 Solved(Micros(3000000))|Record 2 Solved(Micros(4000000))|Advance|Advance|\
             Asked 3 b1@7.000000 2|Ahead 4 b2@10.000000 2|Record 3 Solved(Micros(2000000))|\
             Advance|Mark 4|Killed 4|Asked 5 b2@5.000000 2|Record 5 Solved(Micros(4000000))|\
             Advance|Advance|Advance|",
        ),
        (
            "stop and resume",
            "34uu8x",
            1,
            "advance Waits|wishes-5 a2@10.000000,|wishes-0 |take Asked 1 a1@10.000000 0|\
             take Ahead 2 a2@10.000000 0|take Idle|live 2|record-1 Fresh|record-2 Fresh|\
             take Decided|advance Moved|advance Moved|advance Waits|take Asked 3 b1@7.000000 2|\
             stop -|take Stopped|advance Stopped|standing-3 Marked|killed-3 true|resume Ok|\
             take Asked 4 b1@7.000000 2|",
            "0 2 7.000000 a|Advance|Asked 1 a1@10.000000 0|Ahead 2 a2@10.000000 0|\
             Record 1 Solved(Micros(3000000))|Record 2 Solved(Micros(4000000))|Advance|Advance|\
             Asked 3 b1@7.000000 2|Stop|Killed 3|Resume|Asked 4 b1@7.000000 2|",
        ),
        (
            "tickets that end while the board is stopped, and events of ended tickets",
            "34uu8x",
            1,
            "advance Waits|take Asked 1 a1@10.000000 0|take Ahead 2 a2@10.000000 0|stop -|stop -|\
             live 2|standing-1 Marked|standing-2 Marked|record-1 Marked|lost-1 true|killed-2 true|\
             live 0|take Stopped|resume Ok|record-1 Stranger|lost-1 false|killed-2 false|\
             standing-2 Stranger|take Asked 3 a1@10.000000 0|take Ahead 4 a2@10.000000 0|\
             record-3 Fresh|record-3 Stranger|lost-3 false|killed-3 false|killed-4 false|live 1|",
            "Advance|Asked 1 a1@10.000000 0|Ahead 2 a2@10.000000 0|Stop|Lost 1|Killed 2|Resume|\
             Asked 3 a1@10.000000 0|Ahead 4 a2@10.000000 0|Record 3 Solved(Micros(3000000))|",
        ),
        (
            "a run ahead that is lost while the board is stopped, and a ticket held at its resume",
            "34uu8x",
            1,
            "advance Waits|take Asked 1 a1@10.000000 0|take Ahead 2 a2@10.000000 0|stop -|\
             lost-2 true|live 1|resume Ok|live 0|standing-1 Stranger|record-1 Stranger|\
             lost-1 false|killed-1 false|known-1 Nothing|take Asked 3 a1@10.000000 0|take Idle|\
             record-3 Fresh|advance Waits|take Asked 4 a2@10.000000 0|",
            "Advance|Asked 1 a1@10.000000 0|Ahead 2 a2@10.000000 0|Stop|Lost 2|Resume|\
             Asked 3 a1@10.000000 0|Record 3 Solved(Micros(3000000))|Advance|\
             Asked 4 a2@10.000000 0|",
        ),
    ] {
        let right = is_so::<Ils<Basic>>(rt.alloc(), (letters, *budget, lines, keeps));
        check(&rt, matches!(right, Ok(true)), name);
    }
}

#[test]
fn boards_of_counted_runs_by_hand(rt: HostRuntime) {
    // The second run of a is wished for as if b lost. But b wins, and its own second run is
    // needed, beside which nothing is wished for.
    let lines = "advance Waits|wishes-5 |take Asked 1 a1@10.000000 0|take Idle|record-1 Fresh|\
        take Decided|advance Moved|advance Waits|wishes-5 a2@10.000000,|\
        take Asked 2 b1@3.000000 1|take Ahead 3 a2@10.000000 1|mark 0|record-2 Fresh|\
        advance Moved|advance Waits|wishes-5 |standing-3 Live|mark 1|standing-3 Marked|mark 0|\
        take Asked 4 b2@10.000000 2|record-3 Marked|known-3 Nothing|killed-3 true|record-4 Fresh|\
        advance Moved|advance Moved|advance Waits|take Asked 5 a2@1.000000 4|record-5 Fresh|\
        advance Moved|advance Ended|ending Finished|";
    let keeps = "0 0 0.000000 a|1 1 2.000000 b|Asked 1 a1@10.000000 0|\
        Record 1 Solved(Micros(3000000))|Advance|Asked 2 b1@3.000000 1|Ahead 3 a2@10.000000 1|\
        Record 2 Solved(Micros(2000000))|Advance|Mark 3|Asked 4 b2@10.000000 2|Killed 3|\
        Record 4 Solved(Micros(2000000))|Advance|Advance|Asked 5 a2@1.000000 4|\
        Record 5 Timeout|Advance|";
    let right = is_so::<Ils<Focused>>(rt.alloc(), ("33uu22uu", 2, lines, keeps));
    check(
        &rt,
        matches!(right, Ok(true)),
        "neither needed nor wished for",
    );
}
