//! Seats beside each other: what each has to do whatever the others do.
use crate::checks::check;
use crate::plan::{Fate, Plan};
use crate::tunings::tuned;
use objective::Memory;
use std::alloc::Global;
use std::rt::Clock;
use std::sync::Wait;
use std::thread::Threads;
use tuner::Status;

/// What a tuning prints that ends with the opening evaluation.
const OPENING: &str = "0 2 7.000000 x=a\nend 0 2 7.000000 x=a\n";

/// Whether so many seats, each of which waits with its first child for those of all others, evaluate the
/// default on as many pairs, so that each starts one, and print this.
fn run_beside<R: Threads + Wait + Sync + Clock>(
    rt: &R,
    alloc: Global,
    seats: u32,
    printed: &str,
    starts: &str,
) -> Result<bool, Memory> {
    let words = format!(in alloc; "-maxComparisons|0|-N|{seats}")?;
    let plan = Plan::Gate(u64::from(seats));
    let ran = tuned(rt, alloc, plan, seats, words.as_str(), "3429")?;
    Ok(ran.is(0, printed, starts) && ran.least == 1)
}

#[test]
fn all_seats_run_beside_each_other(rt: HostRuntime) {
    // The default takes 3 seconds on the first pair, and 4 on each of the others.
    let three = "0 3 11.000000 x=a\nend 0 3 11.000000 x=a\n";
    let eight = "0 8 31.000000 x=a\nend 0 8 31.000000 x=a\n";
    for (seats, printed, starts) in &[
        (2, OPENING, "a1@10.000000 a2@10.000000 "),
        (3, three, "a1@10.000000 a2@10.000000 a3@10.000000 "),
        (
            8,
            eight,
            "a1@10.000000 a2@10.000000 a3@10.000000 a4@10.000000 a5@10.000000 a6@10.000000 a7@10.000000 a8@10.000000 ",
        ),
    ] {
        let right = run_beside(&rt, rt.alloc(), *seats, printed, starts);
        check(&rt, matches!(right, Ok(true)), printed);
    }
}

/// Whether two seats by this plan come to a good end with this budget, print this and start these children.
fn ends_well<R: Threads + Wait + Sync + Clock>(
    rt: &R,
    alloc: Global,
    plan: Plan,
    words: &str,
    answers: &str,
    printed: &str,
    starts: &str,
) -> Result<bool, Memory> {
    let ran = tuned(rt, alloc, plan, 2, words, answers)?;
    Ok(ran.is(0, printed, starts))
}

#[test]
fn an_unwanted_run_is_killed(rt: HostRuntime) {
    // At the end of the search, and while the search waits for a run of the same cell under a lower cutoff.
    let lost = "0 2 7.000000 x=a\nend 1 2 7.000000 x=a\n";
    let won = "0 2 7.000000 x=a\n1 2 6.000000 x=b\nend 2 2 6.000000 x=b\n";
    let four = "a1@10.000000 a2@10.000000 b1@7.000000 b2@7.000000 ";
    let five = "a1@10.000000 a2@10.000000 b1@7.000000 b2@10.000000 b2@5.000000 ";
    for (seconds, words, answers, printed, starts) in &[
        (7, "-maxComparisons|1", "3481", lost, four),
        (10, "-maxComparisons|2", "3424", won, five),
    ] {
        let plan = Plan::Kill(*seconds);
        let right = ends_well(&rt, rt.alloc(), plan, words, answers, printed, starts);
        check(&rt, matches!(right, Ok(true)), starts);
    }
}

#[test]
fn the_board_is_free_while_a_child_is_started_looked_at_or_killed(rt: HostRuntime) {
    let words = "-maxComparisons|1|-N|3";
    let printed = "0 3 11.000000 x=a\n1 3 10.000000 x=b\nend 1 3 10.000000 x=b\n";
    let starts =
        "a1@10.000000 a2@10.000000 a3@10.000000 b1@10.000000 b2@10.000000 b2@9.000000 b3@9.000000 ";
    let right = ends_well(&rt, rt.alloc(), Plan::Turns, words, "3424", printed, starts);
    check(&rt, matches!(right, Ok(true)), "turns");
}

/// Whether the tuning goes on where the run ahead comes to this, with these starts and so many faults.
fn loses_ahead<R: Threads + Wait + Sync + Clock>(
    rt: &R,
    alloc: Global,
    fate: Fate,
    starts: &str,
    faults: u64,
) -> Result<bool, Memory> {
    let ran = tuned(rt, alloc, Plan::Ahead(fate), 2, "-maxComparisons|0", "3429")?;
    let right = ran.status == Status::Ok && ran.printed.as_slice() == OPENING.as_bytes();
    Ok(right && ran.starts.as_str() == starts && ran.faults == faults)
}

#[test]
fn a_run_ahead_that_fails_is_lost_and_nothing_else(rt: HostRuntime) {
    let once = "a1@10.000000 a2@10.000000 ";
    let twice = "a1@10.000000 a2@10.000000 a2@10.000000 ";
    for (fate, starts, faults, name) in &[
        (Fate::CannotStart, once, 1, "start"),
        (Fate::CannotBeSeen, twice, 1, "look"),
        (Fate::NoMemory, once, 0, "memory"),
    ] {
        let right = loses_ahead(&rt, rt.alloc(), *fate, starts, *faults);
        check(&rt, matches!(right, Ok(true)), name);
    }
}

/// Whether a tuning by so many seats is ended by a child fault where the run that was asked for comes to this.
fn ends_at_asked<R: Threads + Wait + Sync + Clock>(
    rt: &R,
    alloc: Global,
    fate: Fate,
    seats: u32,
) -> Result<bool, Memory> {
    let ran = tuned(
        rt,
        alloc,
        Plan::Asked(fate),
        seats,
        "-maxComparisons|0",
        "3429",
    )?;
    let ended = matches!(ran.status, Status::ChildFault { .. });
    Ok(ended && ran.printed.as_slice() == "childfault 1 x=a\n".as_bytes() && ran.faults == 1)
}

/// Whether the tuning is ended where there is no memory for the run that was asked for.
fn ends_for_memory<R: Threads + Wait + Sync + Clock>(
    rt: &R,
    alloc: Global,
) -> Result<bool, Memory> {
    let plan = Plan::Asked(Fate::NoMemory);
    let ran = tuned(rt, alloc, plan, 2, "-maxComparisons|0", "3429")?;
    let ended = ran.status == Status::NoMemory;
    Ok(ended && ran.printed.as_slice() == "nomemory\n".as_bytes() && ran.faults == 0)
}

#[test]
fn an_asked_run_that_fails_ends_the_tuning(rt: HostRuntime) {
    for (fate, name) in &[(Fate::CannotStart, "start"), (Fate::CannotBeSeen, "look")] {
        let right = ends_at_asked(&rt, rt.alloc(), *fate, 2);
        check(&rt, matches!(right, Ok(true)), name);
    }
    let right = ends_for_memory(&rt, rt.alloc());
    check(&rt, matches!(right, Ok(true)), "memory");
}

/// The rounds of a test that waits for what other seats do without a sign of it.
const ROUNDS: u32 = 50;

#[test]
fn a_stop_wakes_the_seats_that_wait(rt: HostRuntime) {
    // There are two runs. The one ahead has ended, so the other two seats wait, when the look at the one that
    // was asked for fails. Where nobody rings then, this doesn't end.
    for _ in 0..ROUNDS {
        let right = ends_at_asked(&rt, rt.alloc(), Fate::IsLostLate, 3);
        check(&rt, matches!(right, Ok(true)), "stop");
    }
}
