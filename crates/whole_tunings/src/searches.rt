//! Searches of the values a and b on two pairs. The values are those of the worked rows of
//! BasicILS among the definitions of the procedure.
use crate::checks::check;
use objective::Memory;
use std::alloc::Global;
use std::sync::Wait;
use std::thread::Threads;
use tuner::Status;
use tuning_harness::{NONE, SCENARIO, Tuning, ran};

/// A tuning by these words of this scenario over these instances.
fn searched_over<'a, R: Threads + Wait + Sync>(
    rt: &R,
    alloc: Global,
    words: &str,
    scenario: &'a str,
    instances: &'a str,
) -> Result<Tuning, Memory> {
    let files = [("s", scenario.as_bytes()), ("i", instances.as_bytes())];
    ran(rt, alloc, words, &files, &NONE)
}

/// A tuning over children with these answers, of this scenario and with this budget.
fn searched<R: Threads + Wait + Sync>(
    rt: &R,
    alloc: Global,
    answers: &str,
    scenario: &str,
    budget: &str,
) -> Result<Tuning, Memory> {
    let words = format!(in alloc; "-scenariofile|s|-maxComparisons|{budget}")?;
    let instances = format!(in alloc; "one {answers}\n")?;
    searched_over(rt, alloc, words.as_str(), scenario, instances.as_str())
}

/// Whether a tuning is Ok with these entries and this last line, and started the first so many
/// of these children.
fn is_ended_with(
    alloc: Global,
    ran: &Tuning,
    budget: usize,
    lines: Lines,
    started: usize,
    cells: &str,
) -> Result<bool, Memory> {
    let (entries, last) = lines;
    let printed = format!(in alloc; "{entries}end {budget} {last}\n")?;
    let right = ran.status == Status::Ok && ran.printed.as_slice() == printed.as_bytes();
    Ok(right && ran.started == started && cells.starts_with(ran.cells.as_str()))
}

/// Whether a tuning with these answers and this budget ends so.
fn is_searched<R: Threads + Wait + Sync>(
    rt: &R,
    alloc: Global,
    answers: &str,
    budget: usize,
    lines: Lines,
    started: usize,
    cells: &str,
) -> Result<bool, Memory> {
    let word = format!(in alloc; "{budget}")?;
    let ran = searched(rt, alloc, answers, SCENARIO, word.as_str())?;
    is_ended_with(alloc, &ran, budget, lines, started, cells)
}

/// What is printed: the entries, and what the last line says after the budget.
type Lines = (&'static str, &'static str);

/// Whether tunings with these answers and budgets from 0 on start so many of these children;
/// they print the first lines with the budget 0, and the later ones with the others.
fn are_searched<R: Threads + Wait + Sync>(
    rt: &R,
    alloc: Global,
    answers: &str,
    first: Lines,
    later: Lines,
    started: &[usize],
    cells: &str,
) -> Result<bool, Memory> {
    for budget in 0..started.len() {
        let lines = if budget == 0 { first } else { later };
        if !is_searched(rt, alloc, answers, budget, lines, started[budget], cells)? {
            return Ok(false);
        }
    }
    Ok(true)
}

#[test]
fn better_settings_become_the_incumbent(rt: HostRuntime) {
    let opening = ("0 2 7.000000 x=a\n", "2 7.000000 x=a");
    let found = ("0 2 7.000000 x=a\n1 2 6.000000 x=b\n", "2 6.000000 x=b");
    let free = ("0 2 0.000000 x=a\n", "2 0.000000 x=a");
    // Worse settings and ties leave the incumbent. The second comparison is of a with b; it
    // needs b in full, of which the first may have cut short a run or have left one out.
    for (answers, first, later, started, cells) in &[
        (
            "3424",
            opening,
            found,
            [2, 4, 4, 4, 4, 4],
            "a1@10.000000 a2@10.000000 b1@7.000000 b2@5.000000 ",
        ),
        (
            "3429",
            opening,
            opening,
            [2, 4, 5, 5, 5, 5],
            "a1@10.000000 a2@10.000000 b1@7.000000 b2@5.000000 b2@10.000000 ",
        ),
        (
            "3425",
            opening,
            opening,
            [2, 4, 4, 4, 4, 4],
            "a1@10.000000 a2@10.000000 b1@7.000000 b2@5.000000 ",
        ),
        (
            "3481",
            opening,
            opening,
            [2, 3, 5, 5, 5, 5],
            "a1@10.000000 a2@10.000000 b1@7.000000 b1@10.000000 b2@10.000000 ",
        ),
        (
            "0000",
            free,
            free,
            [2, 4, 4, 4, 4, 4],
            "a1@10.000000 a2@10.000000 b1@0.000001 b2@0.000001 ",
        ),
    ] {
        let right = are_searched(&rt, rt.alloc(), answers, *first, *later, started, cells);
        check(&rt, matches!(right, Ok(true)), answers);
    }
}

/// Whether the pairs of a's opening evaluation, which isn't left, cost ten cutoffs where they
/// aren't solved; no run is cut short.
fn costs_ten_cutoffs<R: Threads + Wait + Sync>(rt: &R, alloc: Global) -> Result<bool, Memory> {
    let scenario = format!(in alloc; "{SCENARIO}overall_obj = mean10\n")?;
    let ran = searched(rt, alloc, "u19u", scenario.as_str(), "1")?;
    let lines = ("0 2 101.000000 x=a\n", "2 101.000000 x=a");
    let cells = "a1@10.000000 a2@10.000000 b1@10.000000 b2@10.000000 ";
    is_ended_with(alloc, &ran, 1, lines, 4, cells)
}

#[test]
fn a_pair_that_is_not_solved_costs_ten_cutoffs(rt: HostRuntime) {
    let right = costs_ten_cutoffs(&rt, rt.alloc());
    check(&rt, matches!(right, Ok(true)), "mean10");
}

/// Whether a child that would ask for the end of the tuning after 8 seconds is cut short after
/// the 7 that are left.
fn abort_is_cut_short<R: Threads + Wait + Sync>(rt: &R, alloc: Global) -> Result<bool, Memory> {
    let ran = searched(rt, alloc, "34l1", SCENARIO, "1")?;
    let lines = ("0 2 7.000000 x=a\n", "2 7.000000 x=a");
    let cells = "a1@10.000000 a2@10.000000 b1@7.000000 ";
    is_ended_with(alloc, &ran, 1, lines, 3, cells)
}

#[test]
fn an_abort_past_the_cutoff_is_not_seen(rt: HostRuntime) {
    let right = abort_is_cut_short(&rt, rt.alloc());
    check(&rt, matches!(right, Ok(true)), "late abort");
}

/// The first seven lines of a scenario.
const HEAD: &str =
    "algo = w\nparamfile = p\ninstance_file = i\ncutoff_time = 10\ncap_floor = 0.000001\napproach = basic\nN = 2\n";

/// The code of a tuning with these numbers and this budget.
fn code_with<R: Threads + Wait + Sync>(
    rt: &R,
    alloc: Global,
    numbers: &str,
    budget: &str,
) -> Result<u8, Memory> {
    let scenario = format!(in alloc; "{HEAD}{numbers}pair_order = file\n")?;
    let ran = searched(rt, alloc, "3424", scenario.as_str(), budget)?;
    Ok(ran.status.code())
}

#[test]
fn numbers_of_the_search_have_their_limits(rt: HostRuntime) {
    for (numbers, budget, code) in &[
        ("r = 1000\ns = 100\np_restart = 0.9999\n", "0", 0),
        ("r = 0\ns = 1\np_restart = 1\n", "00", 0),
        ("r = 0\ns = 1\np_restart = 0.1e-1\n", "0", 0),
        ("r = 1001\ns = 1\np_restart = 0\n", "0", 3),
        ("r = 0\ns = 0\np_restart = 0\n", "0", 3),
        ("r = 0\ns = 101\np_restart = 0\n", "0", 3),
        ("r = 0\ns = 1\np_restart = 0.00005\n", "0", 3),
        ("r = 0\ns = 1\np_restart = 1.0001\n", "0", 3),
        // Budgets past their limits.
        ("r = 0\ns = 1\np_restart = 0\n", "100001", 2),
        ("r = 0\ns = 1\np_restart = 0\n", "-1", 2),
        ("r = 0\ns = 1\np_restart = 0\n", "", 2),
    ] {
        let right = match code_with(&rt, rt.alloc(), numbers, budget) {
            Ok(found) => found == *code,
            Err(_) => false,
        };
        check(&rt, right, numbers);
    }
}
