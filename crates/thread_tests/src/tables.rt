//! Tunings over made tables: what one seat prints, several print too.
use crate::checks::check;
use objective::Memory;
use std::alloc::Global;
use std::process::Abort;
use std::sync::Wait;
use std::thread::Threads;
use tuner::Status;
use tuning_harness::{Faults, NONE, printed_by};

/// The answers that a made table may have: solved after whole seconds and after parts, unsolved, crashed.
const ANSWERS: &[u8] = b"0123456789hquc";

/// The next number of a sequence.
fn next(number: u64) -> u64 {
    number
        .wrapping_mul(6_364_136_223_846_793_005)
        .wrapping_add(1_442_695_040_888_963_407)
}

/// Appends an instance with this name, whose children have four of the answers, by a number.
fn push_instance(name: &str, number: u64, lines: &mut String) -> Result<(), Memory> {
    lines.push_str(name)?;
    lines.push(' ')?;
    let mut number = number;
    for _ in 0..4u32 {
        number = next(number);
        let place = ((number >> 33) % ANSWERS.len() as u64) as usize;
        lines.push(char::from(ANSWERS[place]))?;
    }
    lines.push('\n')?;
    Ok(())
}

/// Three instances whose answers are made from a number.
fn instances(alloc: Global, number: u64) -> Result<String, Memory> {
    let mut lines = String::new(alloc);
    push_instance("one", number, &mut lines)?;
    push_instance("two", number.wrapping_add(1_000), &mut lines)?;
    push_instance("three", number.wrapping_add(2_000), &mut lines)?;
    Ok(lines)
}

/// What a tuning over the made table with this number prints by so many workers.
fn printed<R: Threads + Wait + Sync>(
    rt: &R,
    alloc: Global,
    number: u32,
    workers: u32,
) -> Result<(Status, Vec<u8>), Memory> {
    let approach = if number % 2 == 0 { "basic" } else { "focused" };
    let runs = 2 + number % 5;
    let budget = 3 + number % 7;
    let words = format!(in alloc;
        "-scenariofile|s|-workers|{workers}|-approach|{approach}|-N|{runs}"
    )?;
    let search = format!(in alloc;
        "|-maxComparisons|{budget}|-numRun|{number}|-r|2|-p_restart|0.1"
    )?;
    let words = format!(in alloc;
        "{}{}|-pair_order|shuffled",
        words.as_str(),
        search.as_str()
    )?;
    let instances = instances(alloc, u64::from(number))?;
    let params = "x {a, b} [a]\ny {1, 2, 3} [1]\nz {0, 1} [0]\nz | x in {b}\n";
    let files = [("i", instances.as_bytes()), ("p", params.as_bytes())];
    let faults = Faults {
        pending: [number % 4, number % 3],
        ..NONE
    };
    printed_by(rt, alloc, workers as usize, words.as_str(), &files, &faults)
}

/// Whether one seat and eight print the same over the made table with this number, and end well.
fn prints_the_same<R: Threads + Wait + Sync>(
    rt: &R,
    alloc: Global,
    number: u32,
) -> Result<bool, Memory> {
    let (status, one) = printed(rt, alloc, number, 1)?;
    let (other, eight) = printed(rt, alloc, number, 8)?;
    let same = one.as_slice() == eight.as_slice();
    Ok(same && status == Status::Ok && other == Status::Ok)
}

/// Whether a tuning by so many seats finds the better settings b with its second comparison.
fn finds_better<R: Threads + Wait + Sync>(
    rt: &R,
    alloc: Global,
    workers: u32,
) -> Result<bool, Memory> {
    let words = format!(in alloc; "-scenariofile|s|-maxComparisons|2|-workers|{workers}")?;
    let files = [("i", "one 3424\n".as_bytes())];
    let (status, bytes) = printed_by(rt, alloc, workers as usize, words.as_str(), &files, &NONE)?;
    let lines = "0 2 7.000000 x=a\n1 2 6.000000 x=b\nend 2 2 6.000000 x=b\n";
    Ok(status == Status::Ok && bytes.as_slice() == lines.as_bytes())
}

#[test]
fn one_seat_and_two_find_the_better_settings(rt: HostRuntime) {
    for (workers, row) in &[(1, "one seat"), (2, "two seats")] {
        let right = finds_better(&rt, rt.alloc(), *workers);
        check(&rt, matches!(right, Ok(true)), row);
    }
}

/// Checks that one seat and eight print the same over forty made tables, from this number on.
fn print_the_same<R: Threads + Wait + Sync + Abort + AllocGlobal>(rt: &R, first: u32) {
    for number in 0..40u32 {
        let right = prints_the_same(rt, rt.alloc(), first.wrapping_add(number));
        check(rt, matches!(right, Ok(true)), "made tables");
    }
}

#[test]
fn one_seat_and_eight_print_the_same(rt: HostRuntime) {
    print_the_same(&rt, 0);
}

#[test]
fn one_seat_and_eight_print_the_same_over_further_tables(rt: HostRuntime) {
    print_the_same(&rt, 40);
}

#[test]
fn one_seat_and_eight_print_the_same_over_still_others(rt: HostRuntime) {
    print_the_same(&rt, 80);
}
