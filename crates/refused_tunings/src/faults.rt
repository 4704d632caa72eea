//! Faults of children, of the output and of memory, and the end that a child asks for.
use crate::checks::check;
use objective::Memory;
use std::alloc::Global;
use std::sync::Wait;
use std::thread::Threads;
use tuner::Status;
use tuning_harness::{Faults, File, NONE, Tuning, WORDS, ran};

/// Whether a tuning with these faults ends so with this code after so many failed starts and
/// looks, and prints this.
fn is_ended<R: Threads + Wait + Sync>(
    rt: &R,
    alloc: Global,
    faults: &Faults,
    status: Status,
    code: u8,
    failed: u64,
    printed: &str,
) -> Result<bool, Memory> {
    let ran = ran(rt, alloc, WORDS, &[], faults)?;
    let right = ran.status == status && ran.status.code() == code && ran.failed == failed;
    Ok(right && ran.printed.as_slice() == printed.as_bytes())
}

/// Whether a tuning in which this start or this look fails names the child so.
fn is_named<R: Threads + Wait + Sync>(
    rt: &R,
    alloc: Global,
    start: u32,
    look: u32,
    printed: &str,
) -> Result<bool, Memory> {
    let faults = Faults {
        pending: [0, 0],
        start,
        look,
        ..NONE
    };
    let status = Status::ChildFault { seat: 0 };
    is_ended(rt, alloc, &faults, status, 7, 1, printed)
}

#[test]
fn failed_children_are_named(rt: HostRuntime) {
    // The first start fails; the second look does, where no child is pending.
    for (start, look, printed) in &[(1, 0, "childfault 1 x=a\n"), (0, 2, "childfault 2 x=a\n")] {
        let right = is_named(&rt, rt.alloc(), *start, *look, printed);
        check(&rt, matches!(right, Ok(true)), printed);
    }
}

/// A tuning by these words over these files in which this start or this look fails, and no
/// child is pending.
fn ran_failing<R: Threads + Wait + Sync>(
    rt: &R,
    alloc: Global,
    words: &str,
    files: &[File<'_>],
    start: u32,
    look: u32,
) -> Result<Tuning, Memory> {
    let faults = Faults {
        pending: [0, 0],
        start,
        look,
        ..NONE
    };
    ran(rt, alloc, words, files, &faults)
}

/// Whether a tuning ended by one fault of a child, after so many starts, and printed these
/// entries and then this line.
fn is_last_named(
    alloc: Global,
    ran: &Tuning,
    started: usize,
    entries: &str,
    line: &str,
) -> Result<bool, Memory> {
    let printed = format!(in alloc; "{entries}{line}")?;
    let right = ran.status == Status::ChildFault { seat: 0 } && ran.status.code() == 7;
    let right = right && ran.failed == 1 && ran.started == started;
    Ok(right && ran.printed.as_slice() == printed.as_bytes())
}

/// Whether a tuning of one comparison in which this start or this look fails has so many
/// starts, and prints these entries and then this line.
fn is_named_last<R: Threads + Wait + Sync>(
    rt: &R,
    alloc: Global,
    start: u32,
    look: u32,
    started: usize,
    entries: &str,
    line: &str,
) -> Result<bool, Memory> {
    let words = "-scenariofile|s|-maxComparisons|1";
    let ran = ran_failing(rt, alloc, words, &[], start, look)?;
    is_last_named(alloc, &ran, started, entries, line)
}

#[test]
fn failed_children_of_a_comparison_are_named(rt: HostRuntime) {
    // The children are a on both pairs, and then b on both. A failed start isn't among the
    // starts; a child that was started is.
    let first = "0 2 7.000000 x=a\n";
    for (start, look, started, entries, line) in &[
        (1, 0, 0, "", "childfault 1 x=a\n"),
        (2, 0, 1, "", "childfault 2 x=a\n"),
        (3, 0, 2, first, "childfault 1 x=b\n"),
        (4, 0, 3, first, "childfault 2 x=b\n"),
        (0, 1, 1, "", "childfault 1 x=a\n"),
        (0, 2, 2, "", "childfault 2 x=a\n"),
        (0, 3, 3, first, "childfault 1 x=b\n"),
        (0, 4, 4, first, "childfault 2 x=b\n"),
    ] {
        let right = is_named_last(&rt, rt.alloc(), *start, *look, *started, entries, line);
        check(&rt, matches!(right, Ok(true)), line);
    }
}

/// y is active where x is b alone, so that a has one neighbour.
const CONDITION: &[u8] = b"x {a, b} [a]\ny {1, 2} [1]\nConditionals:\ny | x in {b}";

/// Whether a tuning of three comparisons, of which the first finds b, in which this start fails
/// has so many starts, and prints two entries and then this line.
fn is_named_after_two<R: Threads + Wait + Sync>(
    rt: &R,
    alloc: Global,
    start: u32,
    started: usize,
    line: &str,
) -> Result<bool, Memory> {
    let words = "-scenariofile|s|-maxComparisons|3";
    let files = [("p", CONDITION), ("i", b"one 3424\n".as_slice())];
    let ran = ran_failing(rt, alloc, words, &files, start, 0)?;
    let entries = "0 2 7.000000 x=a\n1 2 6.000000 x=b y=1\n";
    is_last_named(alloc, &ran, started, entries, line)
}

#[test]
fn entries_come_before_a_failed_child(rt: HostRuntime) {
    // After a and b with y at 1 come b's neighbours in either order: a, which is known, and b
    // with y at 2 on both pairs.
    for (start, started, line) in &[
        (5, 4, "childfault 1 x=b y=2\n"),
        (6, 5, "childfault 2 x=b y=2\n"),
    ] {
        let right = is_named_after_two(&rt, rt.alloc(), *start, *started, line);
        check(&rt, matches!(right, Ok(true)), line);
    }
}

/// Whether a tuning in which this write fails, or this one takes nothing, has printed this.
fn is_cut_off<R: Threads + Wait + Sync>(
    rt: &R,
    alloc: Global,
    write: u32,
    empty: u32,
    printed: &str,
) -> Result<bool, Memory> {
    let faults = Faults {
        write,
        empty,
        ..NONE
    };
    is_ended(rt, alloc, &faults, Status::WriteFault, 5, 0, printed)
}

#[test]
fn writes_that_fail_end_the_call(rt: HostRuntime) {
    // The first write fails; the second takes nothing, after the entry's line.
    for (write, empty, printed) in &[(1, 0, ""), (0, 2, "0 2 7.000000 x=a\n")] {
        let right = is_cut_off(&rt, rt.alloc(), *write, *empty, printed);
        check(&rt, matches!(right, Ok(true)), printed);
    }
}

/// Whether a tuning by these words over these instances ends by an abort of its last child,
/// starts these children, and prints this.
fn is_aborted<R: Threads + Wait + Sync>(
    rt: &R,
    alloc: Global,
    words: &str,
    instances: &str,
    cells: &str,
    printed: &str,
) -> Result<bool, Memory> {
    let ran = ran(rt, alloc, words, &[("i", instances.as_bytes())], &NONE)?;
    let right = matches!(&ran.status, Status::Aborted { .. }) && ran.status.code() == 6;
    Ok(right && ran.cells.as_str() == cells && ran.printed.as_slice() == printed.as_bytes())
}

#[test]
fn an_abort_ends_the_call(rt: HostRuntime) {
    let one = "-scenariofile|s|-maxComparisons|1";
    // In the opening evaluation, and in the first comparison, at either place of b; the last
    // one comes after 8 of the 9 seconds that are left.
    for (words, instances, cells, printed) in &[
        (WORDS, "one x429\n", "a1@10.000000 ", "aborted 1 x=a\n"),
        (
            one,
            "one 34x1\n",
            "a1@10.000000 a2@10.000000 b1@7.000000 ",
            "0 2 7.000000 x=a\naborted 1 x=b\n",
        ),
        (
            one,
            "one 341x\n",
            "a1@10.000000 a2@10.000000 b1@7.000000 b2@6.000000 ",
            "0 2 7.000000 x=a\naborted 2 x=b\n",
        ),
        (
            one,
            "one 54l1\n",
            "a1@10.000000 a2@10.000000 b1@9.000000 ",
            "0 2 9.000000 x=a\naborted 1 x=b\n",
        ),
    ] {
        let right = is_aborted(&rt, rt.alloc(), words, instances, cells, printed);
        check(&rt, matches!(right, Ok(true)), instances);
    }
}

/// What a tuning may leave on its output where an allocation was refused.
fn may_stand(status: &Status, bytes: &[u8]) -> bool {
    let whole = b"0 2 7.000000 x=a\nend 0 2 7.000000 x=a\n".as_slice();
    let short = b"0 2 7.000000 x=a\nnomemory\n".as_slice();
    match status {
        Status::Ok => bytes == whole,
        Status::NoMemory => {
            bytes == b"nomemory\n".as_slice() || bytes == short || whole.starts_with(bytes)
        }
        _ => false,
    }
}

/// Whether a tuning left what it may; that it isn't known is right, too.
fn stands<R: Threads + Wait + Sync>(rt: &R, alloc: Global) -> bool {
    match ran(rt, alloc, WORDS, &[], &NONE) {
        Ok(ran) => may_stand(&ran.status, ran.printed.as_slice()),
        Err(Memory) => true,
    }
}

// Run it by `rt try --test --fail-alloc N`, which refuses the allocation with this number.
#[test]
fn refused_memory_gives_no_other_answer(rt: HostRuntime) {
    check(&rt, stands(&rt, rt.alloc()), "refused memory");
}
