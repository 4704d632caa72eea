//! Words and seats that are refused, by the line that is printed.
use crate::checks::check;
use objective::Memory;
use std::alloc::Global;
use std::sync::Wait;
use std::thread::Threads;
use tuner::Status;
use tuning_harness::{NONE, WORDS, is_unseated, ran};

/// Whether a tuning by these words ends with this code, and prints this line.
fn is_refused<R: Threads + Wait + Sync>(
    rt: &R,
    alloc: Global,
    words: &str,
    line: &str,
    code: u8,
) -> Result<bool, Memory> {
    let ran = ran(rt, alloc, words, &[], &NONE)?;
    Ok(ran.printed.as_slice() == line.as_bytes() && ran.status.code() == code)
}

#[test]
fn words_and_seats_are_refused_in_their_order(rt: HostRuntime) {
    for (words, line, code) in &[
        ("", "usage 0\n", 2),
        ("toy|-x", "usage 0\n", 2),
        ("-scenariofile| \t", "usage 0\n", 2),
        ("-N|3", "usage 2\n", 2),
        ("-scenariofile|s|-workers|0", "usage 2\n", 2),
        ("-scenariofile|none|-N", "usage 2\n", 2),
        ("-scenariofile|s|-N|2|-N|2", "usage 4\n", 2),
        ("-scenariofile|none", "readfault none\n", 4),
        ("-scenariofile|s|-workers|3", "seats 3 2\n", 9),
        (
            "-scenariofile|s|-workers|3|-paramfile|i",
            "badfile i 1 Form\n",
            3,
        ),
        (
            "-scenariofile|s|-workers|3|-approach|focused",
            "seats 3 2\n",
            9,
        ),
    ] {
        let right = is_refused(&rt, rt.alloc(), words, line, *code);
        check(&rt, matches!(right, Ok(true)), words);
    }
}

#[test]
fn no_seat_is_too_few(rt: HostRuntime) {
    let status = Status::TooFewSeats { asked: 1, given: 0 };
    let right = is_unseated(&rt, rt.alloc(), WORDS, status, b"seats 1 0\n");
    check(&rt, matches!(right, Ok(true)), "no seat");
}
