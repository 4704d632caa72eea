//! What outputs of children are read as.
use crate::checks::check;
use objective::{Answer, Memory, Micros};
use std::alloc::Global;
use wrapper_lines::answer_of;

/// Appends a part of a row; each `?` is a byte of no UTF-8 text.
fn push_part(output: &mut Vec<u8>, part: &str) -> Result<(), Memory> {
    for byte in part.as_bytes() {
        output.push(if *byte == b'?' { 0xff } else { *byte })?;
    }
    Ok(())
}

/// Appends a part of a row so many times.
fn push_often(output: &mut Vec<u8>, part: &str, times: u32) -> Result<(), Memory> {
    for _time in 0..times {
        push_part(output, part)?;
    }
    Ok(())
}

/// The output of a row; what stands between two bars is in it a thousand times.
fn output_of(alloc: Global, row: &str) -> Result<Vec<u8>, Memory> {
    let mut output = Vec::new(alloc);
    for (i, part) in row.split('|').enumerate() {
        let times = if i == 1 { 1000 } else { 1 };
        push_often(&mut output, part, times)?;
    }
    Ok(output)
}

/// Whether the output of a row shows an answer under a cutoff of five seconds.
fn shows(alloc: Global, row: &str, wanted: Answer) -> Result<bool, Memory> {
    let output = output_of(alloc, row)?;
    Ok(answer_of(&output, Micros(5_000_000)) == wanted)
}

#[test]
fn outputs_are_read(rt: HostRuntime) {
    let second = Answer::Solved(Micros(1_000_000));
    for (name, row, wanted) in &[
        (
            "small time",
            "Result for ParamILS: sat, 1e-06, 0, 0, 1",
            Answer::Solved(Micros(1)),
        ),
        (
            "time at the cutoff",
            "Result for ParamILS: SAT, 5, 0, 0, 1\n",
            Answer::Solved(Micros(5_000_000)),
        ),
        (
            "time above the cutoff",
            "Result for ParamILS: SAT, 5.0000001, 0, 0, 1\n",
            Answer::Timeout,
        ),
        (
            "time too large",
            "Result for ParamILS: SAT, 1e99\n",
            Answer::Timeout,
        ),
        (
            "time with a sign",
            "Result for ParamILS: SAT, -1\n",
            Answer::Crashed,
        ),
        (
            "time with a blank in it",
            "Result for ParamILS: SAT, 1 0\n",
            Answer::Crashed,
        ),
        (
            "100,000 digits",
            "Result for ParamILS: SAT, |0000000000000000000000000000000000000000000000000000000000000000000000000000000000000000000000000000|, 0\n",
            Answer::Solved(Micros(0)),
        ),
        ("no output", "", Answer::Crashed),
        (
            "other lines",
            "c ready\nc Result for ParamILS: SAT, 1\n",
            Answer::Crashed,
        ),
        (
            "head in lower case",
            "result for paramils: SAT, 1\n",
            Answer::Crashed,
        ),
        ("no fields", "Result for ParamILS:", Answer::Crashed),
        ("no time", "Result for ParamILS: SAT\n", Answer::Crashed),
        ("empty time", "Result for ParamILS: SAT,\n", Answer::Crashed),
        (
            "another word",
            "Result for ParamILS: SATISFIABLE, 1\n",
            Answer::Crashed,
        ),
        ("timeout", "Result for ParamILS: TIMEOUT\n", Answer::Timeout),
        ("crash", "Result for ParamILS: CRASHED\n", Answer::Crashed),
        ("abort", "Result for ParamILS: ABORT\n", Answer::Abort),
        (
            "UNSAT in mixed case",
            "Result for ParamILS: uNsAt, 1, 0, 0, 0\n",
            second,
        ),
        (
            "SUCCESS in mixed case",
            "Result for ParamILS: Success, 1, 0, 0, 0\n",
            second,
        ),
        (
            "blanks",
            " \t Result for ParamILS: \tSAT\t , \t1.0 \t, 0\n",
            second,
        ),
        ("no blanks", "Result for ParamILS:SAT,1", second),
        (
            "carriage return before a line feed",
            "Result for ParamILS: SAT, 1\r\n",
            second,
        ),
        (
            "carriage return at the end",
            "Result for ParamILS: SAT, 1\r",
            Answer::Crashed,
        ),
        (
            "two carriage returns",
            "Result for ParamILS: SAT, 1\r\r\n",
            Answer::Crashed,
        ),
        ("no line feed", "Result for ParamILS: SAT, 1", second),
        (
            "bytes that aren't UTF-8",
            "??\nResult for ParamILS: SAT, 1, ??\n??\n",
            second,
        ),
        (
            "first line cut",
            "lt for ParamILS: TIMEOUT\nResult for ParamILS: SAT, 1\n",
            second,
        ),
        (
            "two lines",
            "Result for ParamILS: SAT, 1\nResult for ParamILS: TIMEOUT\n",
            Answer::Timeout,
        ),
        (
            "many lines",
            "|Result for ParamILS: TIMEOUT\n|Result for ParamILS: SAT, 1\n",
            second,
        ),
        (
            "unreadable last line",
            "Result for ParamILS: SAT, 1\nResult for ParamILS: \n",
            Answer::Crashed,
        ),
    ] {
        let right = shows(rt.alloc(), row, *wanted);
        check(&rt, matches!(right, Ok(true)), name);
    }
}
