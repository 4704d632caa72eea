//! What the output of a child says.
ghost use Rattle.std.specs.Prelude.{◌≡◌, position};
ghost use Rattle.std.specs.List.{before_first, after_first};
ghost use Rattle.std.specs.Option.{option_copied};
ghost use Rattle.plain_text.specs.Times.{micros_read};
ghost use Rattle.objective.specs.Costs.{IsWithin};
ghost use Rattle.wrapper_lines.specs.ResultLines;
ghost use Rattle.wrapper_lines.specs.ResultLines.{is_comma};

use objective::{Answer, Micros};
use plain_text::{TimeFault, first_line, front_trimmed_bytes, read_micros, trimmed_bytes};

/// What a line says after its head. None exactly where it is no result line.
fn said_in(line: &[u8]) -> Option<&[u8]>
    ensures { option_copied result ≡ ResultLines.said_in line.now }
{
    front_trimmed_bytes(line).strip_prefix(b"Result for ParamILS:")
}

/// What the last result line says after its head, in one pass. None exactly where there is none.
#[tactic(auto, unfolding(plain_text::specs::Lines::lines_among))]
fn last_said(output: &[u8]) -> Option<&[u8]>
    ensures { option_copied result ≡ ResultLines.last_said output.now }
{
    let mut rest = output;
    let mut last = None;
    while !rest.is_empty() {
        let (line, later) = first_line(rest);
        last = said_in(line).or(last);
        rest = later;
    }
    last
}

/// Where the first comma stands.
fn comma_place(said: &[u8]) -> Option<usize>
    ensures { result ≡ position is_comma said.now }
{
    said.iter().position(|b| *b == b',')
}

/// What stands before and after the first comma; all of it and nothing where there is none.
fn parted(said: &[u8]) -> (&[u8], &[u8])
    ensures before { result.0.now ≡ before_first is_comma said.now }
    ensures after { result.1.now ≡ after_first is_comma said.now }
{
    match comma_place(said) {
        Some(at) => (&said[..at], &said[at + 1..]),
        None => (said, &[]),
    }
}

/// The first two fields.
fn two_fields(said: &[u8]) -> (&[u8], &[u8])
    ensures first { result.0.now ≡ ResultLines.first_field said.now }
    ensures second { result.1.now ≡ ResultLines.second_field said.now }
{
    let (first, later) = parted(said);
    let (second, _) = parted(later);
    (trimmed_bytes(first), trimmed_bytes(second))
}

/// Whether a word says that a run was solved.
fn says_solved(word: &[u8]) -> bool
    ensures { result ≡ ResultLines.says_solved word.now }
{
    word.eq_ignore_ascii_case(b"SAT")
        || word.eq_ignore_ascii_case(b"UNSAT")
        || word.eq_ignore_ascii_case(b"SUCCESS")
}

/// What a run that was solved after a time shows.
fn solved_after(time: Result<Micros, TimeFault>, cutoff: Micros) -> Answer
    ensures value { result ≡ ResultLines.solved_after cutoff.0 time }
    ensures within { IsWithin result cutoff.0 }
{
    match time {
        Ok(t) if t.0 <= cutoff.0 => Answer::Solved(t),
        Ok(_) => Answer::Timeout,
        Err(TimeFault::TooLarge) => Answer::Timeout,
        Err(TimeFault::NotDecimal) => Answer::Crashed,
    }
}

/// What a word and a time say.
fn answer_by(word: &[u8], time: &[u8], cutoff: Micros) -> Answer
    ensures value { result ≡ ResultLines.answer_by cutoff.0 word.now (micros_read time.now) }
    ensures within { IsWithin result cutoff.0 }
{
    if says_solved(word) {
        solved_after(read_micros(time), cutoff)
    } else if word.eq_ignore_ascii_case(b"TIMEOUT") {
        Answer::Timeout
    } else if word.eq_ignore_ascii_case(b"ABORT") {
        Answer::Abort
    } else {
        Answer::Crashed
    }
}

/// What the output of a child shows under a cutoff: the answer of its last result line, and a
/// crash where there is none or it can't be read. Any output has an answer. Takes no memory, and
/// time in proportion to the length of the output.
#[tactic(auto, unfolding(crate::specs::ResultLines::answer_of))]
pub fn answer_of(output: &[u8], cutoff: Micros) -> Answer
    ensures value { result ≡ ResultLines.answer_of output.now cutoff.0 }
    ensures within { IsWithin result cutoff.0 }
{
    match last_said(output) {
        Some(said) => {
            let (word, time) = two_fields(said);
            answer_by(word, time, cutoff)
        }
        None => Answer::Crashed,
    }
}
