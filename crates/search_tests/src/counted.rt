//! Comparisons of FocusedILS, answered by hand: a costs 1 on each pair, and b costs 2.
ghost use Rattle.std.specs.Prelude.{◌≡◌, None, IsTrue};
ghost use Rattle.ils_frame.specs.Comparers.{question_in};

use crate::answers::{Answer, rules_of_ten};
use crate::checks::check;
use crate::comparisons::{answered, config};
use focused_ils::Focused;
use ils_face::{Reply, Rules};
use ils_frame::{Comparer, Stage};
use objective::{MAX_COMPARISONS, Memory, Sum};
use std::alloc::Global;

/// Whether nothing is asked.
fn is_idle<C: Comparer>(comparer: &C) -> bool
    ensures { IsTrue result → question_in (C.parts.stage comparer.now) ≡ None }
{
    match comparer.stage() {
        Stage::Asking => false,
        Stage::Ready => true,
        Stage::Decided(_) => true,
    }
}

/// Begins the comparison of these values with this number; whether it may begin.
fn begun<C: Comparer>(
    alloc: Global,
    comparer: &mut C,
    values: (u16, u16),
    number: u32,
) -> Result<bool, Memory> {
    let (first, second) = (config(alloc, values.0)?, config(alloc, values.1)?);
    if !is_idle(comparer) || comparer.compared() >= number || number > MAX_COMPARISONS {
        return Ok(false);
    }
    comparer.begin(first, second, number);
    Ok(true)
}

/// Whether a comparison asks for these one after another, and then is decided so.
fn is_decided<C: Comparer>(
    comparer: &mut C,
    answers: &[Answer],
    won: bool,
) -> Result<bool, Memory> {
    for answer in answers {
        if !answered(comparer, answer)? {
            return Ok(false);
        }
    }
    Ok(comparer.stage() == Stage::Decided(won))
}

/// A whole cost of a value's first pairs.
fn cost(value: u16, runs: u32, bound: Option<u64>) -> Answer {
    let sum = u64::from(runs.min(10)) * (1 + u64::from(value));
    Answer {
        value,
        runs,
        bound,
        reply: Reply::Exact(Sum(sum)),
    }
}

/// The run of b that is cut short at the cost of a.
fn cut_short(runs: u32, bound: u64) -> Answer {
    Answer {
        value: 1,
        runs,
        bound: Some(bound),
        reply: Reply::Exceeds,
    }
}

/// Whether a and b have so many runs, and a win is worth so many more.
fn has(
    alloc: Global,
    focused: &Focused,
    first: u32,
    second: u32,
    bonus: u32,
) -> Result<bool, Memory> {
    let runs = focused.runs(&config(alloc, 0)?) == first
        && focused.runs(&config(alloc, 1)?) == second;
    Ok(runs && focused.bonus() == bonus)
}

/// Whether b loses to a by its first run. That run is cut short, and counts all the same.
fn first_is_lost(alloc: Global, focused: &mut Focused) -> Result<bool, Memory> {
    let begun = begun(alloc, focused, (1, 0), 1)? && has(alloc, focused, 0, 0, 2)?;
    let answers = [cost(0, 1, None), cut_short(1, 1)];
    let lost = is_decided(focused, &answers, false)?;
    Ok(begun && lost && has(alloc, focused, 1, 1, 2)?)
}

/// Whether a wins over b, which is worth four further runs: both have one run, so the bonus
/// grows by two. The incumbent a goes first.
fn second_is_won(alloc: Global, focused: &mut Focused) -> Result<bool, Memory> {
    let begun = begun(alloc, focused, (0, 1), 2)? && has(alloc, focused, 1, 1, 4)?;
    let answers = [
        cost(0, 2, None),
        cost(1, 2, None),
        cost(0, 2, Some(4)),
        cost(0, 6, None),
    ];
    let won = is_decided(focused, &answers, true)?;
    Ok(begun && won && has(alloc, focused, 6, 2, 0)?)
}

/// Whether b loses again: its third run isn't needed, and counts.
fn third_is_lost(alloc: Global, focused: &mut Focused) -> Result<bool, Memory> {
    let begun = begun(alloc, focused, (1, 0), 3)? && has(alloc, focused, 6, 2, 1)?;
    let answers = [cost(0, 3, None), cut_short(3, 3)];
    let lost = is_decided(focused, &answers, false)?;
    Ok(begun && lost && has(alloc, focused, 6, 3, 1)?)
}

/// Whether three comparisons are as they should be.
fn compares(alloc: Global, focused: &mut Focused) -> Result<bool, Memory> {
    let opened = has(alloc, focused, 0, 0, 0)?;
    let first = opened && first_is_lost(alloc, focused)?;
    let second = first && second_is_won(alloc, focused)?;
    Ok(second && third_is_lost(alloc, focused)?)
}

fn focused_compares(alloc: Global, rules: &Rules) -> Result<bool, Memory> {
    let mut focused = Focused::open(alloc, rules)?;
    compares(alloc, &mut focused)
}

fn compares_ten(alloc: Global) -> Result<bool, Memory> {
    match &rules_of_ten(alloc) {
        Ok(rules) => focused_compares(alloc, rules),
        Err(_) => Ok(false),
    }
}

#[test]
fn runs_are_counted_and_a_bonus_grows(rt: HostRuntime) {
    let right = compares_ten(rt.alloc());
    check(&rt, matches!(right, Ok(true)), "a and b");
}
