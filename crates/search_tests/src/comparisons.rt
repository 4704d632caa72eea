//! A comparison of BasicILS, answered by hand: each call once on its happy path.
use crate::answers::{Answer, fits, is_asked, rules_of_two};
use crate::checks::check;
use basic_ils::Basic;
use ils_face::{Reply, Rules};
use ils_frame::{Comparer, Stage};
use objective::{Memory, Sum};
use param_space::Config;
use std::alloc::Global;

/// Whether this is asked, and its reply decides so.
fn decides<C: Comparer>(comparer: &C, answer: &Answer, decision: Option<bool>) -> bool {
    if comparer.stage() != Stage::Asking {
        return false;
    }
    let ask = comparer.ask();
    if !fits(ask, answer.reply) {
        return false;
    }
    is_asked(ask, answer) && comparer.decided_by(answer.reply) == decision
}

/// Gives the answer; whether it is to what was asked.
pub(crate) fn answered<C: Comparer>(comparer: &mut C, answer: &Answer) -> Result<bool, Memory> {
    if comparer.stage() != Stage::Asking {
        return Ok(false);
    }
    let ask = comparer.ask();
    if !fits(ask, answer.reply) {
        return Ok(false);
    }
    let asked = is_asked(ask, answer);
    comparer.answer(answer.reply)?;
    Ok(asked)
}

/// The configuration with this value of x.
pub(crate) fn config(alloc: Global, value: u16) -> Result<Config, Memory> {
    Ok(Config::new([value].to_vec(alloc)?))
}

/// Begins the comparison of a and b; whether it may begin.
fn begun<C: Comparer>(alloc: Global, comparer: &mut C) -> Result<bool, Memory> {
    let (first, second) = (config(alloc, 0)?, config(alloc, 1)?);
    if comparer.stage() != Stage::Ready || comparer.compared() > 0 {
        return Ok(false);
    }
    comparer.begin(first, second, 1);
    Ok(true)
}

/// Whether b is the incumbent with this cost of two runs, as the second entry.
fn has_found<C: Comparer>(comparer: &C, sum: Sum) -> bool {
    comparer.compared() == 1
        && comparer.incumbent().values() == [1].as_slice()
        && (comparer.incumbent_runs() == 2 && comparer.incumbent_sum() == sum)
        && comparer.entries().len() == 2
}

/// Whether a comparison that b wins is answered and shown as it should be.
fn is_won<C: Comparer>(comparer: &mut C) -> Result<bool, Memory> {
    let second = Answer {
        value: 1,
        runs: 2,
        bound: None,
        reply: Reply::Exact(Sum(8)),
    };
    let asked = answered(comparer, &second)?;
    let first = Answer {
        value: 0,
        runs: 2,
        bound: Some(8),
        reply: Reply::Exceeds,
    };
    Ok(asked && decides(comparer, &first, Some(false)) && has_found(comparer, Sum(8)))
}

/// Whether the opening evaluation, and a comparison by a copy, are as they should be.
fn compares<C: Comparer>(alloc: Global, comparer: &mut C) -> Result<bool, Memory> {
    let opening = Answer {
        value: 0,
        runs: 2,
        bound: None,
        reply: Reply::Exact(Sum(9)),
    };
    let decided = decides(comparer, &opening, Some(false));
    let opened = answered(comparer, &opening)? && begun(alloc, comparer)?;
    let mut copy = comparer.copy()?;
    Ok(decided && opened && is_won(&mut copy)?)
}

fn basic_compares(alloc: Global, rules: &Rules) -> Result<bool, Memory> {
    let mut basic = Basic::open(alloc, rules)?;
    compares(alloc, &mut basic)
}

fn compares_two(alloc: Global) -> Result<bool, Memory> {
    match &rules_of_two(alloc) {
        Ok(rules) => basic_compares(alloc, rules),
        Err(_) => Ok(false),
    }
}

#[test]
fn compares_once(rt: HostRuntime) {
    let right = compares_two(rt.alloc());
    check(&rt, matches!(right, Ok(true)), "a and b");
}
