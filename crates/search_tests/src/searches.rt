//! A search by BasicILS is opened and copied, and answered by hand.
use crate::answers::{Answer, fits, is_asked, rules_of_two};
use crate::checks::check;
use basic_ils::Basic;
use ils_face::{Ask, Reply, Rules, Search};
use ils_frame::Ils;
use objective::{Memory, Sum};
use std::alloc::Global;

/// Gives the answer; whether it is to what was asked.
fn answered<S: Search>(search: &mut S, answer: &Answer) -> Result<bool, Memory> {
    let ask = search.ask();
    if !fits(ask, answer.reply) {
        return Ok(false);
    }
    let asked = is_asked(ask, answer);
    search.answer(answer.reply)?;
    Ok(asked)
}

/// Whether the search asks for these one after another, and then for nothing more.
fn asks_for<S: Search>(search: &mut S, answers: &[Answer]) -> Result<bool, Memory> {
    for answer in answers {
        if !answered(search, answer)? {
            return Ok(false);
        }
    }
    Ok(matches!(search.ask(), Ask::End))
}

/// Whether b was found by the first comparison, with this cost of two runs.
fn has_found<S: Search>(search: &S, sum: Sum) -> bool {
    search.answers() == 3
        && search.compared() == 1
        && search.incumbent().values() == [1].as_slice()
        && (search.incumbent_runs() == 2 && search.incumbent_sum() == sum)
        && search.entries().len() == 2
}

/// Whether a search in which b costs less than a, answered by a copy, finds b.
fn finds<S: Search>(search: &S) -> Result<bool, Memory> {
    let mut copy = search.copy()?;
    let unanswered = copy.answers() == 0;
    let asked = asks_for(
        &mut copy,
        &[
            Answer {
                value: 0,
                runs: 2,
                bound: None,
                reply: Reply::Exact(Sum(7)),
            },
            Answer {
                value: 0,
                runs: 2,
                bound: None,
                reply: Reply::Exact(Sum(7)),
            },
            Answer {
                value: 1,
                runs: 2,
                bound: Some(7),
                reply: Reply::Exact(Sum(6)),
            },
        ],
    )?;
    Ok(unanswered && asked && has_found(&copy, Sum(6)))
}

fn ils_finds(alloc: Global, rules: &Rules) -> Result<bool, Memory> {
    match &Ils::<Basic>::open(alloc, rules) {
        Ok(search) => finds(search),
        Err(_) => Ok(false),
    }
}

fn finds_of_two(alloc: Global) -> Result<bool, Memory> {
    match &rules_of_two(alloc) {
        Ok(rules) => ils_finds(alloc, rules),
        Err(_) => Ok(false),
    }
}

#[test]
fn a_search_is_opened_copied_and_answered(rt: HostRuntime) {
    let right = finds_of_two(rt.alloc());
    check(&rt, matches!(right, Ok(true)), "a and b");
}
