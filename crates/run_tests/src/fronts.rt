//! What a row keeps of its leading exact places, and what is decided by it.
use crate::checks::check;
use crate::decisions::{ask_of, is_same};
use crate::lessons::{cell, know, learnt, limits};
use capping::{Verdict, decide};
use ils_face::Reply;
use objective::{Answer, Factor, Limits, Memory, Micros, Sum};
use run_cache::{Cache, Known, Learnt};
use std::alloc::Global;

/// Whether a configuration has this number, this front and these sums.
fn is_at(
    alloc: Global,
    cache: &Cache,
    value: u16,
    number: Option<usize>,
    sums: &[Sum],
) -> Result<bool, Memory> {
    let config = cell(alloc, value, 1)?.config;
    Ok(
        cache.number_of(&config) == number
            && cache.front(&config) as usize == sums.len() + 1
            && cache.sums(&config) == sums,
    )
}

/// Whether this is decided of the first two places of the first configuration.
fn is_decided(
    alloc: Global,
    cache: &Cache,
    bound: Option<u64>,
    verdict: &Verdict,
) -> Result<bool, Memory> {
    Ok(is_same(&decide(cache, &ask_of(alloc, bound)?), verdict))
}

/// Whether a new cache has no row.
fn has_none(alloc: Global) -> Result<bool, Memory> {
    let cache = Cache::new(alloc, limits());
    Ok(cache.configs() == 0 && is_at(alloc, &cache, 0, None, &[])?)
}

/// Whether the rows are right after runs of 3, 4 and 2 seconds: two of one configuration, and then
/// one of another.
fn keeps_sums(alloc: Global) -> Result<bool, Memory> {
    let mut cache = Cache::new(
        alloc,
        Limits {
            cutoff: Micros(10_000_000),
            factor: Factor::One,
            floor: Micros(10_000),
        },
    );
    know(
        &mut cache,
        &cell(alloc, 5, 1)?,
        Known::Exact(Sum(3_000_000)),
    )?;
    know(
        &mut cache,
        &cell(alloc, 5, 2)?,
        Known::Exact(Sum(4_000_000)),
    )?;
    know(
        &mut cache,
        &cell(alloc, 1, 1)?,
        Known::Exact(Sum(2_000_000)),
    )?;
    let first = is_at(alloc, &cache, 5, Some(0), &[Sum(3_000_000), Sum(7_000_000)])?;
    let second = is_at(alloc, &cache, 1, Some(1), &[Sum(2_000_000)])?;
    Ok(cache.configs() == 2 && first && second && is_at(alloc, &cache, 0, None, &[])?)
}

/// Whether places that are learnt before the front have their sums once the front is learnt.
fn catches_up(alloc: Global) -> Result<bool, Memory> {
    let mut cache = Cache::new(alloc, limits());
    know(&mut cache, &cell(alloc, 0, 3)?, Known::Exact(Sum(5)))?;
    know(&mut cache, &cell(alloc, 0, 2)?, Known::Exact(Sum(100)))?;
    let none = is_at(alloc, &cache, 0, Some(0), &[])?;
    know(&mut cache, &cell(alloc, 0, 1)?, Known::Exact(Sum(3)))?;
    let all = is_at(alloc, &cache, 0, Some(0), &[Sum(3), Sum(103), Sum(108)])?;
    know(&mut cache, &cell(alloc, 0, 5)?, Known::Exact(Sum(1)))?;
    let stays = is_at(alloc, &cache, 0, Some(0), &[Sum(3), Sum(103), Sum(108)])?;
    Ok(none && all && stays && cache.configs() == 1)
}

/// Whether an abort stays at the front, and is decided by; also after runs that contradict what is
/// known there and before.
fn stops_at_abort(alloc: Global) -> Result<bool, Memory> {
    let mut cache = Cache::new(alloc, limits());
    let (first, second) = (cell(alloc, 0, 1)?, cell(alloc, 0, 2)?);
    know(&mut cache, &first, Known::Exact(Sum(3)))?;
    know(&mut cache, &second, Known::Abort)?;
    know(&mut cache, &cell(alloc, 0, 3)?, Known::Exact(Sum(5)))?;
    let stops = is_at(alloc, &cache, 0, Some(0), &[Sum(3)])?;
    let here = learnt(&mut cache, &second, 8, Answer::Solved(Micros(4)));
    let before = learnt(&mut cache, &first, 8, Answer::Solved(Micros(7)));
    let conflicts = here == Some(Learnt::Conflict) && before == Some(Learnt::Conflict);
    let stays = is_at(alloc, &cache, 0, Some(0), &[Sum(3)])?;
    let aborted = is_decided(alloc, &cache, None, &Verdict::Aborted { place: 2 })?;
    Ok(stops && conflicts && stays && aborted)
}

/// Whether a timeout under a shortened cutoff is at the front, and is decided by.
fn stops_at_timeout(alloc: Global) -> Result<bool, Memory> {
    let mut cache = Cache::new(alloc, limits());
    know(&mut cache, &cell(alloc, 0, 1)?, Known::Exact(Sum(3)))?;
    know(&mut cache, &cell(alloc, 0, 2)?, Known::Over(Micros(5)))?;
    let stops = is_at(alloc, &cache, 0, Some(0), &[Sum(3)])?;
    let need = Verdict::Need {
        place: 2,
        cutoff: Micros(6),
    };
    let needed = is_decided(alloc, &cache, Some(9), &need)?;
    let past = is_decided(alloc, &cache, Some(8), &Verdict::Reply(Reply::Exceeds))?;
    Ok(stops && needed && past)
}

/// Whether the sum over the places that are asked for decides, where more places are known.
fn asks_for_fewer(alloc: Global) -> Result<bool, Memory> {
    let mut cache = Cache::new(alloc, limits());
    know(&mut cache, &cell(alloc, 0, 1)?, Known::Exact(Sum(3)))?;
    know(&mut cache, &cell(alloc, 0, 2)?, Known::Exact(Sum(4)))?;
    know(&mut cache, &cell(alloc, 0, 3)?, Known::Exact(Sum(5)))?;
    let seven = Verdict::Reply(Reply::Exact(Sum(7)));
    let in_full = is_decided(alloc, &cache, None, &seven)?;
    let tied = is_decided(alloc, &cache, Some(7), &seven)?;
    let past = is_decided(alloc, &cache, Some(6), &Verdict::Reply(Reply::Exceeds))?;
    Ok(in_full && tied && past)
}

#[test]
fn fronts(rt: HostRuntime) {
    let alloc = rt.alloc();
    check(&rt, has_none(alloc) == Ok(true), "no row");
    check(&rt, keeps_sums(alloc) == Ok(true), "three runs");
    check(
        &rt,
        catches_up(alloc) == Ok(true),
        "places past the front first",
    );
    check(
        &rt,
        stops_at_abort(alloc) == Ok(true),
        "an abort at the front",
    );
    check(
        &rt,
        stops_at_timeout(alloc) == Ok(true),
        "a timeout at the front",
    );
    check(
        &rt,
        asks_for_fewer(alloc) == Ok(true),
        "places before the front",
    );
}
