//! A cache of several cells.
use crate::checks::check;
use crate::lessons::{cell, know, learnt, limits};
use objective::{Answer, Memory, Micros, Sum};
use run_cache::{Cache, Known, Learnt};
use std::alloc::Global;

/// Whether a new cache knows nothing, and has no place.
fn is_empty(alloc: Global) -> Result<bool, Memory> {
    let cache = Cache::new(alloc, limits());
    let first = cell(alloc, 0, 1)?;
    Ok(
        !cache.has_place(&first)
            && cache.known(&first) == Known::Nothing
            && cache.row(&first.config).is_empty()
            && cache.conflicts() == 0
            && cache.limits().cutoff == Micros(10),
    )
}

/// Whether cells are known apart, by their configurations and by their places.
fn keeps_apart(alloc: Global) -> Result<bool, Memory> {
    let mut cache = Cache::new(alloc, limits());
    let (first, second, other) = (cell(alloc, 0, 1)?, cell(alloc, 0, 3)?, cell(alloc, 1, 1)?);
    know(&mut cache, &second, Known::Exact(Sum(4)))?;
    know(&mut cache, &other, Known::Over(Micros(2)))?;
    let has_places = cache.has_place(&first) && cache.has_place(&second);
    Ok(
        has_places
            && cache.known(&first) == Known::Nothing
            && cache.known_at(&second.config, 3) == Known::Exact(Sum(4))
            && cache.row(&second.config).len() == 3
            && cache.known_at(&other.config, 1) == Known::Over(Micros(2))
            && cache.known_at(&other.config, 2) == Known::Nothing,
    )
}

/// Whether a place that is made again leaves what is known.
fn keeps_known(alloc: Global) -> Result<bool, Memory> {
    let mut cache = Cache::new(alloc, limits());
    let first = cell(alloc, 0, 1)?;
    know(&mut cache, &first, Known::Exact(Sum(4)))?;
    cache.reserve(&first)?;
    cache.reserve(&cell(alloc, 0, 100)?)?;
    Ok(
        cache.known(&first) == Known::Exact(Sum(4))
            && learnt(&mut cache, &first, 10, Answer::Crashed) == Some(Learnt::Conflict)
            && cache.conflicts() == 1
            && cache.row(&first.config).len() == 100,
    )
}

/// Whether a copy of a cell is the same cell, and no other one.
fn copies(alloc: Global) -> Result<bool, Memory> {
    let first = cell(alloc, 0, 1)?;
    Ok(first.copy()? == first && first != cell(alloc, 0, 2)? && first != cell(alloc, 1, 1)?)
}

#[test]
fn caches(rt: HostRuntime) {
    let alloc = rt.alloc();
    check(&rt, is_empty(alloc) == Ok(true), "a new cache");
    check(&rt, keeps_apart(alloc) == Ok(true), "several cells");
    check(&rt, keeps_known(alloc) == Ok(true), "a place made twice");
    check(&rt, copies(alloc) == Ok(true), "a copied cell");
}
