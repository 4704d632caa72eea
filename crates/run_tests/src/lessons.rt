//! What is learnt from a run, by what was known before it.
ghost use Rattle.std.specs.Prelude.{◌≡◌, ◌≤◌, IfOk, IsTrue};
ghost use Rattle.objective.specs.Costs.{IsWithin};
ghost use Rattle.objective.specs.Limits.{max_runs};
ghost use Rattle.run_cache.specs.Caches.{IsCutoff};

use crate::checks::check;
use objective::{Answer, Factor, Limits, Memory, Micros, Sum};
use param_space::Config;
use run_cache::{Cache, Cell, Known, Learnt};
use std::alloc::Global;

/// A cutoff of ten, and runs without a solution that cost a hundred.
pub(crate) fn limits() -> Limits {
    Limits {
        cutoff: Micros(10),
        factor: Factor::Ten,
        floor: Micros(1),
    }
}

/// The configuration with this value number at a place.
pub(crate) fn cell(alloc: Global, value: u16, place: u32) -> Result<Cell, Memory>
    ensures { IfOk result (λ c. c.place ≡ place) }
{
    Ok(Cell {
        config: Config::new(Vec::from_slice(alloc, &[value])?),
        place,
    })
}

/// Whether a run under this cutoff may give the answer.
fn may_show(limits: &Limits, cutoff: u64, answer: Answer) -> bool
    ensures cutoff { IsTrue result → IsCutoff limits.now cutoff }
    ensures within { IsTrue result → IsWithin answer cutoff }
{
    let is_cutoff = 1 <= cutoff && cutoff <= limits.cutoff.0;
    match answer {
        Answer::Solved(time) => is_cutoff && time.0 <= cutoff,
        _ => is_cutoff,
    }
}

/// Learns the answer, where the cell has a place and a run under this cutoff may give it.
pub(crate) fn learnt(
    cache: &mut Cache,
    cell: &Cell,
    cutoff: u64,
    answer: Answer,
) -> Option<Learnt> {
    if cache.has_place(cell) && may_show(cache.limits(), cutoff, answer) {
        Some(cache.learn(cell, Micros(cutoff), answer))
    } else {
        None
    }
}

/// Makes a place for the cell, and learns this of it.
pub(crate) fn know(cache: &mut Cache, cell: &Cell, known: Known) -> Result<(), Memory>
    requires first { 1 ≤ cell.now.place }
    requires last { cell.now.place ≤ max_runs }
{
    cache.reserve(cell)?;
    let _ = match known {
        Known::Nothing => None,
        Known::Over(cutoff) => learnt(cache, cell, cutoff.0, Answer::Timeout),
        Known::Exact(Sum(100)) => learnt(cache, cell, 10, Answer::Timeout),
        Known::Exact(cost) => learnt(cache, cell, cost.0, Answer::Solved(Micros(cost.0))),
        Known::Abort => learnt(cache, cell, 1, Answer::Abort),
    };
    Ok(())
}

/// What a run teaches: what was known of its cell, its cutoff and answer, and what is known then.
#[derive(Clone, Copy)]
struct Lesson {
    before: Known,
    cutoff: u64,
    answer: Answer,
    after: Known,
    learnt: Learnt,
}

/// Whether a cache learns this, and counts a conflict exactly where there is one.
fn is_learnt(alloc: Global, lesson: &Lesson) -> Result<bool, Memory> {
    let cell = cell(alloc, 0, 1)?;
    let mut cache = Cache::new(alloc, limits());
    know(&mut cache, &cell, lesson.before)?;
    let was = cache.known(&cell) == lesson.before && cache.conflicts() == 0;
    let learnt = learnt(&mut cache, &cell, lesson.cutoff, lesson.answer);
    let conflicts = if lesson.learnt == Learnt::Conflict {
        1
    } else {
        0
    };
    let is = cache.known(&cell) == lesson.after && cache.conflicts() == conflicts;
    Ok(was && is && learnt == Some(lesson.learnt))
}

#[test]
fn lessons(rt: HostRuntime) {
    for (name, before, cutoff, answer, after, learnt) in &[
        (
            "nothing, solved after 3 under 8",
            Known::Nothing,
            8,
            Answer::Solved(Micros(3)),
            Known::Exact(Sum(3)),
            Learnt::Fresh,
        ),
        (
            "nothing, timeout under 5",
            Known::Nothing,
            5,
            Answer::Timeout,
            Known::Over(Micros(5)),
            Learnt::Fresh,
        ),
        (
            "nothing, timeout under 10",
            Known::Nothing,
            10,
            Answer::Timeout,
            Known::Exact(Sum(100)),
            Learnt::Fresh,
        ),
        (
            "nothing, crash under 5",
            Known::Nothing,
            5,
            Answer::Crashed,
            Known::Exact(Sum(100)),
            Learnt::Fresh,
        ),
        (
            "nothing, abort under 5",
            Known::Nothing,
            5,
            Answer::Abort,
            Known::Abort,
            Learnt::Fresh,
        ),
        (
            "over 5, solved after 7 under 8",
            Known::Over(Micros(5)),
            8,
            Answer::Solved(Micros(7)),
            Known::Exact(Sum(7)),
            Learnt::Fresh,
        ),
        (
            "over 5, solved after 5 under 8",
            Known::Over(Micros(5)),
            8,
            Answer::Solved(Micros(5)),
            Known::Exact(Sum(5)),
            Learnt::Conflict,
        ),
        (
            "over 5, solved after 4 under 8",
            Known::Over(Micros(5)),
            8,
            Answer::Solved(Micros(4)),
            Known::Exact(Sum(4)),
            Learnt::Conflict,
        ),
        (
            "over 5, timeout under 8",
            Known::Over(Micros(5)),
            8,
            Answer::Timeout,
            Known::Over(Micros(8)),
            Learnt::Fresh,
        ),
        (
            "over 5, timeout under 5",
            Known::Over(Micros(5)),
            5,
            Answer::Timeout,
            Known::Over(Micros(5)),
            Learnt::Same,
        ),
        (
            "over 5, timeout under 3",
            Known::Over(Micros(5)),
            3,
            Answer::Timeout,
            Known::Over(Micros(5)),
            Learnt::Same,
        ),
        (
            "over 5, timeout under 10",
            Known::Over(Micros(5)),
            10,
            Answer::Timeout,
            Known::Exact(Sum(100)),
            Learnt::Fresh,
        ),
        (
            "over 5, crash under 8",
            Known::Over(Micros(5)),
            8,
            Answer::Crashed,
            Known::Exact(Sum(100)),
            Learnt::Fresh,
        ),
        (
            "over 5, abort under 8",
            Known::Over(Micros(5)),
            8,
            Answer::Abort,
            Known::Abort,
            Learnt::Fresh,
        ),
        (
            "exactly 6, solved after 6 under 8",
            Known::Exact(Sum(6)),
            8,
            Answer::Solved(Micros(6)),
            Known::Exact(Sum(6)),
            Learnt::Same,
        ),
        (
            "exactly 6, solved after 7 under 8",
            Known::Exact(Sum(6)),
            8,
            Answer::Solved(Micros(7)),
            Known::Exact(Sum(6)),
            Learnt::Conflict,
        ),
        (
            "exactly 6, timeout under 5",
            Known::Exact(Sum(6)),
            5,
            Answer::Timeout,
            Known::Exact(Sum(6)),
            Learnt::Same,
        ),
        (
            "exactly 6, timeout under 6",
            Known::Exact(Sum(6)),
            6,
            Answer::Timeout,
            Known::Exact(Sum(6)),
            Learnt::Conflict,
        ),
        (
            "exactly 6, timeout under 10",
            Known::Exact(Sum(6)),
            10,
            Answer::Timeout,
            Known::Exact(Sum(6)),
            Learnt::Conflict,
        ),
        (
            "exactly 6, crash under 8",
            Known::Exact(Sum(6)),
            8,
            Answer::Crashed,
            Known::Exact(Sum(6)),
            Learnt::Conflict,
        ),
        (
            "exactly 6, abort under 8",
            Known::Exact(Sum(6)),
            8,
            Answer::Abort,
            Known::Exact(Sum(6)),
            Learnt::Conflict,
        ),
        (
            "exactly 100, solved after 3 under 10",
            Known::Exact(Sum(100)),
            10,
            Answer::Solved(Micros(3)),
            Known::Exact(Sum(100)),
            Learnt::Conflict,
        ),
        (
            "exactly 100, timeout under 9",
            Known::Exact(Sum(100)),
            9,
            Answer::Timeout,
            Known::Exact(Sum(100)),
            Learnt::Same,
        ),
        (
            "exactly 100, timeout under 10",
            Known::Exact(Sum(100)),
            10,
            Answer::Timeout,
            Known::Exact(Sum(100)),
            Learnt::Same,
        ),
        (
            "exactly 100, crash under 8",
            Known::Exact(Sum(100)),
            8,
            Answer::Crashed,
            Known::Exact(Sum(100)),
            Learnt::Same,
        ),
        (
            "exactly 100, abort under 8",
            Known::Exact(Sum(100)),
            8,
            Answer::Abort,
            Known::Exact(Sum(100)),
            Learnt::Conflict,
        ),
        (
            "abort, solved after 3 under 8",
            Known::Abort,
            8,
            Answer::Solved(Micros(3)),
            Known::Abort,
            Learnt::Conflict,
        ),
        (
            "abort, crash under 8",
            Known::Abort,
            8,
            Answer::Crashed,
            Known::Abort,
            Learnt::Conflict,
        ),
        (
            "abort, timeout under 10",
            Known::Abort,
            10,
            Answer::Timeout,
            Known::Abort,
            Learnt::Conflict,
        ),
        (
            "abort, timeout under 8",
            Known::Abort,
            8,
            Answer::Timeout,
            Known::Abort,
            Learnt::Same,
        ),
        (
            "abort, abort under 8",
            Known::Abort,
            8,
            Answer::Abort,
            Known::Abort,
            Learnt::Same,
        ),
    ] {
        let lesson = Lesson {
            before: *before,
            cutoff: *cutoff,
            answer: *answer,
            after: *after,
            learnt: *learnt,
        };
        check(&rt, is_learnt(rt.alloc(), &lesson) == Ok(true), name);
    }
}
