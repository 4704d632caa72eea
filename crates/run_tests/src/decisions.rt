//! What is decided of an ask by what is known.
ghost use Rattle.std.specs.Prelude.{◌≡◌, IfOk};
ghost use Rattle.capping.specs.Decisions.{place_count};

use crate::checks::check;
use crate::lessons::{cell, know, limits};
use capping::{Verdict, decide};
use ils_face::{Ask, Reply};
use objective::{Memory, Micros, Sum};
use run_cache::{Cache, Known};
use std::alloc::Global;

/// An ask of two places, in full or up to a bound.
pub(crate) fn ask_of(alloc: Global, bound: Option<u64>) -> Result<Ask, Memory>
    ensures { IfOk result (λ ask. place_count ask ≡ 2) }
{
    let config = cell(alloc, 0, 1)?.config;
    Ok(match bound {
        None => Ask::Full { config, n: 2 },
        Some(bound) => Ask::Versus {
            config,
            n: 2,
            bound: Sum(bound),
        },
    })
}

/// Whether two verdicts are the same.
pub(crate) fn is_same(left: &Verdict, right: &Verdict) -> bool {
    match (left, right) {
        (Verdict::Reply(Reply::Exact(x)), Verdict::Reply(Reply::Exact(y))) => x == y,
        (Verdict::Reply(Reply::Exceeds), Verdict::Reply(Reply::Exceeds)) => true,
        (
            Verdict::Need { place, cutoff },
            Verdict::Need {
                place: p,
                cutoff: c,
            },
        ) => { place == p && cutoff == c }
        (Verdict::Aborted { place }, Verdict::Aborted { place: p }) => place == p,
        (Verdict::Ended, Verdict::Ended) => true,
        _ => false,
    }
}

/// Whether this is decided, where this is known of the two places.
fn is_decided(
    alloc: Global,
    bound: Option<u64>,
    first: Known,
    second: Known,
    verdict: &Verdict,
) -> Result<bool, Memory> {
    let mut cache = Cache::new(alloc, limits());
    know(&mut cache, &cell(alloc, 0, 1)?, first)?;
    know(&mut cache, &cell(alloc, 0, 2)?, second)?;
    Ok(is_same(&decide(&cache, &ask_of(alloc, bound)?), verdict))
}

#[test]
fn decisions(rt: HostRuntime) {
    for (name, bound, first, second, verdict) in &[
        (
            "in full, nothing known",
            None,
            Known::Nothing,
            Known::Nothing,
            Verdict::Need {
                place: 1,
                cutoff: Micros(10),
            },
        ),
        (
            "in full, one cost",
            None,
            Known::Exact(Sum(3)),
            Known::Nothing,
            Verdict::Need {
                place: 2,
                cutoff: Micros(10),
            },
        ),
        (
            "in full, both costs",
            None,
            Known::Exact(Sum(3)),
            Known::Exact(Sum(4)),
            Verdict::Reply(Reply::Exact(Sum(7))),
        ),
        (
            "in full, a short timeout",
            None,
            Known::Over(Micros(5)),
            Known::Nothing,
            Verdict::Need {
                place: 1,
                cutoff: Micros(10),
            },
        ),
        (
            "in full, a penalty",
            None,
            Known::Exact(Sum(100)),
            Known::Exact(Sum(4)),
            Verdict::Reply(Reply::Exact(Sum(104))),
        ),
        (
            "in full, an abort",
            None,
            Known::Exact(Sum(3)),
            Known::Abort,
            Verdict::Aborted { place: 2 },
        ),
        (
            "nothing known",
            Some(7),
            Known::Nothing,
            Known::Nothing,
            Verdict::Need {
                place: 1,
                cutoff: Micros(7),
            },
        ),
        (
            "what is left",
            Some(7),
            Known::Exact(Sum(2)),
            Known::Nothing,
            Verdict::Need {
                place: 2,
                cutoff: Micros(5),
            },
        ),
        (
            "a tie",
            Some(7),
            Known::Exact(Sum(2)),
            Known::Exact(Sum(5)),
            Verdict::Reply(Reply::Exact(Sum(7))),
        ),
        (
            "over what is left",
            Some(7),
            Known::Exact(Sum(2)),
            Known::Over(Micros(5)),
            Verdict::Reply(Reply::Exceeds),
        ),
        (
            "not over what is left",
            Some(7),
            Known::Exact(Sum(2)),
            Known::Over(Micros(4)),
            Verdict::Need {
                place: 2,
                cutoff: Micros(5),
            },
        ),
        (
            "over the bound",
            Some(7),
            Known::Exact(Sum(8)),
            Known::Nothing,
            Verdict::Reply(Reply::Exceeds),
        ),
        (
            "nothing left",
            Some(7),
            Known::Exact(Sum(7)),
            Known::Nothing,
            Verdict::Need {
                place: 2,
                cutoff: Micros(1),
            },
        ),
        (
            "nothing left, over the floor",
            Some(7),
            Known::Exact(Sum(7)),
            Known::Over(Micros(1)),
            Verdict::Reply(Reply::Exceeds),
        ),
        (
            "an abort",
            Some(7),
            Known::Abort,
            Known::Nothing,
            Verdict::Aborted { place: 1 },
        ),
        (
            "a later abort",
            Some(7),
            Known::Exact(Sum(2)),
            Known::Abort,
            Verdict::Aborted { place: 2 },
        ),
        (
            "over the bound before an abort",
            Some(7),
            Known::Exact(Sum(8)),
            Known::Abort,
            Verdict::Reply(Reply::Exceeds),
        ),
        (
            "more than a cutoff left",
            Some(50),
            Known::Nothing,
            Known::Nothing,
            Verdict::Need {
                place: 1,
                cutoff: Micros(10),
            },
        ),
        (
            "a penalty over the bound",
            Some(50),
            Known::Exact(Sum(100)),
            Known::Nothing,
            Verdict::Reply(Reply::Exceeds),
        ),
        (
            "a penalty at the bound",
            Some(100),
            Known::Exact(Sum(100)),
            Known::Nothing,
            Verdict::Need {
                place: 2,
                cutoff: Micros(1),
            },
        ),
    ] {
        let right = is_decided(rt.alloc(), *bound, *first, *second, verdict);
        check(&rt, right == Ok(true), name);
    }
    let ended = decide(&Cache::new(rt.alloc(), limits()), &Ask::End);
    check(&rt, is_same(&ended, &Verdict::Ended), "the end");
}
