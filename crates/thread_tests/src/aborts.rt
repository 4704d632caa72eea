//! Children that abort, by one seat and by four: in a run that the search needs, and in one that was made
//! ahead, which ends the tuning only where the search comes to it.
use crate::checks::check;
use crate::plan::Plan;
use crate::tunings::tuned;
use objective::Memory;
use std::alloc::Global;
use std::rt::Clock;
use std::sync::Wait;
use std::thread::Threads;

/// A tuning in which a child aborts.
struct Row {
    /// What it shows.
    name: &'static str,
    answers: &'static str,
    words: &'static str,
    code: u8,
    printed: &'static str,
    /// What one seat starts.
    alone: &'static str,
    /// What four seats start.
    beside: &'static str,
}

/// What is printed where b loses its comparison with a.
const LOST: &str = "0 2 7.000000 x=a\nend 1 2 7.000000 x=a\n";

/// The rows. `x` aborts after a second and `l` after eight.
const ROWS: &[Row] = &[
    Row {
        name: "past the cutoff",
        answers: "34l1",
        words: "-maxComparisons|1",
        code: 0,
        printed: LOST,
        alone: "a1@10.000000 a2@10.000000 b1@7.000000 ",
        beside: "a1@10.000000 a2@10.000000 b1@7.000000 b2@7.000000 ",
    },
    Row {
        name: "ahead, and never needed",
        answers: "348x",
        words: "-maxComparisons|1",
        code: 0,
        printed: LOST,
        alone: "a1@10.000000 a2@10.000000 b1@7.000000 ",
        beside: "a1@10.000000 a2@10.000000 b1@7.000000 b2@7.000000 ",
    },
    Row {
        name: "ahead, and needed by the same comparison",
        answers: "341x",
        words: "-maxComparisons|1",
        code: 6,
        printed: "0 2 7.000000 x=a\naborted 2 x=b\n",
        alone: "a1@10.000000 a2@10.000000 b1@7.000000 b2@6.000000 ",
        beside: "a1@10.000000 a2@10.000000 b1@7.000000 b2@7.000000 ",
    },
    Row {
        name: "ahead, and needed by a later comparison",
        answers: "348x",
        words: "-maxComparisons|2",
        code: 6,
        printed: "0 2 7.000000 x=a\naborted 2 x=b\n",
        alone: "a1@10.000000 a2@10.000000 b1@10.000000 b1@7.000000 b2@10.000000 ",
        beside: "a1@10.000000 a2@10.000000 b1@10.000000 b1@7.000000 b2@10.000000 ",
    },
    Row {
        name: "ahead, in the opening",
        answers: "3x29",
        words: "-maxComparisons|0",
        code: 6,
        printed: "aborted 2 x=a\n",
        alone: "a1@10.000000 a2@10.000000 ",
        beside: "a1@10.000000 a2@10.000000 ",
    },
    Row {
        name: "needed, in the opening",
        answers: "x429",
        words: "-maxComparisons|0",
        code: 6,
        printed: "aborted 1 x=a\n",
        alone: "a1@10.000000 ",
        beside: "a1@10.000000 a2@10.000000 ",
    },
    Row {
        name: "needed, in a comparison",
        answers: "54l1",
        words: "-maxComparisons|1",
        code: 6,
        printed: "0 2 9.000000 x=a\naborted 1 x=b\n",
        alone: "a1@10.000000 a2@10.000000 b1@9.000000 ",
        beside: "a1@10.000000 a2@10.000000 b1@9.000000 b2@9.000000 ",
    },
];

/// Whether one seat and four end as the row says. The runs that four seats make ahead end first.
fn is_right<R: Threads + Wait + Sync + Clock>(
    rt: &R,
    alloc: Global,
    row: &Row,
) -> Result<bool, Memory> {
    let one = tuned(rt, alloc, Plan::Free, 1, row.words, row.answers)?;
    let four = tuned(rt, alloc, Plan::SecondFirst, 4, row.words, row.answers)?;
    let right = one.is(row.code, row.printed, row.alone);
    Ok(right && four.is(row.code, row.printed, row.beside))
}

#[test]
fn a_child_that_aborts_ends_the_tuning_where_it_is_needed(rt: HostRuntime) {
    for row in ROWS {
        let right = is_right(&rt, rt.alloc(), row);
        check(&rt, matches!(right, Ok(true)), row.name);
    }
}
