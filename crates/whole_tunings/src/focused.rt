//! Searches by FocusedILS.
use crate::checks::check;
use objective::Memory;
use std::alloc::Global;
use std::sync::Wait;
use std::thread::Threads;
use tuner::Status;
use tuning_harness::{NONE, Tuning, ran};

/// Two values of one parameter, and one.
const TWO_VALUES: &str = "x {a, b} [a]\n";

const ONE_VALUE: &str = "x {a} [a]\n";

/// A tuning by these words, of these parameters over these instances.
fn tuned<R: Threads + Wait + Sync>(
    rt: &R,
    alloc: Global,
    words: &str,
    params: &str,
    instances: &str,
) -> Result<Tuning, Memory> {
    let words = format!(in alloc;
        "-scenariofile|s|-approach|focused|-N|10|-maxComparisons|{words}"
    )?;
    let files = [("p", params.as_bytes()), ("i", instances.as_bytes())];
    ran(rt, alloc, words.as_str(), &files, &NONE)
}

/// Whether a tuning is Ok and printed this.
fn has_printed(ran: &Tuning, printed: &str) -> bool {
    ran.status == Status::Ok && ran.printed.as_slice() == printed.as_bytes()
}

/// Whether a tuning by these words, of these parameters over these instances, prints this and
/// starts these children.
fn is_tuned<R: Threads + Wait + Sync>(
    rt: &R,
    alloc: Global,
    words: &str,
    params: &str,
    instances: &str,
    printed: &str,
    cells: &str,
) -> Result<bool, Memory> {
    let ran = tuned(rt, alloc, words, params, instances)?;
    Ok(has_printed(&ran, printed) && ran.cells.as_str() == cells)
}

#[test]
fn configurations_get_as_many_runs_as_they_are_worth(rt: HostRuntime) {
    for (name, words, params, instances, printed, cells) in &[
        (
            "a loses nothing, and its bonus grows",
            "3",
            TWO_VALUES,
            "one 1122\n",
            "0 0 0.000000 x=a\nend 3 6 6.000000 x=a\n",
            "a1@10.000000 b1@1.000000 a2@10.000000 b1@10.000000 b2@10.000000 a3@10.000000 a4@10.000000 a5@10.000000 a6@10.000000 ",
        ),
        (
            "five comparisons",
            "5",
            TWO_VALUES,
            "one 1122\n",
            "0 0 0.000000 x=a\nend 5 10 10.000000 x=a\n",
            "a1@10.000000 b1@1.000000 a2@10.000000 b1@10.000000 b2@10.000000 a3@10.000000 a4@10.000000 a5@10.000000 a6@10.000000 a7@10.000000 a8@10.000000 a9@10.000000 a10@10.000000 b3@0.000001 ",
        ),
        (
            "b wins on its first run, and gets two more",
            "1",
            TWO_VALUES,
            "one 3322\n",
            "0 0 0.000000 x=a\n1 1 2.000000 x=b\nend 1 3 6.000000 x=b\n",
            "a1@10.000000 b1@3.000000 b2@10.000000 b3@10.000000 ",
        ),
        (
            "one configuration, compared with itself",
            "1",
            ONE_VALUE,
            "one 1111\n",
            "0 0 0.000000 x=a\nend 1 3 3.000000 x=a\n",
            "a1@10.000000 a2@10.000000 a3@10.000000 ",
        ),
    ] {
        let right = is_tuned(&rt, rt.alloc(), words, params, instances, printed, cells);
        check(&rt, matches!(right, Ok(true)), name);
    }
}

/// Whether twenty comparisons of a deterministic solver start it once on each of two instances,
/// both times with the seed 0.
fn is_started_once_each<R: Threads + Wait + Sync>(rt: &R, alloc: Global) -> Result<bool, Memory> {
    let words = "20|-deterministic|1";
    let ran = tuned(rt, alloc, words, ONE_VALUE, "one 1111\ntwo 2222\n")?;
    let right = has_printed(&ran, "0 0 0.000000 x=a\nend 20 2 3.000000 x=a\n");
    let starts = "w one 1111 10.000000 2147483647 0 -x a\nw two 2222 10.000000 2147483647 0 -x a\n";
    Ok(right && ran.starts.as_str() == starts)
}

#[test]
fn a_deterministic_solver_is_started_once_on_each_instance(rt: HostRuntime) {
    let right = is_started_once_each(&rt, rt.alloc());
    check(&rt, matches!(right, Ok(true)), "two instances");
}
