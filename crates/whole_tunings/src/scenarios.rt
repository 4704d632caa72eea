//! The default settings, the pairs that words and files ask for, inactive parameters, and a
//! usual scenario.
use crate::checks::check;
use objective::Memory;
use std::alloc::Global;
use std::sync::Wait;
use std::thread::Threads;
use tuner::Status;
use tuning_harness::{NONE, Tuning, WORDS, ran};

/// Whether a tuning is Ok and printed this.
fn has_printed(ran: &Tuning, printed: &str) -> bool {
    let right = ran.status == Status::Ok && ran.status.code() == 0;
    right && ran.printed.as_slice() == printed.as_bytes()
}

/// Whether a tuning is Ok and started so many children of the first seat alone, the first ones
/// with these words.
fn has_started(ran: &Tuning, count: usize, starts: &str) -> bool {
    let right = ran.status == Status::Ok && ran.started == count && ran.others == 0;
    right && ran.starts.as_str().starts_with(starts)
}

/// Whether a tuning by these words over these instances prints this.
fn is_printed<R: Threads + Wait + Sync>(
    rt: &R,
    alloc: Global,
    words: &str,
    instances: &str,
    printed: &str,
) -> Result<bool, Memory> {
    let ran = ran(rt, alloc, words, &[("i", instances.as_bytes())], &NONE)?;
    Ok(has_printed(&ran, printed))
}

/// Whether a tuning by these words over these instances starts these children.
fn is_started<R: Threads + Wait + Sync>(
    rt: &R,
    alloc: Global,
    words: &str,
    instances: &str,
    count: usize,
    starts: &str,
) -> Result<bool, Memory> {
    let ran = ran(rt, alloc, words, &[("i", instances.as_bytes())], &NONE)?;
    Ok(has_started(&ran, count, starts))
}

/// The words for two seats.
const TWO_SEATS: &str = "-scenariofile|s|-maxComparisons|0|-workers|2";

/// The words for five pairs of each comparison.
const FIVE: &str = "-scenariofile|s|-maxComparisons|0|-N|5";

/// The words for five pairs that are shuffled with the seed 42.
const SHUFFLED: &str = "-scenariofile|s|-maxComparisons|0|-N|5|-numRun|42|-pair_order|shuffled";

/// The words for runs that depend on no seed.
const DETERMINISTIC: &str = "-scenariofile|s|-maxComparisons|0|-N|5|-deterministic|1";

const DEFAULT: &str = "0 2 7.000000 x=a\nend 0 2 7.000000 x=a\n";

#[test]
fn tunings_print_their_lines(rt: HostRuntime) {
    for (name, words, instances, printed) in &[
        ("default settings", WORDS, "one\n", DEFAULT),
        ("two seats", TWO_SEATS, "one\n", DEFAULT),
        // The first pair isn't solved, and the child of the second crashes.
        (
            "pairs without a solution cost the cutoff",
            WORDS,
            "one uc\n",
            "0 2 20.000000 x=a\nend 0 2 20.000000 x=a\n",
        ),
        (
            "deterministic runs",
            DETERMINISTIC,
            "one\ntwo\n",
            "0 2 8.000000 x=a\nend 0 2 8.000000 x=a\n",
        ),
    ] {
        let right = is_printed(&rt, rt.alloc(), words, instances, printed);
        check(&rt, matches!(right, Ok(true)), name);
    }
}

const TWO_PAIRS: &str = "w one 0 10.000000 2147483647 1 -x a
w one 0 10.000000 2147483647 2 -x a
";

/// The children of one comparison: a on both pairs, and then b under what is left of a's 7
/// seconds, of which b's first pair takes 2.
const CAPPED: &str = "w one 0 10.000000 2147483647 1 -x a
w one 0 10.000000 2147483647 2 -x a
w one 0 7.000000 2147483647 1 -x b
w one 0 5.000000 2147483647 2 -x b
";

const IN_FILE_ORDER: &str = "w one 0 10.000000 2147483647 1 -x a
w two easy  one 10.000000 2147483647 2 -x a
w one 0 10.000000 2147483647 3 -x a
w two easy  one 10.000000 2147483647 4 -x a
w one 0 10.000000 2147483647 5 -x a
";

// For the seed 42, stream 1 has the words 4df1ccf9 e5838752 58ed9e10 f3e37b51 e7664374
// 6afde4a8. The first three in ascending order are the first, the third and the second, which
// is the order of the instances; the next three modulo 2^31 are 73e37b51 67664374 6afde4a8,
// the seeds of this round. Stream 3, of the second round, has 5f0a808f 3a3913fa 87716622
// 2b8a4bc2 f5467bed: the second, the first, the third, and the seeds 2b8a4bc2 75467bed.
const IN_SHUFFLED_ORDER: &str = "w one 0 10.000000 2147483647 1944288081 -x a
w three 0 10.000000 2147483647 1734755188 -x a
w two 0 10.000000 2147483647 1795024040 -x a
w two 0 10.000000 2147483647 730483650 -x a
w one 0 10.000000 2147483647 1967553517 -x a
";

/// Deterministic runs take each instance once.
const ONCE_EACH: &str = "w one 0 10.000000 2147483647 0 -x a
w two 0 10.000000 2147483647 0 -x a
";

#[test]
fn tunings_start_their_children(rt: HostRuntime) {
    for (name, words, instances, count, starts) in &[
        ("default settings", WORDS, "one\n", 2, TWO_PAIRS),
        (
            "due cutoffs",
            "-scenariofile|s|-maxComparisons|1",
            "one\n",
            4,
            CAPPED,
        ),
        (
            "pairs in file order",
            FIVE,
            "one\ntwo  easy  one \n",
            5,
            IN_FILE_ORDER,
        ),
        (
            "shuffled pairs",
            SHUFFLED,
            "one\ntwo\nthree",
            5,
            IN_SHUFFLED_ORDER,
        ),
        (
            "deterministic runs",
            DETERMINISTIC,
            "one\ntwo\n",
            2,
            ONCE_EACH,
        ),
    ] {
        let right = is_started(&rt, rt.alloc(), words, instances, *count, starts);
        check(&rt, matches!(right, Ok(true)), name);
    }
}

/// y is inactive where x is b, as it is at first; the forbidden clause is of no configuration
/// in which y is active.
const INACTIVE: &str =
    "x {a, b} [b]\ny {1, 2} [1]\nForbidden:\n{x=b, y=1}\nConditionals:\ny | x in {a}";

/// The same with y active at first.
const ACTIVE: &str =
    "x {a, b} [a]\ny {1, 2} [1]\nForbidden:\n{x=b, y=1}\nConditionals:\ny | x in {a}";

/// Whether a tuning over this parameter file prints this, and starts these two children.
fn is_passed_on<R: Threads + Wait + Sync>(
    rt: &R,
    alloc: Global,
    params: &str,
    printed: &str,
    starts: &str,
) -> Result<bool, Memory> {
    let files = [("p", params.as_bytes()), ("i", b"one 2222\n".as_slice())];
    let ran = ran(rt, alloc, WORDS, &files, &NONE)?;
    Ok(has_printed(&ran, printed) && has_started(&ran, 2, starts))
}

#[test]
fn inactive_parameters_are_not_passed_on(rt: HostRuntime) {
    for (params, printed, starts) in &[
        (
            INACTIVE,
            "0 2 4.000000 x=b\nend 0 2 4.000000 x=b\n",
            "w one 2222 10.000000 2147483647 1 -x b\nw one 2222 10.000000 2147483647 2 -x b\n",
        ),
        (
            ACTIVE,
            "0 2 4.000000 x=a y=1\nend 0 2 4.000000 x=a y=1\n",
            "w one 2222 10.000000 2147483647 1 -x a -y 1\nw one 2222 10.000000 2147483647 2 -x a -y 1\n",
        ),
    ] {
        let right = is_passed_on(&rt, rt.alloc(), params, printed, starts);
        check(&rt, matches!(right, Ok(true)), params);
    }
}

const DRAWN: &str =
    "algo = w\nparamfile = p\ninstance_file = i\ncutoff_time = 10\ncap_floor = 0.000001\napproach = basic\nN = 3\nr = 2\ns = 1\np_restart = 0.0100\npair_order = file\n";

/// The example of the README, with initial draws, restarts and several neighbours. Its wrapper
/// takes 1.25 and 4 seconds with the heuristic `first`, and 1.5 and 2 with `random`.
fn ten_are_printed<R: Threads + Wait + Sync>(rt: &R, alloc: Global) -> Result<bool, Memory> {
    let params = b"heuristic {first, random} [first]\nrestarts {0, 10, 100} [10]\n".as_slice();
    let files = [
        ("s", DRAWN.as_bytes()),
        ("p", params),
        ("i", b"easy qqhh\nhard 4422\n".as_slice()),
    ];
    let ran = ran(
        rt,
        alloc,
        "-scenariofile|s|-maxComparisons|10",
        &files,
        &NONE,
    )?;
    Ok(has_printed(
        &ran,
        "0 3 6.500000 heuristic=first restarts=10\n8 3 5.000000 heuristic=random restarts=100\nend 10 3 5.000000 heuristic=random restarts=100\n",
    ))
}

#[test]
fn ten_comparisons_find_the_random_heuristic(rt: HostRuntime) {
    let right = ten_are_printed(&rt, rt.alloc());
    check(&rt, matches!(right, Ok(true)), "ten comparisons");
}

/// The words for one comparison of the usual scenario.
const USUAL_SAPS: &str = "-scenariofile|saps|-maxComparisons|1|-numRun|1|-pair_order|file";

/// The same by BasicILS.
const BASIC_SAPS: &str =
    "-scenariofile|saps|-maxComparisons|1|-numRun|1|-pair_order|file|-approach|basic";

/// A scenario as the quickstart guide of ParamILS has it.
const SAPS: &str = "algo = ruby saps_wrapper.rb
execdir = example_saps
deterministic = 0
run_obj = runtime
overall_obj = mean10
cutoff_time = 5.0
cutoff_length = max
tunerTimeout = 300
paramfile = p
outdir = out
instance_file = i
test_instance_file = t
";

/// The parameters of the solver SAPS.
const SAPS_PARAMS: &str = "alpha {1.01, 1.066, 1.126, 1.189, 1.256, 1.326, 1.4} [1.189]
ps {0, 0.033, 0.066, 0.1, 0.133, 0.166, 0.2} [0.1]
rho {0, 0.17, 0.333, 0.5, 0.666, 0.83, 1} [0.5]
wp {0, 0.01, 0.02, 0.03, 0.04, 0.05, 0.06} [0.03]
";

const SAPS_INSTANCES: &str = "cnf/a.cnf\ncnf/b.cnf\n";

/// The same, with children that take a second each.
const SAPS_SECONDS: &str = "cnf/a.cnf 1111\ncnf/b.cnf 1111\n";

/// A tuning by these words of the usual scenario over these instances. There is no file of test
/// instances.
fn ran_usual<R: Threads + Wait + Sync>(
    rt: &R,
    alloc: Global,
    words: &str,
    instances: &str,
) -> Result<Tuning, Memory> {
    let files = [
        ("saps", SAPS.as_bytes()),
        ("p", SAPS_PARAMS.as_bytes()),
        ("i", instances.as_bytes()),
    ];
    ran(rt, alloc, words, &files, &NONE)
}

/// Whether each line names this folder.
fn are_all_in(folders: &str, folder: &str) -> bool {
    for line in folders.lines() {
        if line != folder {
            return false;
        }
    }
    true
}

/// Whether one comparison of the usual scenario over these instances is printed, so many children
/// are started in its folder, and no read failed.
fn usual_is_read<R: Threads + Wait + Sync>(
    rt: &R,
    alloc: Global,
    words: &str,
    instances: &str,
    printed: &str,
    starts: usize,
    first: &str,
) -> Result<bool, Memory> {
    let ran = ran_usual(rt, alloc, words, instances)?;
    let right = has_printed(&ran, printed) && has_started(&ran, starts, first);
    Ok(right && are_all_in(ran.folders.as_str(), "example_saps") && ran.unread == 0)
}

#[test]
fn a_usual_scenario_is_read_as_it_stands(rt: HostRuntime) {
    // By FocusedILS the default settings and those that are drawn for the comparison tie on one
    // run, and get two more each; the first run takes 3 seconds, and each other one 4. By
    // BasicILS they have 100 runs each, and tie.
    for (words, instances, printed, starts, first) in &[
        (
            USUAL_SAPS,
            SAPS_INSTANCES,
            "0 0 0.000000 alpha=1.189 ps=0.1 rho=0.5 wp=0.03\nend 1 3 11.000000 alpha=1.189 ps=0.1 rho=0.5 wp=0.03\n",
            6,
            "ruby saps_wrapper.rb cnf/a.cnf 0 5.000000 2147483647 1 -alpha 1.189 -ps 0.1 -rho 0.5 -wp 0.03\n",
        ),
        (
            BASIC_SAPS,
            SAPS_INSTANCES,
            "0 100 399.000000 alpha=1.189 ps=0.1 rho=0.5 wp=0.03\nend 1 100 399.000000 alpha=1.189 ps=0.1 rho=0.5 wp=0.03\n",
            200,
            "ruby saps_wrapper.rb cnf/a.cnf 0 5.000000 2147483647 1 -alpha 1.189 -ps 0.1 -rho 0.5 -wp 0.03\n",
        ),
        (
            BASIC_SAPS,
            SAPS_SECONDS,
            "0 100 100.000000 alpha=1.189 ps=0.1 rho=0.5 wp=0.03\nend 1 100 100.000000 alpha=1.189 ps=0.1 rho=0.5 wp=0.03\n",
            200,
            "ruby saps_wrapper.rb cnf/a.cnf 1111 5.000000 2147483647 1 -alpha 1.189 -ps 0.1 -rho 0.5 -wp 0.03\n",
        ),
        (
            USUAL_SAPS,
            SAPS_SECONDS,
            "0 0 0.000000 alpha=1.189 ps=0.1 rho=0.5 wp=0.03\nend 1 3 3.000000 alpha=1.189 ps=0.1 rho=0.5 wp=0.03\n",
            6,
            "ruby saps_wrapper.rb cnf/a.cnf 1111 5.000000 2147483647 1 -alpha 1.189 -ps 0.1 -rho 0.5 -wp 0.03\n",
        ),
    ] {
        let right = usual_is_read(&rt, rt.alloc(), words, instances, printed, *starts, first);
        check(&rt, matches!(right, Ok(true)), printed);
    }
}
