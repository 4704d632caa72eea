//! Tunings of the toy. What they must print was computed apart from the program, from the
//! definitions of the draws, the uncapped procedure and the toy's outcomes.
use crate::checks::check;
use objective::Memory;
use std::alloc::Global;
use std::sync::Wait;
use std::thread::Threads;
use tuner::Status;
use tuning_harness::ran_toy;

/// Whether a tuning of the toy with this number, by these further words, prints this.
fn prints<R: Threads + Wait + Sync>(
    rt: &R,
    alloc: Global,
    number: u32,
    words: &str,
    printed: &str,
) -> Result<bool, Memory> {
    let ran = ran_toy(rt, alloc, number, words)?;
    Ok(ran.status == Status::Ok && ran.printed.as_slice() == printed.as_bytes())
}

/// Whether one worker and eight print this.
fn all_print<R: Threads + Wait + Sync>(
    rt: &R,
    alloc: Global,
    number: u32,
    words: &str,
    printed: &str,
) -> Result<bool, Memory> {
    let by_eight = format!(in alloc; "{words}|-workers|8")?;
    let is_printed = prints(rt, alloc, number, words, printed)?;
    Ok(is_printed && prints(rt, alloc, number, by_eight.as_str(), printed)?)
}

#[test]
fn toys_print_what_the_procedure_finds(rt: HostRuntime) {
    for (name, number, words, printed) in &[
        (
            "the toy 1",
            1,
            "",
            "0 0 0.000000 alpha=1.189 ps=0.1 rho=0.5 wp=0.03\n5 1 0.300000 alpha=1.256 ps=0.2 rho=0 wp=0.02\n35 32 33.544000 alpha=1.126 ps=0.166 rho=0.5 wp=0.01\n151 99 108.043000 alpha=1.256 ps=0.1 rho=0.333 wp=0.02\nend 500 100 109.964000 alpha=1.256 ps=0.1 rho=0.333 wp=0.02\n",
        ),
        (
            "the toy 2",
            2,
            "",
            "0 0 0.000000 alpha=1.189 ps=0.1 rho=0.5 wp=0.03\n2 1 1.080000 alpha=1.01 ps=0.166 rho=0.333 wp=0.05\n19 4 2.594000 alpha=1.01 ps=0.166 rho=0.333 wp=0.04\n27 21 23.238000 alpha=1.01 ps=0.166 rho=0.83 wp=0.04\n63 38 34.195000 alpha=1.256 ps=0.1 rho=0.83 wp=0\nend 500 100 97.206000 alpha=1.256 ps=0.1 rho=0.83 wp=0\n",
        ),
        (
            "the greatest number",
            4294967295,
            "",
            "0 0 0.000000 alpha=1.189 ps=0.1 rho=0.5 wp=0.03\n2 1 1.923000 alpha=1.066 ps=0.1 rho=1 wp=0.02\n14 4 4.839000 alpha=1.066 ps=0.033 rho=1 wp=0.02\n228 100 95.422000 alpha=1.066 ps=0.2 rho=1 wp=0.05\nend 500 100 95.422000 alpha=1.066 ps=0.2 rho=1 wp=0.05\n",
        ),
        (
            "BasicILS over ten pairs",
            7,
            "|-approach|basic|-N|10|-maxComparisons|100",
            "0 10 27.258000 alpha=1.189 ps=0.1 rho=0.5 wp=0.03\n1 10 17.138000 alpha=1.189 ps=0 rho=0.333 wp=0.06\n3 10 8.934000 alpha=1.189 ps=0.033 rho=0.333 wp=0.06\n71 10 8.506000 alpha=1.326 ps=0.033 rho=0.333 wp=0.04\nend 100 10 8.506000 alpha=1.326 ps=0.033 rho=0.333 wp=0.04\n",
        ),
        (
            "few pairs and short steps",
            5,
            "|-N|3|-maxComparisons|60|-s|1|-r|0",
            "0 0 0.000000 alpha=1.189 ps=0.1 rho=0.5 wp=0.03\n1 1 2.146000 alpha=1.189 ps=0.166 rho=0.5 wp=0.03\n7 3 3.391000 alpha=1.189 ps=0.166 rho=0.5 wp=0\n10 3 2.619000 alpha=1.189 ps=0.166 rho=1 wp=0\nend 60 3 2.619000 alpha=1.189 ps=0.166 rho=1 wp=0\n",
        ),
    ] {
        let right = all_print(&rt, rt.alloc(), *number, words, printed);
        check(&rt, matches!(right, Ok(true)), name);
    }
}
