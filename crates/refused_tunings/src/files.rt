//! Files that can't be read or have a fault, by the line that is printed.
use crate::checks::check;
use objective::Memory;
use std::alloc::Global;
use std::sync::Wait;
use std::thread::Threads;
use tuner::{FileKind, Status};
use tuning_harness::{Faults, File, NONE, SCENARIO, Tuning, WORDS, ran, ran_alone};

/// Whether a tuning ended with this code, and printed this line.
fn is_refused(ran: &Tuning, code: u8, line: &str) -> bool {
    ran.status.code() == code && ran.printed.as_slice() == line.as_bytes()
}

/// Whether a tuning over the usual files and these, of which this read fails, is refused so.
fn is_refused_over<R: Threads + Wait + Sync>(
    rt: &R,
    alloc: Global,
    files: &[File<'_>],
    read: u32,
    code: u8,
    line: &str,
) -> Result<bool, Memory> {
    let ran = ran(rt, alloc, WORDS, files, &Faults { read, ..NONE })?;
    Ok(is_refused(&ran, code, line))
}

#[test]
fn reads_that_fail_are_named(rt: HostRuntime) {
    for (read, line) in &[
        (1, "readfault s\n"),
        (2, "readfault p\n"),
        (3, "readfault i\n"),
    ] {
        let right = is_refused_over(&rt, rt.alloc(), &[], *read, 4, line);
        check(&rt, matches!(right, Ok(true)), line);
    }
}

/// Whether the parameter file is named where there is only a scenario file.
fn missing_is_named<R: Threads + Wait + Sync>(rt: &R, alloc: Global) -> Result<bool, Memory> {
    let ran = ran_alone(rt, alloc, WORDS, &[("s", SCENARIO.as_bytes())])?;
    Ok(is_refused(&ran, 4, "readfault p\n"))
}

#[test]
fn a_missing_file_is_named(rt: HostRuntime) {
    let right = missing_is_named(&rt, rt.alloc());
    check(&rt, matches!(right, Ok(true)), "p");
}

#[test]
fn files_that_have_a_fault_are_named(rt: HostRuntime) {
    for (name, bytes, line) in &[
        ("s", b"".as_slice(), "badfile s 0 Missing\n"),
        ("s", b"# \xff\n".as_slice(), "badfile s 1 NotText\n"),
        (
            "p",
            b"x {a} [a]\n\xc3\n".as_slice(),
            "badfile p 2 NotText\n",
        ),
        ("i", b"".as_slice(), "badfile i 0 NoInstances\n"),
        ("i", b" \n\t\n".as_slice(), "badfile i 0 NoInstances\n"),
        (
            "i",
            b"one\n\ntwo \x80\n".as_slice(),
            "badfile i 3 NotText\n",
        ),
    ] {
        let files = [(*name, *bytes)];
        let right = is_refused_over(&rt, rt.alloc(), &files, 0, 3, line);
        check(&rt, matches!(right, Ok(true)), line);
    }
}

/// Whether a tuning of this parameter file, of which this read fails, is refused by this line.
fn is_refused_by<R: Threads + Wait + Sync>(
    rt: &R,
    alloc: Global,
    params: &str,
    read: u32,
    line: &str,
) -> Result<bool, Memory> {
    is_refused_over(rt, alloc, &[("p", params.as_bytes())], read, 3, line)
}

#[test]
fn parameter_files_that_have_a_fault_are_named(rt: HostRuntime) {
    for (params, read, line) in &[
        ("", 0, "badfile p 0 NoParameters\n"),
        // The instance file, whose read fails, comes later.
        ("", 3, "badfile p 0 NoParameters\n"),
        ("x {a, b} [c]\n", 0, "badfile p 1 BadDefault\n"),
        (
            "x {a, b} [a]\ny {1, 2} [1]\n{x=a, y=1}\n",
            0,
            "badfile p 3 DefaultForbidden\n",
        ),
        (
            "x {a, b} [a]\ny {1, 2} [1]\nx | y in {1}\ny | x in {a}\n",
            0,
            "badfile p 3 Cycle\n",
        ),
        (
            "x {a, b} [a]\ny {1, 2} [1]\n# 3\n\nz | x in {a}\n",
            0,
            "badfile p 5 UnknownName\n",
        ),
        (
            "x {a, b} [a]\ny {1, 2} [1]\nx in {a}\n",
            0,
            "badfile p 3 Form\n",
        ),
    ] {
        let right = is_refused_by(&rt, rt.alloc(), params, *read, line);
        check(&rt, matches!(right, Ok(true)), line);
    }
}

/// Whether a tuning of this scenario is refused by this line.
fn is_refused_with<R: Threads + Wait + Sync>(
    rt: &R,
    alloc: Global,
    scenario: &str,
    line: &str,
) -> Result<bool, Memory> {
    is_refused_over(rt, alloc, &[("s", scenario.as_bytes())], 0, 3, line)
}

/// Whether a tuning of the usual scenario and one more line is refused by this line.
fn is_refused_after<R: Threads + Wait + Sync>(
    rt: &R,
    alloc: Global,
    last: &str,
    line: &str,
) -> Result<bool, Memory> {
    let scenario = format!(in alloc; "{SCENARIO}{last}\n")?;
    is_refused_with(rt, alloc, scenario.as_str(), line)
}

#[test]
fn further_lines_of_a_scenario_are_named(rt: HostRuntime) {
    for (last, line) in &[
        ("speed = 3", "badfile s 12 UnknownKey\n"),
        ("N = 2", "badfile s 12 Twice\n"),
        ("N", "badfile s 12 NoEquals\n"),
        ("workers = two # seats", "badfile s 12 BadValue\n"),
    ] {
        let right = is_refused_after(&rt, rt.alloc(), last, line);
        check(&rt, matches!(right, Ok(true)), line);
    }
}

#[test]
fn faults_of_scenarios_are_named(rt: HostRuntime) {
    let headless = match SCENARIO.split_once('\n') {
        Some((_, rest)) => rest,
        None => "",
    };
    for (scenario, line) in &[
        (headless, "badfile s 0 Missing\n"),
        (
            "algo = w\nparamfile = p\ninstance_file = i\ncutoff_time = 0\n",
            "badfile s 4 OutOfRange\n",
        ),
    ] {
        let right = is_refused_with(&rt, rt.alloc(), scenario, line);
        check(&rt, matches!(right, Ok(true)), line);
    }
}

/// The lines of so many parameters with the values 0 and 1.
fn many_params(alloc: Global, count: u32) -> Result<String, Memory> {
    let mut text = String::new(alloc);
    for k in 0..count {
        text.push_str(format!(in alloc; "p{k} {{0, 1}} [0]\n")?.as_str())?;
    }
    Ok(text)
}

/// Whether a tuning over this parameter file is refused with this line and printed line.
fn is_refused_at<R: Threads + Wait + Sync>(
    rt: &R,
    alloc: Global,
    params: &str,
    at: u32,
    printed: &str,
) -> Result<bool, Memory> {
    let ran = ran(rt, alloc, WORDS, &[("p", params.as_bytes())], &NONE)?;
    let right = match &ran.status {
        Status::BadFile { kind, line, .. } => *kind == FileKind::Params && *line == at,
        _ => false,
    };
    Ok(right && is_refused(&ran, 3, printed))
}

/// Whether 257 parameters are refused as too many.
fn are_too_many<R: Threads + Wait + Sync>(rt: &R, alloc: Global) -> Result<bool, Memory> {
    let text = many_params(alloc, 257)?;
    is_refused_at(rt, alloc, text.as_str(), 257, "badfile p 257 TooMany\n")
}

#[test]
fn too_many_parameters_are_refused(rt: HostRuntime) {
    let right = are_too_many(&rt, rt.alloc());
    check(&rt, matches!(right, Ok(true)), "257 parameters");
}
