//! Equal problems.
use crate::checks::check;
use crate::setups::{Setup, problem};
use objective::Memory;
use pool_core::Problem;
use std::alloc::Global;

/// The values of x and y.
const LINES: &str = "x {a, b} [a]\ny {c, d} [c]\ny | x in {b}\n{x=b, y=d}";

/// The setup that the others are compared with.
const SETUP: Setup<'_> = Setup {
    lines: LINES,
    letters: "34uu81",
    runs: 2,
    budget: 3,
};

/// Whether a problem and that of a setup are equal, asked both ways.
fn is_equal(alloc: Global, one: &Problem, setup: &Setup<'_>, workers: u32) -> Result<bool, Memory> {
    let other = problem(alloc, setup, workers)?;
    Ok(*one == other && other == *one)
}

/// Whether a problem is told from those that differ from it in their space.
fn tells_spaces(alloc: Global, one: &Problem) -> Result<bool, Memory> {
    let others = [
        "z {a, b} [a]\ny {c, d} [c]\ny | z in {b}\n{z=b, y=d}",
        "x {a, e} [a]\ny {c, d} [c]\ny | x in {e}\n{x=e, y=d}",
        "x {a, b} [b]\ny {c, d} [c]\ny | x in {b}\n{x=b, y=d}",
        "x {a, b} [a]\ny {c, d} [c]\ny | x in {a}\n{x=b, y=d}",
        "x {a, b} [a]\ny {c, d} [c]\ny | x in {b}\n{x=b, y=c}",
        "x {a, b} [a]\ny {c, d} [c]\ny | x in {b}",
    ];
    for lines in &others {
        let setup = Setup { lines, ..SETUP };
        if is_equal(alloc, one, &setup, 2)? {
            return Ok(false);
        }
    }
    Ok(true)
}

/// Whether a problem is told from those that differ from it in another field.
fn tells_fields(alloc: Global, one: &Problem) -> Result<bool, Memory> {
    let others = [
        (
            Setup {
                letters: "34uu82",
                ..SETUP
            },
            2,
        ),
        (Setup { runs: 3, ..SETUP }, 2),
        (Setup { budget: 4, ..SETUP }, 2),
        (SETUP, 3),
    ];
    for (setup, workers) in &others {
        if is_equal(alloc, one, setup, *workers)? {
            return Ok(false);
        }
    }
    Ok(true)
}

/// Whether a problem is equal to the same one alone.
fn is_told(alloc: Global, one: &Problem) -> Result<bool, Memory> {
    let same = is_equal(alloc, one, &SETUP, 2)?;
    Ok(same && tells_spaces(alloc, one)? && tells_fields(alloc, one)?)
}

/// Whether the problem of the setup is equal to the same one alone.
fn is_right(alloc: Global) -> Result<bool, Memory> {
    let one = problem(alloc, &SETUP, 2)?;
    is_told(alloc, &one)
}

#[test]
fn equal_problems(rt: HostRuntime) {
    let right = is_right(rt.alloc());
    check(&rt, matches!(right, Ok(true)), "problems");
}
