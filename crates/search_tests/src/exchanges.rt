//! Neighbours by value and by number, and configurations that are settled.
ghost use Rattle.std.specs.Prelude.{◌≡◌, ◌∷◌, [], IsTrue, IfOk};
ghost use Rattle.param_space.specs.Space.{Belongs};

use crate::checks::check;
use neighbourhood::neighbours;
use objective::Memory;
use param_space::{Config, Space};
use std::alloc::Global;
use test_support::space_of;

/// The value numbers of these configurations, one after another.
fn numbers_of(alloc: Global, configs: &[Config]) -> Result<Vec<u16>, Memory> {
    let mut numbers = Vec::new(alloc);
    for config in configs {
        numbers.extend_from_slice(config.values())?;
    }
    Ok(numbers)
}

/// The neighbours of the defaults.
fn around_defaults(alloc: Global, space: &Space) -> Result<Vec<Config>, Memory> {
    let start = space.default_config()?;
    neighbours(alloc, space, &start)
}

/// Whether these are the neighbours of the defaults.
fn are_neighbours(alloc: Global, space: &Space, wanted: &[u16]) -> Result<bool, Memory> {
    match &around_defaults(alloc, space) {
        Ok(found) => Ok(numbers_of(alloc, found)?.as_slice() == wanted),
        Err(_) => Ok(false),
    }
}

/// Whether these are the neighbours of the defaults of the space of these lines.
fn are_around(alloc: Global, lines: &str, wanted: &[u16]) -> Result<bool, Memory> {
    match &space_of(alloc, lines) {
        Ok(space) => are_neighbours(alloc, space, wanted),
        Err(_) => Ok(false),
    }
}

#[test]
fn exchanges_each_value(rt: HostRuntime) {
    for (lines, wanted) in &[
        ("x {a, b} [a]\ny {1, 2, 3} [2]", [1, 1, 0, 0, 0, 2]),
        ("x {a, b} [b]\ny {1, 2, 3} [3]", [0, 2, 1, 0, 1, 1]),
        ("x {a, b} [b]\ny {1, 2, 3} [1]", [0, 0, 1, 1, 1, 2]),
    ] {
        let right = are_around(rt.alloc(), lines, wanted);
        check(&rt, matches!(right, Ok(true)), lines);
    }
}

/// Appends the conditions of a parameter: it depends on the up to four before it.
fn push_conditions(alloc: Global, k: u32, text: &mut String) -> Result<(), Memory> {
    for j in k.saturating_sub(4)..k {
        text.push_str(format!(in alloc; "p{k} | p{j} in {{0}}\n")?.as_str())?;
    }
    Ok(())
}

/// The lines of 256 parameters, each of which depends on those before it.
fn wide_chain(alloc: Global) -> Result<String, Memory> {
    let mut text = String::new(alloc);
    for k in 0..256 {
        text.push_str(format!(in alloc; "p{k} {{0, 1}} [0]\n")?.as_str())?;
        push_conditions(alloc, k, &mut text)?;
    }
    Ok(text)
}

/// Whether there are so many conditions, and neighbours of the defaults.
fn has_counts(alloc: Global, space: &Space, conditions: usize, neighbours: usize) -> bool {
    let right = space.conditions().len() == conditions;
    match &around_defaults(alloc, space) {
        Ok(found) => right && found.len() == neighbours,
        Err(_) => false,
    }
}

/// Whether the wide chain has 1,014 conditions, and the 256 neighbours of its defaults.
fn chain_is_wide(alloc: Global) -> Result<bool, Memory> {
    let lines = wide_chain(alloc)?;
    match &space_of(alloc, lines.as_str()) {
        Ok(space) => Ok(has_counts(alloc, space, 1014, 256)),
        Err(_) => Ok(false),
    }
}

#[test]
fn a_wide_chain_has_all_its_neighbours(rt: HostRuntime) {
    let right = chain_is_wide(rt.alloc());
    check(&rt, matches!(right, Ok(true)), "256 parameters");
}

/// Whether these are numbers of values of the two parameters x and y.
fn are_values(space: &Space, x: u16, y: u16) -> bool
    ensures { IsTrue result → Belongs space.now.params (x ∷ y ∷ []) }
{
    match space.params() {
        [first, second] => {
            usize::from(x) < first.values.as_slice().len()
                && usize::from(y) < second.values.as_slice().len()
        }
        _ => false,
    }
}

/// The configuration of these numbers of values of x and y.
fn config(alloc: Global, x: u16, y: u16) -> Result<Config, Memory>
    ensures { IfOk result (λ c. c ≡ x ∷ y ∷ []) }
{
    Ok(Config::new([x, y].to_vec(alloc)?))
}

/// Whether these are the neighbours of a configuration.
fn are_beside(alloc: Global, space: &Space, config: &Config, wanted: &[u16]) -> Result<bool, Memory>
    requires { Belongs space.now.params config.now }
{
    match &neighbours(alloc, space, config) {
        Ok(found) => Ok(numbers_of(alloc, found)?.as_slice() == wanted),
        Err(_) => Ok(false),
    }
}

/// Whether a configuration is settled to these numbers.
fn is_settled_to(space: &Space, config: &mut Config, wanted: &[u16]) -> bool
    requires { Belongs space.now.params config.old }
{
    space.settle(config);
    config.values() == wanted
}

/// A configuration by the numbers of its values of x and y, and the numbers that are wanted.
type Numbers<'a> = (u16, u16, &'a [u16]);

/// Whether a configuration has these neighbours.
fn has_neighbours(alloc: Global, space: &Space, numbers: Numbers<'_>) -> Result<bool, Memory> {
    let (x, y, wanted) = numbers;
    if !are_values(space, x, y) {
        return Ok(false);
    }
    are_beside(alloc, space, &config(alloc, x, y)?, wanted)
}

/// Whether a configuration is settled so.
fn settles(alloc: Global, space: &Space, numbers: Numbers<'_>) -> Result<bool, Memory> {
    let (x, y, wanted) = numbers;
    if !are_values(space, x, y) {
        return Ok(false);
    }
    Ok(is_settled_to(space, &mut config(alloc, x, y)?, wanted))
}

/// Whether a configuration of the space of these lines has these neighbours.
fn has_neighbours_in(alloc: Global, lines: &str, numbers: Numbers<'_>) -> Result<bool, Memory> {
    match &space_of(alloc, lines) {
        Ok(space) => has_neighbours(alloc, space, numbers),
        Err(_) => Ok(false),
    }
}

/// Whether a configuration of the space of these lines is settled so.
fn settles_in(alloc: Global, lines: &str, numbers: Numbers<'_>) -> Result<bool, Memory> {
    match &space_of(alloc, lines) {
        Ok(space) => settles(alloc, space, numbers),
        Err(_) => Ok(false),
    }
}

/// y is active where x is a.
const CONDITIONAL: &str = "x {a, b} [a]\ny {1, 2} [1]\ny | x in {a}";

/// x=b and y=1 don't stand together.
const FORBIDDEN: &str = "x {a, b} [a]\ny {1, 2} [1]\n{x=b, y=1}";

#[test]
fn exchanges_active_values_by_allowed_ones(rt: HostRuntime) {
    for (name, lines, numbers) in &[
        ("x=a y=2", CONDITIONAL, (0, 1, [1, 0, 0, 0].as_slice())),
        ("x=b", CONDITIONAL, (1, 0, [0, 0].as_slice())),
        ("x=a y=1", FORBIDDEN, (0, 0, [0, 1].as_slice())),
    ] {
        let right = has_neighbours_in(rt.alloc(), lines, *numbers);
        check(&rt, matches!(right, Ok(true)), name);
    }
}

#[test]
fn settles_inactive_values(rt: HostRuntime) {
    for (name, numbers) in &[
        ("x=b, y at 1", (1, 0, [1, 0].as_slice())),
        ("x=b, y at 2", (1, 1, [1, 0].as_slice())),
        ("x=a y=2", (0, 1, [0, 1].as_slice())),
    ] {
        let right = settles_in(rt.alloc(), CONDITIONAL, *numbers);
        check(&rt, matches!(right, Ok(true)), name);
    }
}
