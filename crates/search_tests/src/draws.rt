//! The streams of the seed 42, by value. The words are those of PCG's reference code.
use crate::checks::check;
use objective::Memory;
use param_space::Space;
use seeded_order::Draws;
use std::alloc::Global;
use test_support::space_of;

#[test]
fn draws_words(rt: HostRuntime) {
    for (name, k, word) in &[
        ("first", 0, 0xa15c02b7),
        ("second", 1, 0x7b47f409),
        ("third", 2, 0xba1d3330),
        ("fourth", 3, 0x83d2f293),
    ] {
        check(&rt, Draws::new(42).word(54, *k) == *word, name);
    }
}

#[test]
fn tosses_coins(rt: HostRuntime) {
    for (name, part, wanted) in &[
        ("100 of 10,000", 100, false),
        ("1783 of 10,000", 1783, false),
        ("1784 of 10,000", 1784, true),
    ] {
        check(&rt, Draws::new(42).coin(54, *part) == *wanted, name);
    }
}

/// Whether this is the order that stream 54 draws of three numbers.
fn is_order(alloc: Global, wanted: &[u32]) -> Result<bool, Memory> {
    let order = Draws::new(42).order(alloc, 54, 3)?;
    Ok(order.as_slice() == wanted)
}

#[test]
fn draws_an_order_and_one_number(rt: HostRuntime) {
    let right = is_order(rt.alloc(), &[1, 0, 2]);
    check(&rt, matches!(right, Ok(true)), "order");
    check(&rt, Draws::new(42).one_of(54, 10) == 3, "number");
}

/// Whether stream 54 draws the configuration of these value numbers.
fn is_drawn(alloc: Global, space: &Space, wanted: &[u16]) -> Result<bool, Memory> {
    let config = Draws::new(42).random_config(alloc, 54, space)?;
    Ok(config.values() == wanted)
}

/// Whether stream 54 draws these value numbers of the space of these lines.
fn is_drawn_of(alloc: Global, lines: &str, wanted: &[u16]) -> Result<bool, Memory> {
    match &space_of(alloc, lines) {
        Ok(space) => is_drawn(alloc, space, wanted),
        Err(_) => Ok(false),
    }
}

#[test]
fn draws_a_configuration(rt: HostRuntime) {
    let lines = "x {a, b, c} [a]\ny {1, 2} [1]";
    let right = is_drawn_of(rt.alloc(), lines, &[0, 1]);
    check(&rt, matches!(right, Ok(true)), lines);
}
