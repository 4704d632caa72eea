//! Instance files and their first faults, and pairs by value. The words of the draws are
//! those of PCG's reference code.
ghost use Rattle.std.specs.Prelude.{◌≤◌};

use crate::checks::{check, check_bytes};
use instance_pairs::{Instance, InstanceFault, InstanceWhat, Pairs, read_instances};
use objective::Memory;
use scenario_files::PairOrder;
use std::alloc::Global;

/// The instances in brackets, each with its specifics.
fn instances_text(alloc: Global, instances: &[Instance]) -> Result<String, Memory> {
    let mut text = String::new(alloc);
    for instance in instances {
        let (name, specifics) = (instance.name.as_str(), instance.specifics.as_str());
        text.push_str(format!(in alloc; "[{name}|{specifics}]")?.as_str())?;
    }
    Ok(text)
}

/// Whether these instances are read.
fn is_read_as(alloc: Global, file: &str, wanted: &str) -> Result<bool, Memory> {
    match &read_instances(alloc, file.as_bytes()) {
        Ok(instances) => Ok(instances_text(alloc, instances)?.as_str() == wanted),
        Err(_) => Ok(false),
    }
}

#[test]
fn reads_instances(rt: HostRuntime) {
    for (file, wanted) in &[
        ("a", "[a|0]"),
        ("a\n", "[a|0]"),
        ("a b", "[a|b]"),
        (" \t a\t b  c \t\r\n", "[a|b  c]"),
        ("\n \t\na\n\nb 1\n", "[a|0][b|1]"),
        ("a a\na a\n", "[a|a][a|a]"),
        ("# a = b\n", "[#|a = b]"),
        ("größe ß ß\n", "[größe|ß ß]"),
        ("a \u{a0}\n", "[a|\u{a0}]"),
        ("a\r\r\n", "[a\r|0]"),
    ] {
        let right = is_read_as(rt.alloc(), file, wanted);
        check(&rt, matches!(right, Ok(true)), file);
    }
}

fn fault_of(alloc: Global, text: &[u8]) -> Option<InstanceFault> {
    read_instances(alloc, text).err()
}

fn at(line: u32, what: InstanceWhat) -> Option<InstanceFault> {
    Some(InstanceFault::At { line, what })
}

#[test]
fn finds_the_first_fault(rt: HostRuntime) {
    for (text, line, what) in &[
        (b"".as_slice(), 0, InstanceWhat::NoInstances),
        (b" \n\t\n".as_slice(), 0, InstanceWhat::NoInstances),
        (b"\xff".as_slice(), 1, InstanceWhat::NotText),
        (b"a\n\n \xc3\na\xff".as_slice(), 3, InstanceWhat::NotText),
    ] {
        check_bytes(&rt, fault_of(rt.alloc(), text) == at(*line, *what), text);
    }
}

/// The number of the instances.
fn count_of(alloc: Global, text: &[u8]) -> Result<usize, InstanceFault> {
    let instances = read_instances(alloc, text)?;
    Ok(instances.len())
}

/// The number of the instances, or the fault, of 100,000 lines and this end.
fn count_with(alloc: Global, end: &[u8]) -> Result<Result<usize, InstanceFault>, Memory> {
    let mut text = Vec::new(alloc);
    for _ in 0..100_000 {
        text.extend_from_slice(b"a\n")?;
    }
    text.extend_from_slice(end)?;
    Ok(count_of(alloc, &text))
}

#[test]
fn reads_at_most_100_000_instances(rt: HostRuntime) {
    let too_many = InstanceFault::At {
        line: 100_003,
        what: InstanceWhat::TooMany,
    };
    for (end, wanted) in &[
        (b"".as_slice(), Ok(100_000)),
        (b"\n \n".as_slice(), Ok(100_000)),
        (b"\n \na\n\xff".as_slice(), Err(too_many)),
    ] {
        let right = match count_with(rt.alloc(), end) {
            Ok(found) => found == *wanted,
            Err(_) => false,
        };
        check_bytes(&rt, right, end);
    }
}

/// The fault of 16 MiB of blanks and this end.
fn fault_after_blanks(alloc: Global, end: &[u8]) -> Result<Option<InstanceFault>, Memory> {
    let mut text = vec![in alloc; b'\t'; 16_777_216]?;
    text.extend_from_slice(end)?;
    Ok(fault_of(alloc, &text))
}

#[test]
fn reads_at_most_16_mib(rt: HostRuntime) {
    for (end, what) in &[
        (b"".as_slice(), InstanceWhat::NoInstances),
        (b"\xff".as_slice(), InstanceWhat::TooMany),
    ] {
        let right = match fault_after_blanks(rt.alloc(), end) {
            Ok(found) => found == at(0, *what),
            Err(_) => false,
        };
        check_bytes(&rt, right, end);
    }
}

/// The pairs of all places, each with its seed.
fn pairs_text(alloc: Global, pairs: &Pairs) -> Result<String, Memory> {
    let mut text = String::new(alloc);
    for earlier in 0..pairs.max_runs() {
        let pair = pairs.pair(earlier + 1);
        let (instance, specifics, seed) = (pair.instance, pair.specifics, pair.seed);
        text.push_str(format!(in alloc; "[{instance}|{specifics}|{seed}]")?.as_str())?;
    }
    Ok(text)
}

/// Whether the pairs have this text.
fn have_text(alloc: Global, pairs: &Pairs, text: &str) -> Result<bool, Memory> {
    Ok(pairs_text(alloc, pairs)?.as_str() == text)
}

/// Whether the pairs have this text, and those of a copy.
fn is_text_of(alloc: Global, pairs: &Pairs, text: &str) -> Result<bool, Memory> {
    let copied = pairs.copy()?;
    Ok(have_text(alloc, pairs, text)? && have_text(alloc, &copied, text)?)
}

/// The pairs over a file's instances with the seed 42.
fn pairs_over(
    alloc: Global,
    file: &str,
    deterministic: bool,
    order: PairOrder,
    wanted: u32,
) -> Result<Pairs, InstanceFault>
    requires one { 1 ≤ wanted }
    requires most { wanted ≤ 10_000 }
{
    let instances = read_instances(alloc, file.as_bytes())?;
    Ok(Pairs::new(alloc, instances, 42, deterministic, order, wanted)?)
}

/// Whether these are the pairs, and those of a copy.
fn are_pairs(
    alloc: Global,
    pairs: &Result<Pairs, InstanceFault>,
    text: &str,
) -> Result<bool, Memory> {
    match pairs {
        Ok(pairs) => is_text_of(alloc, pairs, text),
        Err(_) => Ok(false),
    }
}

const TWO: &str = "one\ntwo x y\n";

const THREE: &str = "one\ntwo\nthree\n";

const SHUFFLED: &str =
    "[one|0|1944288081][three|0|1734755188][two|0|1795024040][two|0|730483650][one|0|1967553517]";

#[test]
fn draws_pairs(rt: HostRuntime) {
    let (file, shuffled) = (PairOrder::File, PairOrder::Shuffled);
    for (lines, deterministic, order, wanted, text) in &[
        (
            TWO,
            false,
            file,
            5,
            "[one|0|1][two|x y|2][one|0|3][two|x y|4][one|0|5]",
        ),
        (TWO, false, file, 1, "[one|0|1]"),
        (TWO, true, file, 5, "[one|0|0][two|x y|0]"),
        (TWO, true, file, 1, "[one|0|0]"),
        (THREE, false, shuffled, 5, SHUFFLED),
        (THREE, false, shuffled, 1, "[one|0|1944288081]"),
        (THREE, true, shuffled, 9, "[one|0|0][three|0|0][two|0|0]"),
    ] {
        let pairs = pairs_over(rt.alloc(), lines, *deterministic, *order, *wanted);
        let right = are_pairs(rt.alloc(), &pairs, text);
        check(&rt, matches!(right, Ok(true)), text);
    }
}
