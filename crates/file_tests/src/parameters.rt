//! Parameter files by value and their first faults, and a space with its configurations.
ghost use Rattle.std.specs.Prelude.{◌≡◌, ◌∷◌, [], IsTrue, IfOk};
ghost use Rattle.param_space.specs.Space.{Belongs};

use crate::checks::{check, check_bytes};
use objective::Memory;
use param_files::{ParamFault, ParamWhat, print_params, read_params};
use param_space::{Condition, Config, Forbidden, Param, Pick, Space, SpaceWhat};
use plain_text::Text;
use std::alloc::Global;
use test_support::space_of;

const SMALL: &str = "# Two parameters.
x {a, b} [b]

\ty{1,2 , zwölf}[2] # a number\r
CONDITIONALS:
y | x in {b}
forbidden:
{x = a, y=zwölf}";

fn are(texts: &[Text], wanted: &[&str]) -> bool {
    texts.len() == wanted.len() && texts.iter().zip(wanted).all(|(t, w)| t.as_str() == *w)
}

fn is_param(param: &Param, name: &str, values: &[&str], default: u16) -> bool {
    param.name.as_str() == name && are(param.values.as_slice(), values) && param.default == default
}

/// Whether y depends on x=b.
fn is_condition(condition: &Condition) -> bool {
    (condition.child, condition.parent) == (1, 0) && condition.values.as_slice() == [1].as_slice()
}

/// Whether x=a and y=zwölf are forbidden together.
fn is_clause(clause: &Forbidden) -> bool {
    let picks = [Pick { param: 0, value: 0 }, Pick { param: 1, value: 2 }];
    clause.picks.as_slice() == picks.as_slice()
}

/// Whether the space has the lists of SMALL.
fn is_small(space: &Space) -> bool {
    let are_params = match space.params() {
        [x, y] => is_param(x, "x", &["a", "b"], 1) && is_param(y, "y", &["1", "2", "zwölf"], 1),
        _ => false,
    };
    match (space.conditions(), space.forbidden()) {
        ([condition], [clause]) => are_params && is_condition(condition) && is_clause(clause),
        _ => false,
    }
}

fn reads_small(read: &Result<Space, ParamFault>) -> bool {
    match read {
        Ok(space) => is_small(space),
        Err(_) => false,
    }
}

fn small_is_read(alloc: Global) -> bool {
    let read = space_of(alloc, SMALL);
    reads_small(&read)
}

#[test]
fn reads_a_space(rt: HostRuntime) {
    check(&rt, small_is_read(rt.alloc()), SMALL);
}

/// Whether the space is printed so, after a line.
fn is_printed(alloc: Global, space: &Space, wanted: &str) -> Result<bool, Memory> {
    let mut out = b"# A file.\n".to_vec(alloc)?;
    print_params(space, &mut out)?;
    Ok(out.strip_prefix(b"# A file.\n") == Some(wanted.as_bytes()))
}

/// Whether what is read of these lines is printed so.
fn is_printed_as(alloc: Global, lines: &str, wanted: &str) -> Result<bool, Memory> {
    match &space_of(alloc, lines) {
        Ok(space) => is_printed(alloc, space, wanted),
        Err(_) => Ok(false),
    }
}

#[test]
fn prints_what_it_reads(rt: HostRuntime) {
    let three = "x {a, b} [a]\ny {1, 2} [1]\ny | x in {a}\n";
    let small = "x {a, b} [b]\ny {1, 2, zwölf} [2]\ny | x in {b}\n{x=a, y=zwölf}\n";
    for (lines, wanted) in &[(three, three), (SMALL, small)] {
        let right = is_printed_as(rt.alloc(), lines, wanted);
        check(&rt, matches!(right, Ok(true)), lines);
    }
}

fn fault_of(alloc: Global, text: &[u8]) -> Option<ParamFault> {
    read_params(alloc, text).err()
}

fn at(line: u32, what: ParamWhat) -> Option<ParamFault> {
    Some(ParamFault::At { line, what })
}

/// One file for each fault, and for each two of which the format says which is first.
#[test]
fn finds_the_first_fault(rt: HostRuntime) {
    for (text, line, what) in &[
        (b"x {a} [a]\n{\xff\n".as_slice(), 2, ParamWhat::NotText),
        (b"x {a} [a]\n{\n\xff".as_slice(), 2, ParamWhat::Form),
    ] {
        check_bytes(&rt, fault_of(rt.alloc(), text) == at(*line, *what), text);
    }
}

/// One file for each fault of a space, and for each two of which the format says which is
/// first.
#[test]
fn finds_the_first_fault_of_a_space(rt: HostRuntime) {
    for (text, line, what) in &[
        ("x {a} [a]\nx {a, a} [b]", 2, SpaceWhat::DoubleName),
        ("x {a, a} [b]", 1, SpaceWhat::DoubleValue),
        ("x {a} [b]", 1, SpaceWhat::BadDefault),
        ("y | x in {a, a}", 1, SpaceWhat::DoubleValue),
        ("{x=a, x=b}", 1, SpaceWhat::DoubleName),
        ("", 0, SpaceWhat::NoParameters),
        ("Forbidden:\n{x=a}", 0, SpaceWhat::NoParameters),
        (
            "x {a} [a]\nz | x in {a}\n{x=a, x=a}",
            3,
            SpaceWhat::DoubleName,
        ),
        ("x {a} [a]\nz | x in {q}", 2, SpaceWhat::UnknownName),
        ("x {a} [a]\nx | z in {q}", 2, SpaceWhat::UnknownName),
        ("x {a} [a]\nx | x in {q}", 2, SpaceWhat::UnknownValue),
        ("x {a} [a]\n{x=q, z=a}", 2, SpaceWhat::UnknownName),
        ("x {a} [a]\n{x=q}\nz | x in {a}", 2, SpaceWhat::UnknownValue),
        ("x {a} [a]\nx | x in {a}\n{x=q}", 3, SpaceWhat::UnknownValue),
        ("x {a, b} [a]\n\n{x=a}\nx | x in {b}", 4, SpaceWhat::Cycle),
        (
            "x {a, b} [a]\n{x=b}\n\n{x=a}",
            4,
            SpaceWhat::DefaultForbidden,
        ),
    ] {
        let found = fault_of(rt.alloc(), text.as_bytes());
        check(&rt, found == at(*line, ParamWhat::Space(*what)), text);
    }
}

/// A part of a text.
#[derive(Clone, Copy)]
enum Piece {
    /// This text.
    Plain(&'static str),
    /// The numbers below this one in turn between two texts.
    Many(u32, &'static str, &'static str),
}

/// Appends the numbers below `count` in turn between two texts.
fn push_many(
    alloc: Global,
    count: u32,
    before: &str,
    after: &str,
    text: &mut String,
) -> Result<(), Memory> {
    for i in 0..count {
        text.push_str(format!(in alloc; "{before}{i}{after}")?.as_str())?;
    }
    Ok(())
}

/// Appends the pieces.
fn push_pieces(alloc: Global, pieces: &[Piece], text: &mut String) -> Result<(), Memory> {
    for piece in pieces {
        match *piece {
            Piece::Plain(plain) => text.push_str(plain)?,
            Piece::Many(count, before, after) => push_many(alloc, count, before, after, text)?,
        }
    }
    Ok(())
}

/// Whether a text has no fault, and has this one once the last pieces follow it.
fn keeps_limit(
    alloc: Global,
    text: &mut String,
    last: &[Piece],
    fault: Option<ParamFault>,
) -> Result<bool, Memory> {
    let kept = fault_of(alloc, text.as_bytes()).is_none();
    push_pieces(alloc, last, text)?;
    Ok(kept && fault_of(alloc, text.as_bytes()) == fault)
}

/// Whether the kept pieces are a file, and one with this fault once the last ones follow.
fn is_limit(
    alloc: Global,
    kept: &[Piece],
    last: &[Piece],
    fault: Option<ParamFault>,
) -> Result<bool, Memory> {
    let mut text = String::new(alloc);
    push_pieces(alloc, kept, &mut text)?;
    keeps_limit(alloc, &mut text, last, fault)
}

const TWO: Piece = Piece::Plain("x {a, b} [a]\ny {1} [1]\n");

const PARAMS: Piece = Piece::Many(256, "p", " {a, b} [a]\n");

const VALUES: Piece = Piece::Many(255, "v", ", ");

const PICKS: Piece = Piece::Many(15, "p", "=b, ");

/// Each text keeps a limit, and the text after it is past that.
#[test]
fn finds_too_many(rt: HostRuntime) {
    let too_many = ParamWhat::Space(SpaceWhat::TooMany);
    for (name, kept, last, line, what) in &[
        (
            "form",
            [PARAMS].as_slice(),
            [Piece::Plain("p0 {")].as_slice(),
            257,
            ParamWhat::Form,
        ),
        (
            "parameters",
            [PARAMS].as_slice(),
            [Piece::Plain("p0 {a, a} [b]")].as_slice(),
            257,
            too_many,
        ),
        (
            "values",
            [Piece::Plain("x {"), VALUES, Piece::Plain("w} [w]\n")].as_slice(),
            [Piece::Plain("x {"), VALUES, Piece::Plain("v, v} [w]")].as_slice(),
            2,
            too_many,
        ),
        (
            "conditions",
            [TWO, Piece::Many(1024, "y | x in {b} # ", "\n")].as_slice(),
            [Piece::Plain("y | x in {b, b}")].as_slice(),
            1027,
            too_many,
        ),
        (
            "clauses",
            [TWO, Piece::Many(4096, "{x=b} # ", "\n")].as_slice(),
            [Piece::Plain("{x=b, x=b}")].as_slice(),
            4099,
            too_many,
        ),
        (
            "picks",
            [PARAMS, Piece::Plain("{"), PICKS, Piece::Plain("p15=b}\n")].as_slice(),
            [Piece::Plain("{"), PICKS, Piece::Plain("p0=b, p0=b}")].as_slice(),
            258,
            too_many,
        ),
    ] {
        let right = is_limit(rt.alloc(), kept, last, at(*line, *what));
        check(&rt, matches!(right, Ok(true)), name);
    }
}

/// The fault of so many marks of a comment.
fn fault_of_marks(alloc: Global, count: usize) -> Result<Option<ParamFault>, Memory> {
    let text = vec![in alloc; b'#'; count]?;
    Ok(fault_of(alloc, &text))
}

#[test]
fn reads_at_most_16_mib(rt: HostRuntime) {
    for (name, count, what) in &[
        ("16 MiB", 16_777_216, SpaceWhat::NoParameters),
        ("more", 16_777_217, SpaceWhat::TooMany),
    ] {
        let right = match fault_of_marks(rt.alloc(), *count) {
            Ok(found) => found == at(0, ParamWhat::Space(*what)),
            Err(_) => false,
        };
        check(&rt, right, name);
    }
}

/// Whether there are two parameters with two values each.
fn are_two(space: &Space) -> bool
    ensures { IsTrue result → Belongs space.now.params (1 ∷ 1 ∷ []) }
{
    match space.params() {
        [x, y] => x.values.as_slice().len() == 2 && y.values.as_slice().len() == 2,
        _ => false,
    }
}

/// The second values of two parameters.
fn second_values(alloc: Global) -> Result<Config, Memory>
    ensures { IfOk result (λ c. c ≡ 1 ∷ 1 ∷ []) }
{
    let config = Config::new([1, 1].to_vec(alloc)?);
    config.copy()
}

/// Whether the first parameter is active and the second isn't, until it is settled.
fn is_settled_right(space: &Space, config: &mut Config) -> bool
    requires { Belongs space.now.params config.old }
    ensures { Belongs space.now.params config.new }
{
    let count = space.params().len();
    if count < 2 {
        return false;
    }
    let active = space.is_active(config, 0) && !space.is_active(config, 1);
    let canonical = space.is_canonical(config);
    space.settle(config);
    active && !canonical && space.is_canonical(config) && space.is_allowed(config)
}

/// The text of this configuration's settings, and of the defaults'.
fn settings_of(alloc: Global, space: &Space, config: &Config) -> Result<Vec<u8>, Memory>
    requires { Belongs space.now.params config.now }
{
    let mut out = b"to ".to_vec(alloc)?;
    space.push_settings(config, &mut out)?;
    space.push_settings(&space.default_config()?, &mut out)?;
    Ok(out)
}

/// Whether x=b, y=2 is settled to x=b, and printed so beside the defaults.
fn settles(alloc: Global, space: &Space) -> Result<bool, Memory> {
    if !are_two(space) {
        return Ok(false);
    }
    let mut config = second_values(alloc)?;
    let settled = is_settled_right(space, &mut config);
    let text = settings_of(alloc, space, &config)?;
    Ok(settled && text.as_slice() == b"to x=bx=a y=1".as_slice())
}

/// Whether a copy of the space settles a configuration as it should.
fn copy_settles(alloc: Global, space: &Space) -> Result<bool, Memory> {
    match &space.copy() {
        Ok(copied) => settles(alloc, copied),
        Err(_) => Ok(false),
    }
}

/// Whether the space of these lines and its copy settle a configuration as they should.
fn space_settles(alloc: Global, lines: &str) -> Result<bool, Memory> {
    match &space_of(alloc, lines) {
        Ok(space) => Ok(settles(alloc, space)? && copy_settles(alloc, space)?),
        Err(_) => Ok(false),
    }
}

#[test]
fn settles_and_prints(rt: HostRuntime) {
    let lines = "x {a, b} [a]\ny {1, 2} [1]\ny | x in {a}\n{x=a, y=2}";
    check(
        &rt,
        matches!(space_settles(rt.alloc(), lines), Ok(true)),
        lines,
    );
}
