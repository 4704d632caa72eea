//! What children answer: one table for all tunings, since each further one would compile the
//! whole call again.
ghost use Rattle.std.specs.Prelude.{◌≡◌, slice_index_or};
ghost use Rattle.tuning_harness.specs.Letters;

use objective::{Micros, Outcome};
use outside::Table;
use wrapper_lines::{Key, Setting};

/// Whether the first setting has this value.
fn has(settings: &[Setting], value: &str) -> bool
    ensures { result ≡ Letters.has value.now settings.now }
{
    match settings {
        [] => false,
        [first, ..] => first.value.as_str() == value,
    }
}

/// The letters of an instance with these specifics.
fn letters_of(specifics: &str) -> &str
    ensures { result.now ≡ Letters.letters_of specifics.now }
{
    if specifics == "0" { "3429" } else { specifics }
}

/// Whether the first setting has the second value of a space, which is b or random.
fn is_second(settings: &[Setting]) -> bool
    ensures { result ≡ Letters.is_second settings.now }
{
    has(settings, "b") || has(settings, "random")
}

/// The column of a run: the first two letters are of the first seed and of the others, and
/// so are the next two, where the first setting has the second value.
fn column_of(key: &Key) -> usize
    ensures { result ≡ Letters.column_of key.now }
{
    let others = if key.seed == 1 { 0 } else { 1 };
    if is_second(key.settings.as_slice()) {
        2 + others
    } else {
        others
    }
}

/// The outcome that a letter stands for: a digit for that many seconds, `q` for 1.25 and `h`
/// for 1.5, `u` for no solution, `c` for a crash, `x` for an abort after a second and `l` for
/// one after eight.
fn outcome_of(letter: u8) -> Outcome
    ensures { result ≡ Letters.outcome_of letter }
{
    match letter {
        b'u' => Outcome::Unsolved,
        b'c' => Outcome::Crashed(Micros(1_000_000)),
        b'x' => Outcome::Abort(Micros(1_000_000)),
        b'l' => Outcome::Abort(Micros(8_000_000)),
        b'q' => Outcome::Solved(Micros(1_250_000)),
        b'h' => Outcome::Solved(Micros(1_500_000)),
        _ => Outcome::Solved(Micros(u64::from(letter.saturating_sub(b'0')) * 1_000_000)),
    }
}

/// The letter in a column; `u` where there is none.
fn letter_in(letters: &str, column: usize) -> u8
    ensures { result ≡ slice_index_or letters.now column 117 }
{
    let bytes = letters.as_bytes();
    if column < bytes.len() {
        bytes[column]
    } else {
        b'u'
    }
}

/// Children whose answers stand in their instance's specifics, as four letters: those of the
/// first value for the seed 1 and for other seeds, and those of the second value. Without
/// specifics they are `3429`.
pub struct Rows;

impl Table for Rows {
    ghost use Rattle.tuning_harness.specs.Letters.{outcome_at};

    ghost outcome = { outcome_at };

    fn outcome(key: &Key) -> Outcome {
        let letters = letters_of(key.specifics.as_str());
        outcome_of(letter_in(letters, column_of(key)))
    }
}
