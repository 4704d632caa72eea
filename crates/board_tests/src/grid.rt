//! What children answer.
ghost use Rattle.std.specs.Prelude.{◌≡◌, slice_index_or};
ghost use Rattle.board_tests.specs.Letters;

use objective::{Micros, Outcome};
use outside::Table;
use wrapper_lines::{Key, Setting};

/// The byte at a place; another one where there is none.
fn byte_or(bytes: &[u8], place: usize, other: u8) -> u8
    ensures { result ≡ slice_index_or bytes.now place other }
{
    if place < bytes.len() {
        bytes[place]
    } else {
        other
    }
}

/// The first byte of the first setting's value; that of a where there is none.
fn first_byte(settings: &[Setting]) -> u8
    ensures { result ≡ Letters.first_byte settings.now }
{
    match settings {
        [] => b'a',
        [first, ..] => byte_or(first.value.as_str().as_bytes(), 0, b'a'),
    }
}

/// The column of a run: there are four of each value, one for each seed.
fn column_of(key: &Key) -> usize
    ensures { result ≡ Letters.column_of key.now }
{
    let value = first_byte(key.settings.as_slice()).saturating_sub(b'a');
    usize::from(value) * 4 + key.seed.saturating_sub(1) as usize
}

/// The outcome that a letter stands for: a digit for that many seconds, `u` for no solution,
/// `c` for a crash, `x` for an abort after a second and `l` for one after eight.
fn outcome_of(letter: u8) -> Outcome
    ensures { result ≡ Letters.outcome_of letter }
{
    match letter {
        b'u' => Outcome::Unsolved,
        b'c' => Outcome::Crashed(Micros(1_000_000)),
        b'x' => Outcome::Abort(Micros(1_000_000)),
        b'l' => Outcome::Abort(Micros(8_000_000)),
        _ => Outcome::Solved(Micros(u64::from(letter.saturating_sub(b'0')) * 1_000_000)),
    }
}

/// Children whose answers stand in their instance's specifics: four letters for each value of
/// the first parameter, which begin with `a`, `b` and so on, one for each seed from 1.
pub(crate) struct Grid;

impl Table for Grid {
    ghost use Rattle.board_tests.specs.Letters.{outcome_at};

    ghost outcome = { outcome_at };

    fn outcome(key: &Key) -> Outcome {
        let letters = key.specifics.as_str().as_bytes();
        outcome_of(byte_or(letters, column_of(key), b'u'))
    }
}
