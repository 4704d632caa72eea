//! The number of a toy.
ghost use Rattle.std.specs.Prelude.{◌≡◌};
ghost use Rattle.toy_bench.specs.Numbers.{number_of};

use plain_text::read_count;

/// Reads the number of a toy: one or more decimal digits. None exactly where the word is
/// anything else or the number exceeds the greatest u32. Takes no memory.
pub fn read_number(word: &str) -> Option<u32>
    ensures { result ≡ number_of word.now }
{
    match read_count(word.as_bytes()) {
        Some(number) => u32::try_from(number).ok(),
        None => None,
    }
}
