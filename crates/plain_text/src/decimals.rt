//! Counts that are read and seconds that are written.
ghost use Rattle.std.specs.Prelude.{◌≡◌, ◌++◌, IfOk, OnOk, OnErr};
ghost use Rattle.std.specs.Char.{is_ascii_digit};
ghost use Rattle.std.specs.List.{list_all};
ghost use Rattle.plain_text.specs.Decimals.{count_of, seconds};

use crate::text::Text;
use objective::Memory;
use std::alloc::Global;
use std::str;

/// Whether each byte is a decimal digit. Takes no memory.
pub fn all_digits(text: &[u8]) -> bool
    ensures { result ≡ list_all is_ascii_digit text.now }
{
    text.iter().all(|b| b.is_ascii_digit())
}

/// Reads a count: one or more decimal digits. None exactly where the text is anything
/// else or the number exceeds the greatest u64. Takes no memory.
pub fn read_count(text: &[u8]) -> Option<u64>
    ensures { result ≡ count_of text.now }
{
    if !all_digits(text) {
        return None;
    }
    match str::from_utf8(text) {
        Ok(digits) => digits.parse::<u64>().ok(),
        Err(_) => None,
    }
}

/// A time in microseconds as whole seconds, a point and six digits.
pub fn seconds_text(alloc: Global, micros: u64) -> Result<Text, Memory>
    ensures { IfOk result (λ t. t ≡ seconds micros) }
{
    let whole = micros / 1_000_000;
    let (a, b, c) = (
        micros / 100_000 % 10,
        micros / 10_000 % 10,
        micros / 1000 % 10,
    );
    let (d, e, f) = (micros / 100 % 10, micros / 10 % 10, micros % 10);
    Text::new(format!(in alloc; "{whole}.{a}{b}{c}{d}{e}{f}")?)
}

/// Appends a time in microseconds as whole seconds, a point and six digits. After want of
/// memory `out` is as it was.
pub fn push_seconds(out: &mut Vec<u8>, micros: u64) -> Result<(), Memory>
    ensures ok { OnOk result (out.new.items ≡ out.old.items ++ seconds micros) }
    ensures err { OnErr result (out.new.items ≡ out.old.items) }
{
    let text = seconds_text(*out.allocator(), micros)?;
    out.extend_from_slice(text.as_str().as_bytes())?;
    Ok(())
}
