//! Times in seconds that are read from decimals.
ghost use Rattle.std.specs.Prelude.{◌≡◌, ◌+◌, ◌*◌, ◌^◌, ◌<◌, ◌≤◌, ◌||◌, true, length, drop, min, IfSome, if◌then◌else◌};
ghost use Rattle.std.specs.Char.{is_ascii_digit};
ghost use Rattle.std.specs.List.{list_all, list_any, position_or_len};
ghost use Rattle.std.specs.Str.Parse.{digits_value_after};
ghost use Rattle.plain_text.specs.Times;
ghost use Rattle.plain_text.specs.Times.{is_more, is_letter, is_point, micros_of, micros_read};

use crate::decimals::{all_digits, read_count};
use objective::Micros;

/// The first number of microseconds that is too large.
const LIMIT: u128 = 1 << 64;

/// Why a text is no time.
#[derive(Clone, Copy, Debug, PartialEq, Eq)]
pub enum TimeFault {
    /// The text is no decimal.
    NotDecimal,
    /// The time exceeds 2^64 - 1 microseconds.
    TooLarge,
}

/// Reads a time: seconds as a decimal with no sign, maybe with an exponent of one to three
/// digits, rounded up to whole microseconds. `NotDecimal` exactly where the text is no such
/// decimal, and `TooLarge` exactly where it is one of more than 2^64 - 1 microseconds. Any
/// number of digits is read exactly. Takes no memory.
#[tactic(auto, unfolding(crate::specs::Times::micros_read, crate::specs::Times::read_parts))]
pub fn read_micros(text: &[u8]) -> Result<Micros, TimeFault>
    ensures { result ≡ micros_read text.now }
{
    let Some((right, left)) = shifts(text) else {
        return Err(TimeFault::NotDecimal);
    };
    let mantissa = &text[..letter_position(text)];
    let point = point_position(mantissa);
    let before = &mantissa[..point];
    let after = after_position(mantissa, point);
    if !are_digits(before, after) {
        return Err(TimeFault::NotDecimal);
    }
    in_range(rounded_up(before, after, right, left))
}

/// The time of these microseconds, of which LIMIT stands for all that are too large.
#[tactic(auto, unfolding(crate::specs::Times::in_range))]
fn in_range(micros: u128) -> Result<Micros, TimeFault>
    ensures { result ≡ Times.in_range micros }
{
    if micros < LIMIT {
        return Ok(Micros(micros as u64));
    }
    Err(TimeFault::TooLarge)
}

/// The position of the first `e` or `E`; the length where there is none.
fn letter_position(text: &[u8]) -> usize
    ensures { result ≡ position_or_len is_letter text.now }
{
    text.iter()
        .position(|b| *b == b'e' || *b == b'E')
        .unwrap_or(text.len())
}

/// The position of the first point; the length where there is none.
fn point_position(text: &[u8]) -> usize
    ensures { result ≡ position_or_len is_point text.now }
{
    text.iter().position(|b| *b == b'.').unwrap_or(text.len())
}

/// What stands after a position.
fn after_position(text: &[u8], position: usize) -> &[u8]
    ensures { result.now ≡ drop (position + 1) text.now }
{
    if position < text.len() {
        return &text[position + 1..];
    }
    &text[text.len()..]
}

/// Whether there are only digits before and after the point, and at least one.
fn are_digits(before: &[u8], after: &[u8]) -> bool
    ensures { result ≡ Times.are_digits before.now after.now }
{
    all_digits(before) && all_digits(after) && !(before.is_empty() && after.is_empty())
}

/// Whether some byte is no zero.
fn any_nonzero(digits: &[u8]) -> bool
    ensures { result ≡ list_any is_more digits.now }
{
    digits.iter().any(|b| *b != b'0')
}

/// By how many places the exponent of a decimal moves its point to the right and to the
/// left. None where a text stands after an `e` that is no exponent.
#[tactic(auto, unfolding(crate::specs::Times::shifts))]
fn shifts(text: &[u8]) -> Option<(usize, usize)>
    ensures value { result ≡ Times.shifts text.now }
    ensures small { IfSome result (λ s. (s.0 < 1000) × (s.1 < 1000)) }
{
    let position = letter_position(text);
    if position < text.len() {
        return power_shifts(&text[position + 1..]);
    }
    Some((0, 0))
}

/// By how many places an exponent moves the point to the right and to the left.
#[tactic(auto, unfolding(crate::specs::Times::power_shifts))]
fn power_shifts(power: &[u8]) -> Option<(usize, usize)>
    ensures value { result ≡ Times.power_shifts power.now }
    ensures small { IfSome result (λ s. (s.0 < 1000) × (s.1 < 1000)) }
{
    match power_size(power) {
        Some(size) => {
            if is_negative(power) {
                return Some((0, size));
            }
            Some((size, 0))
        }
        None => None,
    }
}

/// Whether a minus stands in front.
fn is_negative(power: &[u8]) -> bool
    ensures { result ≡ Times.is_negative power.now }
{
    !power.is_empty() && power[0] == b'-'
}

/// An exponent without its sign.
fn without_sign(power: &[u8]) -> &[u8]
    ensures { result.now ≡ Times.without_sign power.now }
{
    if !power.is_empty() && (power[0] == b'+' || power[0] == b'-') {
        return &power[1..];
    }
    power
}

/// The size of an exponent. None where it isn't one to three digits, with a sign or none.
#[tactic(auto, unfolding(crate::specs::Times::power_size))]
fn power_size(power: &[u8]) -> Option<usize>
    ensures value { result ≡ Times.power_size power.now }
    ensures small { IfSome result (λ n. n < 1000) }
{
    let digits = without_sign(power);
    if digits.len() > 3 {
        return None;
    }
    match read_count(digits) {
        Some(size) => Some(size as usize),
        None => None,
    }
}

/// The microseconds of the seconds with these digits before and after the point, which is
/// moved to the right and to the left, rounded up; LIMIT where there are more.
fn rounded_up(before: &[u8], after: &[u8], right: usize, left: usize) -> u128
    requires before_digits { list_all is_ascii_digit before.now ≡ true }
    requires after_digits { list_all is_ascii_digit after.now ≡ true }
    requires small_right { right < 1000 }
    requires small_left { left < 1000 }
    ensures { result ≡ min (micros_of before.now after.now right left) (2 ^ 64) }
{
    let kept = (before.len() + 6 + right).saturating_sub(left);
    let first = kept.min(before.len());
    let second = (kept - first).min(after.len());
    let value = read_on(read_on(0, &before[..first]), &after[..second]);
    let scaled = with_zeros(value, kept - first - second);
    (scaled + left_over(&before[first..], &after[second..])).min(LIMIT)
}

/// One where some digit before or after the point isn't zero, else zero.
fn left_over(before: &[u8], after: &[u8]) -> u128
    ensures { result ≡ (if list_any is_more before.now || list_any is_more after.now then 1 else 0) }
{
    if any_nonzero(before) {
        return 1;
    }
    any_nonzero(after) as u128
}

/// The number that digits write when they follow those of `start`; LIMIT where it is greater.
fn read_on(start: u128, digits: &[u8]) -> u128
    requires digits { list_all is_ascii_digit digits.now ≡ true }
    requires start { start ≤ 2 ^ 64 }
    ensures { result ≡ min (digits_value_after 10 start digits.now) (2 ^ 64) }
{
    let mut value = start;
    for digit in digits {
        value = (value * 10 + (*digit - b'0') as u128).min(LIMIT);
    }
    value
}

/// The number with zeros after it; LIMIT where it is greater.
fn with_zeros(start: u128, zeros: usize) -> u128
    requires { start ≤ 2 ^ 64 }
    ensures { result ≡ min (start * 10 ^ zeros) (2 ^ 64) }
{
    let mut value = start;
    for _zero in 0..zeros {
        value = (value * 10).min(LIMIT);
    }
    value
}
