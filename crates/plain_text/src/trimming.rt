//! Texts without blanks at their ends, and their first words.
ghost use Rattle.std.specs.Prelude.{◌≡◌, ◌-◌, ◌<◌, ◌≤◌, true, length, slice_index};
ghost use Rattle.std.specs.List.{prefix_len, suffix_len, position_or_len};
ghost use Rattle.plain_text.specs.Trimming;
ghost use Rattle.plain_text.specs.Words;

use crate::words::is_blank;

/// How many blanks there are at the beginning.
fn blanks_before(bytes: &[u8]) -> usize
    ensures value { result ≡ prefix_len Words.is_blank bytes.now }
    ensures within { result ≤ length bytes.now }
    ensures blank { 0 < result → Words.is_blank (slice_index bytes.now (result - 1)) ≡ true }
{
    for (i, byte) in bytes.iter().enumerate() {
        if !is_blank(*byte) {
            return i;
        }
    }
    bytes.len()
}

/// How many bytes are left without the blanks at the end.
fn size_without_end(bytes: &[u8]) -> usize
    ensures value { result ≡ length bytes.now - suffix_len Words.is_blank bytes.now }
    ensures within { result ≤ length bytes.now }
    ensures blank { result < length bytes.now → Words.is_blank (slice_index bytes.now result) ≡ true }
{
    let mut size = bytes.len();
    while size > 0 && is_blank(bytes[size - 1]) {
        size -= 1;
    }
    size
}

/// The position of the first blank; the length where there is none.
fn first_blank(bytes: &[u8]) -> usize
    ensures value { result ≡ position_or_len Words.is_blank bytes.now }
    ensures within { result ≤ length bytes.now }
    ensures blank { result < length bytes.now → Words.is_blank (slice_index bytes.now result) ≡ true }
{
    for (i, byte) in bytes.iter().enumerate() {
        if is_blank(*byte) {
            return i;
        }
    }
    bytes.len()
}

/// The text without the blanks at its beginning.
pub fn front_trimmed(text: &str) -> &str
    ensures { result.now ≡ Trimming.front_trimmed text.now }
{
    &text[blanks_before(text.as_bytes())..]
}

/// The text without the blanks at its end.
pub fn end_trimmed(text: &str) -> &str
    ensures { result.now ≡ Trimming.end_trimmed text.now }
{
    &text[..size_without_end(text.as_bytes())]
}

/// The text without the blanks around it.
pub fn trimmed(text: &str) -> &str
    ensures { result.now ≡ Trimming.trimmed text.now }
{
    end_trimmed(front_trimmed(text))
}

/// Bytes without the blanks at their beginning.
pub fn front_trimmed_bytes(bytes: &[u8]) -> &[u8]
    ensures { result.now ≡ Trimming.front_trimmed bytes.now }
{
    &bytes[blanks_before(bytes)..]
}

/// Bytes without the blanks around them.
pub fn trimmed_bytes(bytes: &[u8]) -> &[u8]
    ensures { result.now ≡ Trimming.trimmed bytes.now }
{
    let bytes = front_trimmed_bytes(bytes);
    &bytes[..size_without_end(bytes)]
}

/// What stands before the first blank.
pub fn first_word(text: &str) -> &str
    ensures { result.now ≡ Trimming.first_word text.now }
{
    &text[..first_blank(text.as_bytes())]
}

/// The rest from the first blank on.
pub fn after_word(text: &str) -> &str
    ensures { result.now ≡ Trimming.after_word text.now }
{
    &text[first_blank(text.as_bytes())..]
}
