//! Blanks and the bytes of words.
ghost use Rattle.std.specs.Prelude.{◌≡◌};
ghost use Rattle.plain_text.specs.Words;

/// Whether the byte is a space or a tab.
pub fn is_blank(byte: u8) -> bool
    ensures { result ≡ Words.is_blank byte }
{
    byte == b' ' || byte == b'\t'
}

/// Whether the byte may stand in a word: it is no ASCII control character, no space
/// and none of `{ } [ ] | , = #`.
fn is_word_byte(byte: u8) -> bool
    ensures { result ≡ Words.is_word_byte byte }
{
    !(byte <= b' '
        || byte == 127
        || matches!(byte, b'{' | b'}' | b'[' | b']' | b'|' | b',' | b'=' | b'#'))
}

/// Whether the text is one or more word characters.
pub fn is_word(text: &str) -> bool
    ensures { result ≡ Words.is_word text.now }
{
    for byte in text.as_bytes() {
        if !is_word_byte(*byte) {
            return false;
        }
    }
    !text.is_empty()
}
