//! The first line of a text.
ghost use Rattle.std.specs.Prelude.{◌≡◌, ◌∷◌, ◌+◌, ◌<◌, ◌≤◌, length};
ghost use Rattle.std.specs.List.{position_or_len};
ghost use Rattle.plain_text.specs.LinePositions.{IsFirstLine};
ghost use Rattle.plain_text.specs.Lines;

/// The first line, and what stands after its end. Takes no memory.
pub fn first_line(text: &[u8]) -> (&[u8], &[u8])
    requires { 0 < length text.now }
    ensures first { Lines.lines text.now ≡ result.0.now ∷ Lines.lines result.1.now }
    ensures position { IsFirstLine text.now result.0.now result.1.now }
    ensures within { length result.0.now + length result.1.now ≤ length text.now }
    ensures shorter { length result.1.now < length text.now }
{
    let position = first_break(text);
    if position < text.len() {
        return (without_return(&text[..position]), &text[position + 1..]);
    }
    (text, &text[position..])
}

/// The position of the first line feed; the length where there is none.
fn first_break(text: &[u8]) -> usize
    ensures value { result ≡ position_or_len Lines.is_break text.now }
    ensures within { result ≤ length text.now }
{
    text.iter().position(|b| *b == b'\n').unwrap_or(text.len())
}

/// What a line feed ends, without a carriage return directly before it.
fn without_return(part: &[u8]) -> &[u8]
    ensures line { result.now ≡ Lines.without_return part.now }
    ensures within { length result.now ≤ length part.now }
{
    if !part.is_empty() && part[part.len() - 1] == b'\r' {
        return &part[..part.len() - 1];
    }
    part
}
