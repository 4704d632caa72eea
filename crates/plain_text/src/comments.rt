//! Comments at the ends of lines.
ghost use Rattle.std.specs.Prelude.{◌≡◌, ◌≤◌, ◌==◌, length};
ghost use Rattle.std.specs.List.{position_or_len};
ghost use Rattle.plain_text.specs.Comments;

/// What stands before the first `#` of a line. Takes no memory.
pub fn uncommented(line: &str) -> &str
    ensures { result.now ≡ Comments.uncommented line.now }
{
    &line[..comment_position(line.as_bytes())]
}

/// The position of the first `#`; the length where there is none.
pub(crate) fn comment_position(line: &[u8]) -> usize
    ensures value { result ≡ position_or_len (λ b. b == 35) line.now }
    ensures within { result ≤ length line.now }
{
    line.iter().position(|b| *b == b'#').unwrap_or(line.len())
}
