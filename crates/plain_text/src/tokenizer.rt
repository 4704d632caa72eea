//! Lines that are split into tokens.
ghost use Rattle.std.specs.Prelude.{◌≡◌, ◌≤◌, ◌&&◌, not, length, map, IfOk};
ghost use Rattle.std.specs.List.{position_or_len};
ghost use Rattle.plain_text.specs.Tokens;
ghost use Rattle.plain_text.specs.Words;

use crate::comments::comment_position;
use crate::words::is_blank;
use objective::Memory;
use std::alloc::Global;

/// The position of a token in its line.
#[derive(Clone, Copy, Debug, PartialEq, Eq)]
pub struct Token {
    /// The index of its first byte.
    pub start: usize,
    /// The index after its last byte.
    pub end: usize,
}

/// The tokens of a line, in order: each of the bytes `{ } [ ] | , =` is one, and so is each
/// longest run of other bytes without a space or tab. A `#` ends the line.
#[tactic(auto, unfolding(crate::specs::Tokens::tokens))]
pub fn tokens(alloc: Global, line: &[u8]) -> Result<Vec<Token>, Memory>
    ensures { IfOk result (λ v. v.items ≡ Tokens.tokens line.now) }
{
    let text = &line[..comment_position(line)];
    let mut found = Vec::new(alloc);
    let mut free = true;
    for position in 0..text.len() {
        let byte = text[position];
        if stands_alone(byte) {
            found.push(Token {
                start: position,
                end: position + 1,
            })?;
        } else if begins_run(free, byte) {
            let end = position + 1 + run_length(&text[position + 1..]);
            found.push(Token {
                start: position,
                end,
            })?;
        }
        free = parts_runs(byte);
    }
    Ok(found)
}

/// The tokens of a line as texts.
#[tactic(auto, unfolding(crate::specs::Tokens::token_texts))]
pub fn token_texts<'a>(alloc: Global, line: &'a str) -> Result<Vec<&'a str>, Memory>
    ensures { IfOk result (λ v. map (λ x. x.now) v.items ≡ Tokens.token_texts line.now) }
{
    let mut texts = Vec::new(alloc);
    for token in &tokens(alloc, line.as_bytes())? {
        texts.push(&line[token.start..token.end])?;
    }
    Ok(texts)
}

/// Whether the byte is a token of its own.
fn stands_alone(byte: u8) -> bool
    ensures { result ≡ Tokens.stands_alone byte }
{
    matches!(byte, b'{' | b'}' | b'[' | b']' | b'|' | b',' | b'=')
}

/// Whether the byte is in no run.
fn parts_runs(byte: u8) -> bool
    ensures { result ≡ Tokens.parts_runs byte }
{
    is_blank(byte) || stands_alone(byte)
}

/// Whether a run begins with a byte that is no token of its own; `free` where none goes on there.
fn begins_run(free: bool, byte: u8) -> bool
    ensures { result ≡ (free && not (Words.is_blank byte)) }
{
    free && !is_blank(byte)
}

/// The length of the run at the head of a text.
fn run_length(text: &[u8]) -> usize
    ensures value { result ≡ position_or_len Tokens.parts_runs text.now }
    ensures within { result ≤ length text.now }
{
    text.iter()
        .position(|b| parts_runs(*b))
        .unwrap_or(text.len())
}
