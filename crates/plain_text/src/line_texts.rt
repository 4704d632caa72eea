//! The lines of a text as bytes, each with its number.
ghost use Rattle.std.specs.Prelude.{◌≡◌, ◌^◌, ◌<◌, length};
ghost use Rattle.std.specs.Iterator.{YieldsFirstBy, item_count};
ghost use Rattle.plain_text.specs.Lines;

use crate::breaks::first_line;
use std::marker::Model;

/// A line of a text. Its end isn't part of it.
#[derive(Clone, Copy, Debug, PartialEq, Eq)]
pub struct NumberedLine<'a> {
    /// Its number, from 1.
    pub number: u32,
    /// Its bytes.
    pub bytes: &'a [u8],
}

/// The lines of a text, seen as the list of those that are left.
#[derive(Drop)]
pub struct NumberedLines<'a> {
    rest: &'a [u8],
    given: u32,
}

impl<'a> Model for NumberedLines<'a> {
    ghost use Rattle.std.specs.Prelude.{ℕ, List, ◌+◌, ◌^◌, ◌<◌, ◌≤◌, length};
    ghost use Rattle.plain_text.specs.Lines.{lines, numbered_from};

    ghost Value = { List (ℕ × List ℕ) };

    ghost view = { λ l. numbered_from (l.given + 1) (lines l.rest.now) };

    ghost invariant = { λ l. l.given + length l.rest.now < 2 ^ 32 };
}

/// The lines of a text, numbered from 1. A line ends before a line feed, and before one
/// carriage return directly in front of it; the last line may have no end. Takes no memory.
pub fn numbered_lines(text: &[u8]) -> NumberedLines<'_>
    requires { length text.now < 2 ^ 32 }
    ensures { result ≡ Lines.numbered_lines text.now }
{
    NumberedLines {
        rest: text,
        given: 0,
    }
}

impl<'a> Iterator for NumberedLines<'a> {
    type Item = NumberedLine<'a>;

    ghost next_gives = { YieldsFirstBy (λ line. (line.number, line.bytes.now)) (λ rest. rest) };

    ghost remaining = { item_count (λ rest. rest) };

    fn next(&mut self) -> Option<NumberedLine<'a>> {
        let rest = self.rest;
        if rest.is_empty() {
            return None;
        }
        let (bytes, later) = first_line(rest);
        let number = self.given + 1;
        *self = NumberedLines {
            rest: later,
            given: number,
        };
        Some(NumberedLine { number, bytes })
    }
}
