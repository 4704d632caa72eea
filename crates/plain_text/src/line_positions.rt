//! The positions of a text's lines.
ghost use Rattle.std.specs.Prelude.{◌≡◌, ◌^◌, ◌<◌, length};
ghost use Rattle.std.specs.Iterator.{YieldsFirst, item_count};
ghost use Rattle.plain_text.specs.LinePositions.{line_positions};

use crate::breaks::first_line;
use std::marker::Model;

/// The position of a line in its text.
#[derive(Clone, Copy, Debug, PartialEq, Eq)]
pub struct Line {
    /// Its number, from 1.
    pub number: u32,
    /// The index of its first byte.
    pub start: usize,
    /// The index after its last byte; the line's end isn't part of it.
    pub end: usize,
}

/// The lines of a text, seen as the list of those that are left.
#[derive(Drop)]
pub struct TextLines<'a> {
    rest: &'a [u8],
    given: u32,
    start: usize,
}

impl<'a> Model for TextLines<'a> {
    ghost use Rattle.std.specs.Prelude.{List, ◌+◌, ◌^◌, ◌<◌, ◌≤◌, length};
    ghost use Rattle.std.specs.List.{slice_split};
    ghost use Rattle.plain_text.specs.LinePositions.{positions_of};
    ghost use Rattle.plain_text.specs.Lines.{is_break};
    ghost use Rattle.plain_text.specs.declared.line_positions.Line.{Line};

    ghost Value = { List Line };

    ghost view = { λ l. positions_of l.given l.start (slice_split is_break l.rest.now) };

    ghost invariant = { λ l. (l.given ≤ l.start) × (l.start + length l.rest.now < 2 ^ 32) };
}

/// The lines of a text, numbered from 1. A line ends before a line feed, and before one
/// carriage return directly in front of it; the last line may have no end. Takes no memory.
pub fn lines(text: &[u8]) -> TextLines<'_>
    requires { length text.now < 2 ^ 32 }
    ensures { result ≡ line_positions text.now }
{
    TextLines {
        rest: text,
        given: 0,
        start: 0,
    }
}

impl<'a> Iterator for TextLines<'a> {
    type Item = Line;

    ghost next_gives = { YieldsFirst (λ rest. rest) };

    ghost remaining = { item_count (λ rest. rest) };

    fn next(&mut self) -> Option<Line> {
        let (rest, start) = (self.rest, self.start);
        if rest.is_empty() {
            return None;
        }
        let (line, later) = first_line(rest);
        let number = self.given + 1;
        *self = TextLines {
            rest: later,
            given: number,
            start: start + (rest.len() - later.len()),
        };
        Some(Line {
            number,
            start,
            end: start + line.len(),
        })
    }
}
