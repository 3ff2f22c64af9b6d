//! The lines of a file, each with its number.
//!
//! Each reader of such a file answers the number of the first line that it doesn't understand. So lines are counted
//! here, once, for all of them.

ghost use Rattle.std.specs.Prelude.{◌≡◌, length};
ghost use Rattle.std.specs.Iterator.{at_most};
ghost use Rattle.std.specs.Map.Iter.{TakesFirst};
ghost use Rattle.text_lines.specs.Lines.{numbered_lines};

use crate::line::cut_line;
use std::marker::Model;

/// The lines that are left of a file, each with its number. Contracts see their list.
#[derive(Drop)]
pub struct NumberedLines<'a> {
    rest: &'a [u8],
    /// How many lines stand before the rest.
    passed: u64,
}

impl<'a> Model for NumberedLines<'a> {
    ghost use Rattle.std.specs.Prelude.{List, ℕ, ◌+◌, ◌^◌, ◌<◌, length};
    ghost use Rattle.std.specs.List.{enumerate_from};
    ghost use Rattle.std.specs.Str.Lines.{lines};

    ghost Value = { List (ℕ × List ℕ) };

    ghost view = { λ left. enumerate_from (left.passed + 1) (lines left.rest.now) };

    ghost invariant = { λ left. left.passed + length left.rest.now < 2 ^ 64 };
}

impl<'a> Iterator for NumberedLines<'a> {
    type Item = (u64, &'a [u8]);

    ghost next_gives = { TakesFirst (λ line. (line.0, line.1.now)) };

    ghost remaining = { λ left. at_most (length left) };

    fn next(&mut self) -> Option<(u64, &'a [u8])> {
        let (line, rest) = cut_line(self.rest)?;
        self.rest = rest;
        self.passed += 1;
        Some((self.passed, line))
    }
}

/// The lines of a file in order, each with its number, counted from 1. They take no memory.
pub fn numbered_lines(bytes: &[u8]) -> NumberedLines
    ensures { result ≡ numbered_lines bytes.now }
{
    NumberedLines {
        rest: bytes,
        passed: 0,
    }
}
