//! The words of a line.
//!
//! No more than nine digits are read, so a number fits 32 bits and needs no further test.

ghost use Rattle.std.specs.Option.{SomeIff};
ghost use Rattle.text_scan.specs.Number.{value_of};
ghost use Rattle.script_reader.specs.Number.{IsShortNumber};

use text_scan::read_number;

/// The most digits of a number on a line.
const MOST_DIGITS: usize = 9;

/// The number that a word is: 1 to 9 digits.
pub fn read_short(word: &[u8]) -> Option<u32>
    ensures { SomeIff result (IsShortNumber word.now) (value_of word.now) }
{
    if word.len() > MOST_DIGITS {
        return None;
    }
    match read_number(word) {
        Some(number) => Some(number as u32),
        None => None,
    }
}
