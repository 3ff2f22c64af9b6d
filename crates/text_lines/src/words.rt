//! The words of a line.
//!
//! A line of a script or a catalogue has three words at most, so its words are a value to match on, and no list.

ghost use Rattle.text_lines.specs.Lines.{words_of};
ghost use Rattle.text_lines.specs.Words.{AreWords};

use crate::parts::cut_part;

/// What parts the words of a line.
const SPACE: u8 = b' ';

/// The words of a line, where they are no more than three.
#[derive(Clone, Copy, Debug)]
pub enum Words<'a> {
    One(&'a [u8]),
    Two(&'a [u8], &'a [u8]),
    Three(&'a [u8], &'a [u8], &'a [u8]),
    /// More than three.
    More,
}

/// The words of a line: what stands between single spaces. A line has one word at least, which is empty where the line
/// is. It takes no memory.
pub fn read_words(line: &[u8]) -> Words
    ensures { AreWords result (words_of line.now) }
{
    let (first, rest) = cut_part(line, SPACE);
    let Some(rest) = rest else {
        return Words::One(first);
    };
    let (second, rest) = cut_part(rest, SPACE);
    let Some(rest) = rest else {
        return Words::Two(first, second);
    };
    let (third, rest) = cut_part(rest, SPACE);
    match rest {
        Some(_) => Words::More,
        None => Words::Three(first, second, third),
    }
}
