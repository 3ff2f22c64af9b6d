//! A file of colours, read.
//!
//! What a line's fault is depends on the lines before it, so the colours so far are handed from line to line.

ghost use Rattle.std.specs.Prelude.{◌≡◌};
ghost use Rattle.colour_table.specs.Reading.{has_token, colours_in, line_in};
ghost use Rattle.colour_table.specs.Answers.{Answers};

use crate::fault::ColoursFault;
use crate::swatch::{ColourTable, Swatch, read_swatch};
use std::alloc::Global;
use text_lines::{is_silent, numbered_lines};

/// The most lines of a file of colours.
const MOST_LINES: u64 = 1_000;

/// Whether a token is there.
fn has_token(colours: &[Swatch], token: &[u8]) -> bool
    ensures { result ≡ has_token colours.now token.now }
{
    colours
        .iter()
        .any(|swatch| swatch.token.as_slice() == token)
}

/// The colours with what the line of this number says.
#[tactic(auto, unfolding(crate::specs::Reading::line_in))]
fn read_line(
    alloc: Global,
    mut colours: ColourTable,
    number: u64,
    line: &[u8],
) -> Result<ColourTable, ColoursFault>
    ensures { Answers result (line_in colours number line.now) }
{
    if number > MOST_LINES {
        return Err(ColoursFault::BadLine(number));
    }
    if is_silent(line) {
        return Ok(colours);
    }
    let Some(swatch) = read_swatch(alloc, line)? else {
        return Err(ColoursFault::BadLine(number));
    };
    if has_token(colours.as_slice(), swatch.token.as_slice()) {
        return Err(ColoursFault::Twice(number));
    }
    colours.push(swatch)?;
    Ok(colours)
}

/// The colours that the bytes are, in the order of their lines, or the fault of the first line that has one.
///
/// Lines end with a line feed, the last perhaps without; a carriage return before it is removed. Empty lines and those
/// that begin with `#` count and say nothing. A line behind the 1,000th is bad, whatever it holds.
pub fn read_colours(alloc: Global, bytes: &[u8]) -> Result<ColourTable, ColoursFault>
    ensures { Answers result (colours_in bytes.now) }
{
    let mut colours = ColourTable::new(alloc);
    for (number, line) in numbered_lines(bytes) {
        colours = read_line(alloc, colours, number, line)?;
    }
    Ok(colours)
}
