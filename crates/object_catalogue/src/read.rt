//! A catalogue, read.
//!
//! What a line's fault is depends on the lines before it, so the catalogue so far is handed from line to line.

ghost use Rattle.object_catalogue.specs.Reading.{catalogue_in, line_in};
ghost use Rattle.object_catalogue.specs.Answers.{Answers};

use crate::catalogue::Catalogue;
use crate::entry::read_entry;
use crate::fault::CatalogueFault;
use std::alloc::Global;
use text_lines::{is_silent, numbered_lines};

/// The most lines of a catalogue.
const MOST_LINES: u64 = 10_000;

/// The catalogue with what the line of this number says.
#[tactic(auto, unfolding(crate::specs::Reading::line_in))]
fn read_line(catalogue: Catalogue, number: u64, line: &[u8]) -> Result<Catalogue, CatalogueFault>
    ensures { Answers result (line_in catalogue number line.now) }
{
    if number > MOST_LINES {
        return Err(CatalogueFault::BadLine(number));
    }
    if is_silent(line) {
        return Ok(catalogue);
    }
    let Some(entry) = read_entry(line) else {
        return Err(CatalogueFault::BadLine(number));
    };
    if catalogue.has(&entry) {
        return Err(CatalogueFault::Twice(number));
    }
    Ok(catalogue.with(entry)?)
}

/// The catalogue that the bytes are: lines of entries, or the fault of the first line that has one.
///
/// Lines end with a line feed, the last perhaps without; a carriage return before it is removed. Empty lines and those
/// that begin with `#` count and say nothing. A line behind the 10,000th is bad, whatever it holds.
pub fn read_objects(alloc: Global, bytes: &[u8]) -> Result<Catalogue, CatalogueFault>
    ensures { Answers result (catalogue_in bytes.now) }
{
    let mut catalogue = Catalogue::new(alloc);
    for (number, line) in numbered_lines(bytes) {
        catalogue = read_line(catalogue, number, line)?;
    }
    Ok(catalogue)
}
