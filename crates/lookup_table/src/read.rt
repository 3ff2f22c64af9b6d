//! A table, read.
//!
//! The limit and the order of the faults stand here; what a line may say is in `written`, and what its names stand for
//! in `named`.

ghost use Rattle.lookup_table.specs.Lines.{table_in, line_in};
ghost use Rattle.lookup_table.specs.Answers.{Answers, AnswersLine};

use crate::fault::TableFault;
use crate::line::TableLine;
use crate::named::name_line;
use crate::table::Table;
use crate::written::read_written;
use object_catalogue::Catalogue;
use std::alloc::Global;
use text_lines::{is_silent, numbered_lines};

/// The most lines of a table.
const MOST_LINES: u64 = 10_000;

/// What the line of this number says, where it says something.
#[tactic(auto, unfolding(crate::specs::Lines::line_in))]
fn read_line(
    alloc: Global,
    catalogue: &Catalogue,
    number: u64,
    line: &[u8],
) -> Result<Option<TableLine>, TableFault>
    ensures { AnswersLine result (line_in catalogue.now number line.now) }
{
    if number > MOST_LINES {
        return Err(TableFault::BadLine(number));
    }
    if is_silent(line) {
        return Ok(None);
    }
    let Some(written) = read_written(alloc, line)? else {
        return Err(TableFault::BadLine(number));
    };
    let line = name_line(alloc, catalogue, number, written)?;
    Ok(Some(line))
}

/// The table that the bytes are, with the codes of a catalogue: lines of a table, or the fault of the first line that
/// has one, and of that line the first of these: that it is bad, that a name is unknown, that a procedure is.
///
/// Lines end with a line feed, the last perhaps without; a carriage return before it is removed. Empty lines and those
/// that begin with `#` count and say nothing. A line behind the 10,000th is bad, whatever it holds.
pub fn read_table(alloc: Global, bytes: &[u8], catalogue: &Catalogue) -> Result<Table, TableFault>
    ensures { Answers result (table_in catalogue.now bytes.now) }
{
    let mut table = Table::new(alloc);
    for (number, line) in numbered_lines(bytes) {
        let said = read_line(alloc, catalogue, number, line)?;
        table = table.with_any(alloc, said)?;
    }
    Ok(table)
}
