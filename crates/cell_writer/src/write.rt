//! Cells as files that read back.
//!
//! `cell_bytes` says which bytes are written, and this crate that they are the chart's: reading the file gives the same
//! records.

ghost use Rattle.std.specs.Prelude.{IfOk};
ghost use Rattle.chart_closure.specs.Closed.{IsClosed};
ghost use Rattle.cell_bytes.specs.Answers.{GivesWritten};
ghost use Rattle.cell_bytes.specs.Written.{base_file_of};
ghost use Rattle.cell_writer.specs.ReadBack.{IsBaseFileOf};

use cell_bytes::{WriteFault, files_are_read, spell_cell};
use chart_closure::first_is_least;
use chart_model::{Cell, Octets};
use std::alloc::Global;

/// Writes a cell as a base file of its edition and update: a data descriptive record, a record of general information,
/// one of parameters, one of each vector and one of each feature. All records insert. Of a closed chart the file reads
/// back as the same chart.
///
/// The file and the longest record are kept at once.
///
/// # Errors
///
/// `RecordLong` with the least name of a record that is too long, or else `CellLong`; `NoMemory`.
pub fn write_cell(alloc: Global, cell: &Cell) -> Result<Octets, WriteFault>
    ensures exact { GivesWritten result (base_file_of cell.now) }
    ensures reads_back { IsClosed cell.now → IfOk result (λ file. IsBaseFileOf cell.now file) }
{
    // The laws are of cells, and a value is known to be one where a field of it is read.
    let _ = &cell.header;
    first_is_least();
    files_are_read();
    spell_cell(alloc, cell)
}
