//! Cells as files: the order of the records, and what is told of a cell that can't be written.
//!
//! Vectors are written before features, though a feature's name is less (RCNM 100). So a fault among the features is
//! told before one among the vectors, which came up first.

ghost use Rattle.chart_model.specs.Answers.{unless};
ghost use Rattle.std.specs.Prelude.{IfOk};
ghost use Rattle.std.specs.Option.{option_or};
ghost use Rattle.cell_bytes.specs.Answers.{GivesWritten};
ghost use Rattle.cell_bytes.specs.Written.{length_fault, base_file_of};
ghost use Rattle.cell_bytes.specs.RecordsRead.{IsCellInRange};

use crate::descriptive::put_descriptive_record;
use crate::fault::WriteFault;
use crate::file::CellFile;
use chart_model::{Cell, Octets};
use std::alloc::Global;

/// The most bytes of a cell file.
const FILE_LIMIT: usize = 8_388_608;

/// The bytes of a file, unless there is a fault of one of its records, or the file is too long.
fn finish(bytes: Octets, fault: Option<WriteFault>) -> Result<Octets, WriteFault>
    ensures { GivesWritten result (unless (option_or fault (length_fault bytes)) bytes) }
{
    if let Some(fault) = fault {
        return Err(fault);
    }
    let length = bytes.as_slice().len();
    if length > FILE_LIMIT {
        return Err(WriteFault::CellLong(length));
    }
    Ok(bytes)
}

/// Writes a cell as a base file of its edition and update: a data descriptive record, a record of general information,
/// one of parameters, one of each vector and one of each feature. All records insert.
///
/// All that is written fits its formats, so that the file is read as [`files_are_read`](crate::files_are_read) says.
///
/// The file and the longest record are kept at once.
///
/// # Errors
///
/// `RecordLong` with the least name of a record that is too long, or else `CellLong`; `NoMemory`.
pub fn spell_cell(alloc: Global, cell: &Cell) -> Result<Octets, WriteFault>
    ensures exact { GivesWritten result (base_file_of cell.now) }
    ensures in_range { IfOk result (λ _. IsCellInRange cell.now) }
{
    let mut file = CellFile::new(alloc);
    put_descriptive_record(&mut file.bytes)?;
    file.put_general(alloc, cell)?;
    file.put_parameters(cell)?;
    let of_vectors = file.put_vectors(cell)?;
    let of_features = file.put_features(cell)?;
    finish(file.into_bytes(), of_features.or(of_vectors))
}
