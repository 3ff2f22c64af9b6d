//! Why a cell is not written: the limits of the formats, and want of memory.
//!
//! The length of a record has five digits in its leader (ISO/IEC 8211), and a file that is written may be no longer
//! than one that can be loaded. The least name with a record that is too long is told, so that a cell has one fault.

ghost use Rattle.std.specs.Prelude.{◌≡◌};
ghost use Rattle.cell_bytes.specs.declared.fault.WriteFault.TheVariants.{NoMemory};

use chart_model::Name;
use std::alloc::AllocError;

/// Why a cell is not written.
#[derive(Clone, Copy, Debug, PartialEq, Eq)]
pub enum WriteFault {
    /// The record of this name, the least of those whose records are too long, would have so many bytes: more than
    /// 99,999.
    RecordLong(Name, usize),
    /// No record is too long, but the file would have so many bytes: more than 8,388,608.
    CellLong(usize),
    /// There was no memory for the file.
    NoMemory,
}

impl From<AllocError> for WriteFault {
    ghost from_gives = { λ _ e. e ≡ NoMemory };

    fn from(_: AllocError) -> WriteFault {
        WriteFault::NoMemory
    }
}
