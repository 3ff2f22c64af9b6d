//! Why a table is not read.
//!
//! Want of memory stands beside the faults of lines, so that one type serves every call of the reading.

ghost use Rattle.std.specs.Prelude.{◌≡◌};
ghost use Rattle.lookup_table.specs.declared.fault.TableFault.TheVariants.{NoMemory};

use std::alloc::AllocError;
use thiserror::Error;

/// Why a table is not read: the fault of its first line that has one, and of that line the first of these. Lines are
/// counted from 1.
#[derive(Clone, Copy, Debug, PartialEq, Eq, Error)]
pub enum TableFault {
    /// The line of this number is none of a table, or stands behind the 10,000th.
    #[error("line {0} of the table is not understood")]
    BadLine(u64),
    /// A class or an attribute on the line of this number isn't in the catalogue.
    #[error("a name on line {0} of the table is not in the catalogue")]
    UnknownName(u64),
    /// A conditional symbology procedure on the line of this number isn't one of those that there are.
    #[error("a procedure on line {0} of the table is unknown")]
    UnknownProcedure(u64),
    #[error("there was no memory")]
    NoMemory,
}

impl From<AllocError> for TableFault {
    ghost from_gives = { λ _ e. e ≡ NoMemory };

    fn from(_: AllocError) -> TableFault {
        TableFault::NoMemory
    }
}
