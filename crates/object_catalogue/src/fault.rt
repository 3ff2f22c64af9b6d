//! Why a catalogue is not read.
//!
//! Want of memory stands beside the faults of lines, so that one type serves every call of the reading.

ghost use Rattle.std.specs.Prelude.{◌≡◌};
ghost use Rattle.object_catalogue.specs.declared.fault.CatalogueFault.TheVariants.{NoMemory};

use std::alloc::AllocError;
use thiserror::Error;

/// Why a catalogue is not read: the fault of its first line that has one. Lines are counted from 1.
#[derive(Clone, Copy, Debug, PartialEq, Eq, Error)]
pub enum CatalogueFault {
    /// The line of this number is no entry, or stands behind the 10,000th.
    #[error("line {0} of the catalogue is not understood")]
    BadLine(u64),
    /// The code or the acronym on the line of this number stands before it, among the entries of its kind.
    #[error("the code or the acronym on line {0} of the catalogue is there twice")]
    Twice(u64),
    #[error("there was no memory")]
    NoMemory,
}

impl From<AllocError> for CatalogueFault {
    ghost from_gives = { λ _ e. e ≡ NoMemory };

    fn from(_: AllocError) -> CatalogueFault {
        CatalogueFault::NoMemory
    }
}
