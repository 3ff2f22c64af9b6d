//! Why a file of colours is not read.
//!
//! Want of memory stands beside the faults of lines, so that one type serves every call of the reading.

ghost use Rattle.std.specs.Prelude.{◌≡◌};
ghost use Rattle.colour_table.specs.declared.fault.ColoursFault.TheVariants.{NoMemory};

use std::alloc::AllocError;
use thiserror::Error;

/// Why a file of colours is not read: the fault of its first line that has one. Lines are counted from 1.
#[derive(Clone, Copy, Debug, PartialEq, Eq, Error)]
pub enum ColoursFault {
    /// The line of this number is no colour under a token, or stands behind the 1,000th.
    #[error("line {0} of the colours is not understood")]
    BadLine(u64),
    /// The token on the line of this number stands before it.
    #[error("the token on line {0} of the colours is there twice")]
    Twice(u64),
    #[error("there was no memory")]
    NoMemory,
}

impl From<AllocError> for ColoursFault {
    ghost from_gives = { λ _ e. e ≡ NoMemory };

    fn from(_: AllocError) -> ColoursFault {
        ColoursFault::NoMemory
    }
}
