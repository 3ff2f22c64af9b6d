//! Why a line is not read.
//!
//! Want of memory is no fault of the line, and stands beside it so that one type serves the whole reading.

ghost use Rattle.std.specs.Prelude.{◌≡◌};
ghost use Rattle.script_reader.specs.declared.fault.LineFault.TheVariants.{NoMemory};

use std::alloc::AllocError;
use thiserror::Error;

/// Why a line is not read.
#[derive(Clone, Copy, Debug, PartialEq, Eq, Error)]
pub enum LineFault {
    /// 70: the line of this number asks for nothing that there is.
    #[error("line {0} is not understood")]
    BadLine(u64),
    #[error("there was no memory")]
    NoMemory,
}

impl From<AllocError> for LineFault {
    ghost from_gives = { λ _ e. e ≡ NoMemory };

    fn from(_: AllocError) -> LineFault {
        LineFault::NoMemory
    }
}
