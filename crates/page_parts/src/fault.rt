//! Why a part isn't read.
//!
//! Where the bytes go wrong isn't told: a checkpoint that spells no state is refused whole. Want of memory stands
//! apart, since it says nothing of the bytes.

ghost use Rattle.std.specs.Prelude.{◌≡◌};
ghost use Rattle.page_parts.specs.declared.fault.PageFault.TheVariants.{NoMemory};

use std::alloc::{AllocError, AllocFailed};

/// Why a part was not read.
#[derive(Clone, Copy, Debug, PartialEq, Eq)]
pub enum PageFault {
    /// The bytes don't begin with such a part.
    Unspelled,
    /// There was no memory for it.
    NoMemory,
}

impl From<AllocError> for PageFault {
    ghost from_gives = { λ _ e. e ≡ NoMemory };

    fn from(_: AllocError) -> PageFault {
        PageFault::NoMemory
    }
}

impl<T: Drop> From<AllocFailed<T>> for PageFault {
    ghost from_gives = { λ _ e. e ≡ NoMemory };

    fn from(_: AllocFailed<T>) -> PageFault {
        PageFault::NoMemory
    }
}
