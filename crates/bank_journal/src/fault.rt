//! Why a bank is not opened, and why a record is not appended.
//!
//! An append takes no memory and reads nothing, so it can neither want memory nor find foreign bytes; an opening needs
//! no room. So each has a type of its own.

ghost use Rattle.std.specs.Prelude.{◌≡◌};
ghost use Rattle.bank_journal.specs.declared.fault.AppendFault.TheVariants.{DeskFault as AppendFailed};
ghost use Rattle.bank_journal.specs.declared.fault.BankFault.TheVariants.{DeskFault as OpenFailed, NoMemory};

use chart_ports::Failed;
use std::alloc::AllocError;
use thiserror::Error;

/// Why a bank is not opened.
#[derive(Clone, Copy, Debug, PartialEq, Eq, Error)]
pub enum BankFault {
    /// A call of the desk failed.
    #[error("the disk failed")]
    DeskFault,
    /// The file of this number is no bank. Its first fault is at this place, counted from 0.
    #[error("file {0} is no bank from byte {1} on")]
    Foreign(u8, u64),
    #[error("there was no memory")]
    NoMemory,
}

/// Why a record is not appended.
#[derive(Clone, Copy, Debug, PartialEq, Eq, Error)]
pub enum AppendFault {
    /// A call of the desk failed. The bank is used no more.
    #[error("the disk failed")]
    DeskFault,
    /// The bank has this length, of at most 268,435,456 bytes, and has no room for the so many more that the record
    /// needs. Nothing was changed.
    #[error("a bank of {length} bytes has no room for {need} more")]
    Full { length: u64, need: u64 },
}

impl From<Failed> for BankFault {
    ghost from_gives = { λ _ e. e ≡ OpenFailed };

    fn from(_: Failed) -> BankFault {
        BankFault::DeskFault
    }
}

impl From<AllocError> for BankFault {
    ghost from_gives = { λ _ e. e ≡ NoMemory };

    fn from(_: AllocError) -> BankFault {
        BankFault::NoMemory
    }
}

impl From<Failed> for AppendFault {
    ghost from_gives = { λ _ e. e ≡ AppendFailed };

    fn from(_: Failed) -> AppendFault {
        AppendFault::DeskFault
    }
}
