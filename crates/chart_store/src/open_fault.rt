//! Why a store is not opened.
//!
//! Bytes that are no store's are told from a disk that fails, by file and place. A bank that is whole may be foreign
//! too, where the command of one of its records is none, or is refused.

ghost use Rattle.std.specs.Prelude.{◌≡◌};
ghost use Rattle.chart_store.specs.declared.open_fault.OpenFault.TheVariants.{DeskFault, NoMemory};

use bank_journal::BankFault;
use chart_ports::Failed;
use std::alloc::AllocError;
use thiserror::Error;

/// Why a store is not opened.
#[derive(Clone, Copy, Debug, PartialEq, Eq, Error)]
pub enum OpenFault {
    /// A call of the desk failed.
    #[error("the disk failed")]
    DeskFault,
    /// The files are no store's. Their first fault is in the file of this number, at this place, counted from 0.
    #[error("file {0} is no store's from byte {1} on")]
    Foreign(u8, u64),
    #[error("there was no memory")]
    NoMemory,
}

impl From<Failed> for OpenFault {
    ghost from_gives = { λ _ e. e ≡ DeskFault };

    fn from(_: Failed) -> OpenFault {
        OpenFault::DeskFault
    }
}

impl From<AllocError> for OpenFault {
    ghost from_gives = { λ _ e. e ≡ NoMemory };

    fn from(_: AllocError) -> OpenFault {
        OpenFault::NoMemory
    }
}

impl From<BankFault> for OpenFault {
    ghost use Rattle.std.specs.Prelude.{◌≡◌};
    ghost use Rattle.chart_store.specs.Opened.{fault_of_bank};

    ghost from_gives = { λ fault e. e ≡ fault_of_bank fault };

    fn from(fault: BankFault) -> OpenFault {
        match fault {
            BankFault::DeskFault => OpenFault::DeskFault,
            BankFault::Foreign(bank, at) => OpenFault::Foreign(bank, at),
            BankFault::NoMemory => OpenFault::NoMemory,
        }
    }
}
