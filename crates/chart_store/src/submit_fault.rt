//! Why a store does not accept a command.
//!
//! It is what `LiveCells::take` may answer and the fault of the desk beside it. After that one what the disk holds is
//! known only by reading it again, so it ends the store, and the others don't.

ghost use Rattle.std.specs.Prelude.{◌≡◌};
ghost use Rattle.chart_store.specs.declared.submit_fault.SubmitFault.TheVariants.{NoMemory};

use crate::fault::TakeFault;
use crate::refusal::Refusal;
use bank_journal::AppendFault;
use bank_pair::SaveFault;
use chart_ports::Failed;
use std::alloc::AllocError;
use thiserror::Error;

/// Why a store does not accept a command. What is held stays as it was.
#[derive(Debug, Drop, Error)]
pub enum SubmitFault {
    /// It is refused.
    #[error(transparent)]
    Refused(Refusal),
    /// A call of the desk failed. The store is used no more, and has to be opened again: it then holds what was held
    /// before the command, or what the command leaves.
    #[error("the disk failed")]
    DeskFault,
    /// There was no memory, or a limit on the work for one file was passed.
    #[error("there was no memory, or too much work for one file")]
    NoMemory,
}

impl From<AllocError> for SubmitFault {
    ghost from_gives = { λ _ e. e ≡ NoMemory };

    fn from(_: AllocError) -> SubmitFault {
        SubmitFault::NoMemory
    }
}

impl From<Refusal> for SubmitFault {
    ghost use Rattle.std.specs.Prelude.{◌≡◌};
    ghost use Rattle.chart_store.specs.declared.submit_fault.SubmitFault.TheVariants.{Refused};

    ghost from_gives = { λ refusal e. e ≡ Refused refusal };

    fn from(refusal: Refusal) -> SubmitFault {
        SubmitFault::Refused(refusal)
    }
}

impl From<TakeFault> for SubmitFault {
    ghost use Rattle.std.specs.Prelude.{◌≡◌};
    ghost use Rattle.chart_store.specs.Submitted.{fault_of_taking};

    ghost from_gives = { λ fault e. e ≡ fault_of_taking fault };

    fn from(fault: TakeFault) -> SubmitFault {
        match fault {
            TakeFault::Refused(refusal) => SubmitFault::Refused(refusal),
            TakeFault::NoMemory => SubmitFault::NoMemory,
        }
    }
}

impl From<AppendFault> for SubmitFault {
    ghost use Rattle.std.specs.Prelude.{◌≡◌};
    ghost use Rattle.chart_store.specs.Submitted.{fault_of_appending};

    ghost from_gives = { λ fault e. e ≡ fault_of_appending fault };

    fn from(fault: AppendFault) -> SubmitFault {
        match fault {
            AppendFault::DeskFault => SubmitFault::DeskFault,
            AppendFault::Full { length, need } => {
                SubmitFault::Refused(Refusal::BankFull { length, need })
            }
        }
    }
}

impl From<Failed> for SubmitFault {
    ghost use Rattle.std.specs.Prelude.{◌≡◌};
    ghost use Rattle.chart_store.specs.declared.submit_fault.SubmitFault.TheVariants.{DeskFault};

    ghost from_gives = { λ _ e. e ≡ DeskFault };

    fn from(_: Failed) -> SubmitFault {
        SubmitFault::DeskFault
    }
}

impl From<SaveFault> for SubmitFault {
    ghost use Rattle.std.specs.Prelude.{◌≡◌};
    ghost use Rattle.chart_store.specs.Submitted.{fault_of_saving};

    ghost from_gives = { λ fault e. e ≡ fault_of_saving fault };

    fn from(fault: SaveFault) -> SubmitFault {
        let SaveFault::Full { need } = fault;
        SubmitFault::Refused(Refusal::BankFull { length: 0, need })
    }
}
