//! Why a line was not answered.
//!
//! A refusal is a reply, also where the shelf fails (`no 72`). So a run stops at a line for two causes alone, after
//! which the session is used no more.

ghost use Rattle.std.specs.Prelude.{◌≡◌};
ghost use Rattle.ecdis_cli.specs.declared.run.stop.Stop.TheVariants.{DeskFault, NoMemory};

use chart_ports::Failed;
use session_core::TurnFault;
use std::alloc::{AllocError, AllocFailed};

/// Why a line was not answered. The run ends there.
#[derive(Clone, Copy, Debug, PartialEq, Eq)]
pub enum Stop {
    /// The disk failed, or the reply could not be said.
    DeskFault,
    /// There was no memory.
    NoMemory,
}

impl From<Failed> for Stop {
    ghost from_gives = { λ _ e. e ≡ DeskFault };

    fn from(_: Failed) -> Stop {
        Stop::DeskFault
    }
}

impl From<AllocError> for Stop {
    ghost from_gives = { λ _ e. e ≡ NoMemory };

    fn from(_: AllocError) -> Stop {
        Stop::NoMemory
    }
}

impl<T: Drop> From<AllocFailed<T>> for Stop {
    ghost from_gives = { λ _ e. e ≡ NoMemory };

    fn from(_: AllocFailed<T>) -> Stop {
        Stop::NoMemory
    }
}

impl From<TurnFault> for Stop {
    ghost use Rattle.std.specs.Prelude.{◌≡◌};
    ghost use Rattle.ecdis_cli.specs.Stop.{stop_of};

    ghost from_gives = { λ fault e. e ≡ stop_of fault };

    fn from(fault: TurnFault) -> Stop {
        match fault {
            TurnFault::DeskFault => Stop::DeskFault,
            TurnFault::NoMemory => Stop::NoMemory,
        }
    }
}
