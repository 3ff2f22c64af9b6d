//! Why calls of a refresh failed.
//!
//! It tells want of memory from a failure of the panel: the latter is answered only where the panel counted a fault.

ghost use Rattle.std.specs.Prelude.{◌≡◌};
ghost use Rattle.scene_sync.specs.Fault.{fault_of};
ghost use Rattle.scene_sync.specs.declared.fault.PaintFault.TheVariants.{NoMemory};

use panel_port::PanelError;
use std::alloc::AllocError;
use thiserror::Error;

/// Why a refresh was given up. The scene is stale then.
#[derive(Clone, Copy, Debug, PartialEq, Eq, Error)]
pub enum PaintFault {
    /// A call of the panel failed, and the panel counted it.
    #[error("the panel failed")]
    Panel,
    /// There was no memory for a block.
    #[error("no memory for a block")]
    NoMemory,
}

impl From<PanelError> for PaintFault {
    ghost from_gives = { λ error fault. fault ≡ fault_of error };

    fn from(error: PanelError) -> PaintFault {
        match error {
            PanelError::Failed => PaintFault::Panel,
            PanelError::NoMemory => PaintFault::NoMemory,
        }
    }
}

impl From<AllocError> for PaintFault {
    ghost from_gives = { λ _ fault. fault ≡ NoMemory };

    fn from(_: AllocError) -> PaintFault {
        PaintFault::NoMemory
    }
}
