//! Why a call of a panel failed.
//!
//! Want of memory isn't counted, since it is no failure of the panel: `Failed` alone is answered only where the panel's
//! count of faults rose.

use thiserror::Error;

/// Why a call of a panel failed. What the panel shows is not known then, until it is cleared.
#[derive(Clone, Copy, Debug, PartialEq, Eq, Error)]
pub enum PanelError {
    /// The panel failed, and counted it.
    #[error("the panel failed")]
    Failed,
    /// There was no memory for the block.
    #[error("no memory for the block")]
    NoMemory,
}
