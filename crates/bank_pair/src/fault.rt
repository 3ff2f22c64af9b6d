//! Why no save begins.
//!
//! A save that begins takes no memory and asks no desk, so want of room is all that can be in its way.

use thiserror::Error;

/// Why no save begins.
#[derive(Clone, Copy, Debug, PartialEq, Eq, Error)]
pub enum SaveFault {
    /// The other bank, which is empty, has no room for the so many bytes that the checkpoint needs with its header and
    /// its closed gate: 268,435,456 are the most. Nothing was changed.
    #[error("a bank has no room for {need} bytes")]
    Full { need: u64 },
}
