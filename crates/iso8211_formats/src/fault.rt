//! Why a descriptor was not read.
//!
//! There is one cause alone: which field of which file it was is told by who reads the file.

use thiserror::Error;

/// Why a descriptor was not read.
#[derive(Clone, Copy, Debug, PartialEq, Eq, Error)]
pub enum DescriptorFault {
    /// The field isn't a data descriptive field.
    #[error("the bytes are no data descriptive field")]
    Bad,
}
