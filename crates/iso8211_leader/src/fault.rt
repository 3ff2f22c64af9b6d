//! What is wrong with the frame of a record.
//!
//! Places are those of the file, since a record is read where it stands in the file's bytes.

use thiserror::Error;

/// What is wrong with the frame of a record, and at which place of the bytes.
#[derive(Clone, Copy, Debug, PartialEq, Eq, Error)]
pub enum FrameFault {
    /// No leader of the kind that is read begins at this place.
    #[error("no leader of a record begins at byte {0}")]
    Leader(usize),
    /// No whole entry of the directory begins at this place.
    #[error("no entry of a directory begins at byte {0}")]
    Directory(usize),
}
