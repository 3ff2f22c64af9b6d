//! The bytes of the three files of a desk.
//!
//! A crash can leave many images of what the calls wrote. The fills pick three of them, which tests
//! go over.

use crate::file_bytes::FileBytes;

/// The bytes of the three files of a desk, as a read gives them or as a crash leaves them.
#[derive(Debug, Drop)]
pub struct Images {
    /// File 0.
    pub head: FileBytes,
    /// File 1.
    pub bank1: FileBytes,
    /// File 2.
    pub bank2: FileBytes,
}

/// What stands in the place of each byte that a crash may leave otherwise than a read gives it.
#[derive(Clone, Copy, Debug, PartialEq, Eq)]
pub enum Fill {
    /// The byte as the last sync left it, or 0 where the file had none there.
    Old,
    /// The byte as a read gives it.
    New,
    /// 0xFF.
    Ones,
}
