//! A collection of files that are fetched whole, by name.
//!
//! The length of a file isn't the program's to choose, so each fetch has a limit, past which no bytes are answered.
//! That there is no file of a name is an answer; that the shelf failed says nothing of the file.

ghost use Rattle.std.specs.Prelude.{◌≡◌, ◌≤◌, Bool, List, ℕ, Option, IsTrue, IfOk, IsErrOf};
ghost use Rattle.chart_ports.specs.Count.{Rose};
ghost use Rattle.chart_ports.specs.declared.shelf.ShelfError.TheVariants.{NoMemory};
ghost use Rattle.chart_ports.specs.Fetched.{fetched_of, IsWithin};

use crate::file_bytes::FileBytes;
use std::alloc::{AllocError, AllocFailed, Global};
use thiserror::Error;

/// Why nothing is known of a file.
#[derive(Clone, Copy, Debug, PartialEq, Eq, Error)]
pub enum ShelfError {
    /// The shelf failed, and counted it.
    #[error("the shelf failed")]
    Failed,
    /// There was no memory for the file.
    #[error("no memory for the file")]
    NoMemory,
}

impl From<AllocError> for ShelfError {
    ghost from_gives = { λ _ error. error ≡ NoMemory };

    fn from(_: AllocError) -> ShelfError {
        ShelfError::NoMemory
    }
}

impl<T: Drop> From<AllocFailed<T>> for ShelfError {
    ghost from_gives = { λ _ error. error ≡ NoMemory };

    fn from(_: AllocFailed<T>) -> ShelfError {
        ShelfError::NoMemory
    }
}

/// What a shelf has under a name.
#[derive(Debug, Drop)]
pub enum Fetched {
    /// The file's bytes.
    Bytes(FileBytes),
    /// There is no file of the name.
    Absent,
    /// The file has more bytes than were allowed.
    Long,
}

/// A collection of files that are fetched whole, by name.
pub trait Shelf {
    /// Whether contracts see the files.
    ghost tells: { Bool };

    /// The bytes under each name, where they are told.
    ghost files: { Self → List ℕ → Option (List ℕ) };

    /// How often a call has failed. The number never falls.
    ghost faults: { Self → ℕ };

    /// The file of this name, where it has at most `limit` bytes.
    fn fetch(&mut self, alloc: Global, name: &str, limit: u64) -> Result<Fetched, ShelfError>
        ensures found { IsTrue tells → IfOk result (λ fetched. fetched ≡ fetched_of limit (files self.old name.now)) }
        ensures within { IfOk result (IsWithin limit) }
        ensures same { IsTrue tells → files self.new ≡ files self.old }

        ensures later { faults self.old ≤ faults self.new }
        ensures failed { IsErrOf result ShelfError.Failed → Rose (faults self.old) (faults self.new) };
}
