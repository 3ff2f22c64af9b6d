//! Why a file was not read.
//!
//! Bytes may have many faults, and one is told. The variants stand in the order in which a record is looked at, so that
//! which one it is doesn't hang on how the reader goes about it.

ghost use Rattle.std.specs.Prelude.{◌≡◌};
ghost use Rattle.iso8211_records.specs.declared.fault.FileFault.TheVariants.{NoMemory};
ghost use Rattle.iso8211_records.specs.declared.fault.ValuesFault.TheVariants.{NoMemory as NoMemoryForValues};

use std::alloc::{AllocError, AllocFailed};
use thiserror::Error;

/// Why a file was not read (ISO/IEC 8211): the first fault by record, and in a record the first in the
/// order of the variants.
///
/// An offset is a place in the file, counted from 0. Data records are counted from 1.
#[derive(Clone, Copy, Debug, PartialEq, Eq, Error)]
pub enum FileFault {
    /// No leader of the kind that is read begins at this offset.
    #[error("no leader of a record begins at byte {0}")]
    Leader(usize),
    /// No entry of the directory, or no closing byte of it, stands at this offset.
    #[error("no entry of a directory, and no end of it, stands at byte {0}")]
    Directory(usize),
    /// The record at this offset passes the file's end; or the field of the entry at this offset
    /// passes its record's end.
    #[error("the record at byte {0}, or the field that is named there, passes its end")]
    Span(usize),
    /// The field of the entry at this offset is empty or doesn't end with a field terminator.
    #[error("the field that is named at byte {0} does not end with a field terminator")]
    Terminator(usize),
    /// The field with this tag of the data descriptive record describes no field; or a data record has
    /// a field with this tag, and the data descriptive record has none.
    #[error("the data descriptive record describes no field {tag}", tag = .0.escape_ascii())]
    Descriptor([u8; 4]),
    /// A field with this tag of this data record has no reading by its descriptor.
    #[error("the field {tag} of data record {0} is not as it is described", tag = .1.escape_ascii())]
    Subfield(usize, [u8; 4]),
    /// There was no memory for the records.
    #[error("there was no memory for the records")]
    NoMemory,
}

impl From<AllocError> for FileFault {
    ghost from_gives = { λ _ e. e ≡ NoMemory };

    fn from(_: AllocError) -> FileFault {
        FileFault::NoMemory
    }
}

impl<T: Drop> From<AllocFailed<T>> for FileFault {
    ghost from_gives = { λ _ e. e ≡ NoMemory };

    fn from(_: AllocFailed<T>) -> FileFault {
        FileFault::NoMemory
    }
}

/// Why the values of a field were not read.
#[derive(Clone, Copy, Debug, PartialEq, Eq)]
pub(crate) enum ValuesFault {
    /// Its bytes are no spelling of values by its formats.
    Unspelled,
    /// There was no memory for its values.
    NoMemory,
}

impl From<AllocError> for ValuesFault {
    ghost from_gives = { λ _ e. e ≡ NoMemoryForValues };

    fn from(_: AllocError) -> ValuesFault {
        ValuesFault::NoMemory
    }
}

impl<T: Drop> From<AllocFailed<T>> for ValuesFault {
    ghost from_gives = { λ _ e. e ≡ NoMemoryForValues };

    fn from(_: AllocFailed<T>) -> ValuesFault {
        ValuesFault::NoMemory
    }
}
