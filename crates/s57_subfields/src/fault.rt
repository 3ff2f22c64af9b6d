//! Why a field was not read.
//!
//! The record and the tag or the label say where, since a field is found by them.

ghost use Rattle.std.specs.Prelude.{◌≡◌};
ghost use Rattle.s57_subfields.specs.declared.fault.FieldFault.TheVariants.{NoMemory};

use std::alloc::{AllocError, AllocFailed};
use thiserror::Error;

/// Why a field was not read. Data records are counted from 1.
#[derive(Clone, Copy, Debug, PartialEq, Eq, Error)]
pub enum FieldFault {
    /// A subfield isn't in the descriptor of the field with this tag, or stands on the wrong side of its
    /// repeated group; or the record has no field with this tag.
    #[error("data record {record}: the field {tag} or a subfield of it is missing", tag = .tag.escape_ascii())]
    MissingField { record: usize, tag: [u8; 4] },
    /// A value under this label has the wrong kind, or is out of its width or range.
    #[error("data record {record}: the value of {label} is not one that is read", label = .label.escape_ascii())]
    Value { record: usize, label: [u8; 4] },
    /// There was no memory for the values.
    #[error("there was no memory for the values")]
    NoMemory,
}

impl From<AllocError> for FieldFault {
    ghost from_gives = { λ _ e. e ≡ NoMemory };

    fn from(_: AllocError) -> FieldFault {
        FieldFault::NoMemory
    }
}

impl<T: Drop> From<AllocFailed<T>> for FieldFault {
    ghost from_gives = { λ _ e. e ≡ NoMemory };

    fn from(_: AllocFailed<T>) -> FieldFault {
        FieldFault::NoMemory
    }
}
