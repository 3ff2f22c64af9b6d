//! Why a file is no data set.
//!
//! The faults of fields are taken over with their places; those of the profile are added.

ghost use Rattle.std.specs.Prelude.{◌≡◌};
ghost use Rattle.s57_records.specs.declared.fault.DatasetFault.TheVariants.{NoMemory};

use s57_subfields::FieldFault;
use std::alloc::{AllocError, AllocFailed};
use thiserror::Error;

/// Why a file is no data set: the first fault by record, then by field, then by subfield. Records are
/// counted from 1.
#[derive(Clone, Copy, Debug, PartialEq, Eq, Error)]
pub enum DatasetFault {
    /// There is no data record, or the first has no general information (field DSID).
    #[error("the first data record has no field DSID")]
    NoGeneral,
    /// A subfield that is needed isn't in its field's descriptor, or is inside or outside the repeated group where it
    /// must be the other; or a feature has no field FOID.
    #[error("data record {record}: the field {tag} or a subfield of it is missing", tag = .tag.escape_ascii())]
    MissingField { record: usize, tag: [u8; 4] },
    /// A value has the wrong kind, or is out of its width, its range or its list of values.
    #[error("data record {record}: the value of {label} is not one that is read", label = .label.escape_ascii())]
    Value { record: usize, label: [u8; 4] },
    /// A rule of the ENC product specification (S-57 Appendix B.1) is broken: the subfield's label, or the tag DSPM,
    /// SG3D or ARCC, tells which.
    #[error("{label} is not as the product specification of ENCs has it", label = .0.escape_ascii())]
    Profile([u8; 4]),
    /// Memory ran out.
    #[error("there was no memory for the data set")]
    NoMemory,
}

impl From<AllocError> for DatasetFault {
    ghost from_gives = { λ _ e. e ≡ NoMemory };

    fn from(_: AllocError) -> DatasetFault {
        DatasetFault::NoMemory
    }
}

impl<T: Drop> From<AllocFailed<T>> for DatasetFault {
    ghost from_gives = { λ _ e. e ≡ NoMemory };

    fn from(_: AllocFailed<T>) -> DatasetFault {
        DatasetFault::NoMemory
    }
}

impl From<FieldFault> for DatasetFault {
    ghost use Rattle.std.specs.Prelude.{◌≡◌};
    ghost use Rattle.s57_records.specs.LayoutReadings.{fault_of};

    ghost from_gives = { λ fault e. e ≡ fault_of fault };

    fn from(fault: FieldFault) -> DatasetFault {
        match fault {
            FieldFault::MissingField { record, tag } => DatasetFault::MissingField { record, tag },
            FieldFault::Value { record, label } => DatasetFault::Value { record, label },
            FieldFault::NoMemory => DatasetFault::NoMemory,
        }
    }
}
