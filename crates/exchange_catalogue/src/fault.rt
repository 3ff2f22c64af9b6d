//! Why a catalogue is not read, and why its cell files have no load order.
//!
//! A catalogue is read whole before its cell files are put in order. A path that isn't fetched is a fault of the order
//! alone, and only where it is that of a cell file: what else the set has doesn't matter.

ghost use Rattle.std.specs.Prelude.{◌≡◌};
ghost use Rattle.exchange_catalogue.specs.declared.fault.OrderFault.TheVariants.{NoMemory};

use iso8211_records::FileFault;
use s57_subfields::FieldFault;
use std::alloc::{AllocError, AllocFailed};
use thiserror::Error;

/// Why a catalogue is not read: the fault of the file of records, or else the first of its entries by record. Records
/// are counted from 1.
#[derive(Clone, Copy, Debug, PartialEq, Eq, Error)]
pub enum CatalogueFault {
    /// The bytes are no file of records (ISO/IEC 8211).
    #[error(transparent)]
    File(FileFault),
    /// The descriptor of the field with this tag doesn't have FILE or IMPL outside of a repeated group, and this
    /// record has such a field.
    #[error("data record {record}: the field {tag} has no FILE or no IMPL", tag = .tag.escape_ascii())]
    MissingField { record: usize, tag: [u8; 4] },
    /// The value under this label isn't a text.
    #[error("data record {record}: the value of {label} is no text", label = .label.escape_ascii())]
    Value { record: usize, label: [u8; 4] },
    /// There was no memory for the entries, or more bytes than the limit would be read of overlapping fields.
    #[error("there was no memory, or too much work for one file")]
    NoMemory,
}

impl From<FileFault> for CatalogueFault {
    ghost use Rattle.std.specs.Prelude.{◌≡◌};
    ghost use Rattle.exchange_catalogue.specs.Answers.{fault_of_file};

    ghost from_gives = { λ fault e. e ≡ fault_of_file fault };

    fn from(fault: FileFault) -> CatalogueFault {
        match fault {
            FileFault::NoMemory => CatalogueFault::NoMemory,
            _ => CatalogueFault::File(fault),
        }
    }
}

impl From<FieldFault> for CatalogueFault {
    ghost use Rattle.std.specs.Prelude.{◌≡◌};
    ghost use Rattle.exchange_catalogue.specs.Answers.{fault_of_field};

    ghost from_gives = { λ fault e. e ≡ fault_of_field fault };

    fn from(fault: FieldFault) -> CatalogueFault {
        match fault {
            FieldFault::MissingField { record, tag } => CatalogueFault::MissingField {
                record,
                tag,
            },
            FieldFault::Value { record, label } => CatalogueFault::Value { record, label },
            FieldFault::NoMemory => CatalogueFault::NoMemory,
        }
    }
}

/// Why the cell files of a catalogue have no load order: the first bad path by record, or else their number.
#[derive(Clone, Copy, Debug, PartialEq, Eq, Error)]
pub enum OrderFault {
    /// The path of the cell file in this data record of the catalogue, counted from 1, is over 255 bytes, has a byte
    /// that is no printable ASCII character, begins with `/`, or has a part `..`.
    #[error("data record {0}: the path of the cell file is not one that is fetched")]
    BadPath(u32),
    /// So many paths of cell files are listed, more than 1,000.
    #[error("{0} cell files are listed, and at most 1000 are loaded")]
    Many(usize),
    /// No cell file is listed.
    #[error("no cell file is listed")]
    Empty,
    /// There was no memory for the paths.
    #[error("there was no memory for the paths")]
    NoMemory,
}

impl From<AllocError> for OrderFault {
    ghost from_gives = { λ _ e. e ≡ NoMemory };

    fn from(_: AllocError) -> OrderFault {
        OrderFault::NoMemory
    }
}

impl<T: Drop> From<AllocFailed<T>> for OrderFault {
    ghost from_gives = { λ _ e. e ≡ NoMemory };

    fn from(_: AllocFailed<T>) -> OrderFault {
        OrderFault::NoMemory
    }
}
