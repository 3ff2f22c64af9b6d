//! Why a file is not taken.
//!
//! Reading, sequence and building each have a type of their own, since each is asked by itself. The layers below all
//! have a want of memory; it becomes one variant here, so that the other variants always name what is wrong with the
//! file.

ghost use Rattle.std.specs.Prelude.{◌≡◌};
ghost use Rattle.update_sequence.specs.declared.fault.BuildFault.TheVariants.{NoMemory as NoMemoryForChart};

use chart_closure::ClosureFault;
use chart_model::Key;
use iso8211_records::FileFault;
use s57_records::DatasetFault;
use std::alloc::AllocError;
use thiserror::Error;
use update_apply::ChangeFault;

/// Why bytes are no cell file.
#[derive(Clone, Copy, Debug, PartialEq, Eq, Error)]
pub enum ReadFault {
    /// They are no file of records (ISO/IEC 8211).
    #[error(transparent)]
    File(FileFault),
    /// Its records are no data set (S-57).
    #[error(transparent)]
    Dataset(DatasetFault),
    /// There was no memory for the data set, or more bytes than the limit would be read of overlapping fields.
    #[error("there was no memory, or too much work for one file")]
    NoMemory,
}

impl From<FileFault> for ReadFault {
    ghost use Rattle.std.specs.Prelude.{◌≡◌};
    ghost use Rattle.update_sequence.specs.Reading.{fault_of_file};

    ghost from_gives = { λ fault e. e ≡ fault_of_file fault };

    fn from(fault: FileFault) -> ReadFault {
        match fault {
            FileFault::NoMemory => ReadFault::NoMemory,
            _ => ReadFault::File(fault),
        }
    }
}

impl From<DatasetFault> for ReadFault {
    ghost use Rattle.std.specs.Prelude.{◌≡◌};
    ghost use Rattle.update_sequence.specs.Reading.{fault_of_records};

    ghost from_gives = { λ fault e. e ≡ fault_of_records fault };

    fn from(fault: DatasetFault) -> ReadFault {
        match fault {
            DatasetFault::NoMemory => ReadFault::NoMemory,
            _ => ReadFault::Dataset(fault),
        }
    }
}

/// Why a file may not follow what is held of its cell (S-57 Appendix B.1, 5.7 and 8.3.1).
#[derive(Clone, Copy, Debug, PartialEq, Eq, Error)]
pub enum SequenceFault {
    /// An update of a cell that isn't held.
    #[error("cell {} is not held, and an update needs its base file", .0.as_slice().escape_ascii())]
    NoBase(Key),
    /// A base file whose edition and update come before the held ones.
    #[error("edition {edition}, update {update} comes before the held edition {held_edition}, update {held_update}")]
    StaleBase {
        held_edition: u32,
        held_update: u32,
        edition: u32,
        update: u32,
    },
    /// An update of another edition than the held one.
    #[error("an update of edition {given} does not follow edition {held}")]
    Edition {
        held: u32,
        given: u32,
    },
    /// An update whose number isn't the held one plus 1.
    #[error("update {given} does not follow: the next is update {wanted}")]
    Gap {
        wanted: u64,
        given: u32,
    },
    /// An update of a cell that is cancelled.
    #[error("cell {} is cancelled, and no update follows", .0.as_slice().escape_ascii())]
    Cancelled(Key),
}

/// Why a data set builds no chart.
#[derive(Clone, Copy, Debug, PartialEq, Eq, Error)]
pub enum BuildFault {
    /// The first change that can't be made.
    #[error(transparent)]
    Change(ChangeFault),
    /// The chart that the changes leave isn't closed.
    #[error(transparent)]
    Closure(ClosureFault),
    /// There was no memory for the chart, or its changes would move more than 268,435,456 items of lists.
    #[error("there was no memory for the chart, or its changes move too many items of lists")]
    NoMemory,
}

impl From<ChangeFault> for BuildFault {
    ghost use Rattle.std.specs.Prelude.{◌≡◌};
    ghost use Rattle.update_sequence.specs.Answers.{fault_of_change};

    ghost from_gives = { λ fault e. e ≡ fault_of_change fault };

    fn from(fault: ChangeFault) -> BuildFault {
        match fault {
            ChangeFault::NoMemory => BuildFault::NoMemory,
            _ => BuildFault::Change(fault),
        }
    }
}

impl From<ClosureFault> for BuildFault {
    ghost use Rattle.std.specs.Prelude.{◌≡◌};
    ghost use Rattle.update_sequence.specs.declared.fault.BuildFault.TheVariants.{Closure};

    ghost from_gives = { λ fault e. e ≡ Closure fault };

    fn from(fault: ClosureFault) -> BuildFault {
        BuildFault::Closure(fault)
    }
}

impl From<AllocError> for BuildFault {
    ghost from_gives = { λ _ e. e ≡ NoMemoryForChart };

    fn from(_: AllocError) -> BuildFault {
        BuildFault::NoMemory
    }
}
