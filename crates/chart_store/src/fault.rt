//! Why a file is not taken over.
//!
//! Each crate below has faults of its own, which become rows of the one table of refusals here. A file is judged
//! without a desk, so no fault of the disk is among them: `SubmitFault` has it beside these.

ghost use Rattle.std.specs.Prelude.{◌≡◌};
ghost use Rattle.chart_store.specs.declared.fault.TakeFault.TheVariants.{NoMemory};

use crate::refusal::Refusal;
use chart_closure::ClosureFault;
use iso8211_records::FileFault;
use s57_records::DatasetFault;
use std::alloc::{AllocError, AllocFailed};
use thiserror::Error;
use update_apply::ChangeFault;
use update_sequence::{BuildFault, ReadFault, SequenceFault};

/// Why a file is not taken over. What is held stays as it was.
#[derive(Debug, Drop, Error)]
pub enum TakeFault {
    /// It is refused.
    #[error(transparent)]
    Refused(Refusal),
    /// There was no memory, or a limit on the work for one file was passed.
    #[error("there was no memory, or too much work for one file")]
    NoMemory,
}

impl From<AllocError> for TakeFault {
    ghost from_gives = { λ _ e. e ≡ NoMemory };

    fn from(_: AllocError) -> TakeFault {
        TakeFault::NoMemory
    }
}

impl<T: Drop> From<AllocFailed<T>> for TakeFault {
    ghost from_gives = { λ _ e. e ≡ NoMemory };

    fn from(_: AllocFailed<T>) -> TakeFault {
        TakeFault::NoMemory
    }
}

impl From<Refusal> for TakeFault {
    ghost use Rattle.std.specs.Prelude.{◌≡◌};
    ghost use Rattle.chart_store.specs.declared.fault.TakeFault.TheVariants.{Refused};

    ghost from_gives = { λ refusal e. e ≡ Refused refusal };

    fn from(refusal: Refusal) -> TakeFault {
        TakeFault::Refused(refusal)
    }
}

impl From<FileFault> for TakeFault {
    ghost use Rattle.std.specs.Prelude.{◌≡◌};
    ghost use Rattle.chart_store.specs.Refusal.{refusal_of_file};
    ghost use Rattle.chart_store.specs.Fault.{fault_of};

    ghost from_gives = { λ fault e. e ≡ fault_of (refusal_of_file fault) };

    fn from(fault: FileFault) -> TakeFault {
        let refusal = match fault {
            FileFault::Leader(at) => Refusal::Leader(at),
            FileFault::Directory(at) => Refusal::Directory(at),
            FileFault::Span(at) => Refusal::Span(at),
            FileFault::Terminator(at) => Refusal::Terminator(at),
            FileFault::Descriptor(tag) => Refusal::Descriptor(tag),
            FileFault::Subfield(record, tag) => Refusal::Subfield { record, tag },
            FileFault::NoMemory => return TakeFault::NoMemory,
        };
        TakeFault::Refused(refusal)
    }
}

impl From<DatasetFault> for TakeFault {
    ghost use Rattle.std.specs.Prelude.{◌≡◌};
    ghost use Rattle.chart_store.specs.Refusal.{refusal_of_records};
    ghost use Rattle.chart_store.specs.Fault.{fault_of};

    ghost from_gives = { λ fault e. e ≡ fault_of (refusal_of_records fault) };

    fn from(fault: DatasetFault) -> TakeFault {
        let refusal = match fault {
            DatasetFault::NoGeneral => Refusal::NoGeneral,
            DatasetFault::MissingField { record, tag } => Refusal::MissingField { record, tag },
            DatasetFault::Value { record, label } => Refusal::Value { record, label },
            DatasetFault::Profile(label) => Refusal::Profile(label),
            DatasetFault::NoMemory => return TakeFault::NoMemory,
        };
        TakeFault::Refused(refusal)
    }
}

impl From<ReadFault> for TakeFault {
    ghost use Rattle.std.specs.Prelude.{◌≡◌};
    ghost use Rattle.chart_store.specs.Refusal.{refusal_of_read};
    ghost use Rattle.chart_store.specs.Fault.{fault_of};

    ghost from_gives = { λ fault e. e ≡ fault_of (refusal_of_read fault) };

    fn from(fault: ReadFault) -> TakeFault {
        match fault {
            ReadFault::File(fault) => TakeFault::from(fault),
            ReadFault::Dataset(fault) => TakeFault::from(fault),
            ReadFault::NoMemory => TakeFault::NoMemory,
        }
    }
}

impl From<SequenceFault> for TakeFault {
    ghost use Rattle.std.specs.Prelude.{◌≡◌};
    ghost use Rattle.chart_store.specs.declared.fault.TakeFault.TheVariants.{Refused};
    ghost use Rattle.chart_store.specs.Refusal.{refusal_of_sequence};

    ghost from_gives = { λ fault e. e ≡ Refused (refusal_of_sequence fault) };

    fn from(fault: SequenceFault) -> TakeFault {
        TakeFault::Refused(match fault {
            SequenceFault::NoBase(key) => Refusal::NoBase(key),
            SequenceFault::StaleBase {
                held_edition,
                held_update,
                edition,
                update,
            } => Refusal::StaleBase {
                held_edition,
                held_update,
                edition,
                update,
            },
            SequenceFault::Edition { held, given } => Refusal::Edition { held, given },
            SequenceFault::Gap { wanted, given } => Refusal::Gap { wanted, given },
            SequenceFault::Cancelled(key) => Refusal::Cancelled(key),
        })
    }
}

impl From<ChangeFault> for TakeFault {
    ghost use Rattle.std.specs.Prelude.{◌≡◌};
    ghost use Rattle.chart_store.specs.Refusal.{refusal_of_change};
    ghost use Rattle.chart_store.specs.Fault.{fault_of};

    ghost from_gives = { λ fault e. e ≡ fault_of (refusal_of_change fault) };

    fn from(fault: ChangeFault) -> TakeFault {
        let refusal = match fault {
            ChangeFault::Present { name } => Refusal::Present { name },
            ChangeFault::Absent { name } => Refusal::Absent { name },
            ChangeFault::Version { name, kept, given } => Refusal::Version { name, kept, given },
            ChangeFault::Foid { name, kept, given } => Refusal::Foid { name, kept, given },
            ChangeFault::Index {
                name,
                length,
                index,
            } => Refusal::Index {
                name,
                length,
                index,
            },
            ChangeFault::Count {
                name,
                stated,
                found,
            } => Refusal::Count {
                name,
                stated,
                found,
            },
            ChangeFault::NoControl { name } => Refusal::NoControl { name },
            ChangeFault::Mixed { name } => Refusal::Mixed { name },
            ChangeFault::NoMemory => return TakeFault::NoMemory,
        };
        TakeFault::Refused(refusal)
    }
}

impl From<ClosureFault> for TakeFault {
    ghost use Rattle.std.specs.Prelude.{◌≡◌};
    ghost use Rattle.chart_store.specs.declared.fault.TakeFault.TheVariants.{Refused};
    ghost use Rattle.chart_store.specs.Refusal.{refusal_of_closure};

    ghost from_gives = { λ fault e. e ≡ Refused (refusal_of_closure fault) };

    fn from(fault: ClosureFault) -> TakeFault {
        TakeFault::Refused(match fault {
            ClosureFault::Dangling(name, target) => Refusal::Dangling { name, target },
            ClosureFault::EdgeNodes(name) => Refusal::EdgeNodes(name),
            ClosureFault::RingOpen(name) => Refusal::RingOpen(name),
            ClosureFault::WrongPointer(name) => Refusal::WrongPointer(name),
        })
    }
}

impl From<BuildFault> for TakeFault {
    ghost use Rattle.std.specs.Prelude.{◌≡◌};
    ghost use Rattle.chart_store.specs.Refusal.{refusal_of_build};
    ghost use Rattle.chart_store.specs.Fault.{fault_of};

    ghost from_gives = { λ fault e. e ≡ fault_of (refusal_of_build fault) };

    fn from(fault: BuildFault) -> TakeFault {
        match fault {
            BuildFault::Change(fault) => TakeFault::from(fault),
            BuildFault::Closure(fault) => TakeFault::from(fault),
            BuildFault::NoMemory => TakeFault::NoMemory,
        }
    }
}
