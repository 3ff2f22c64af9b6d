//! Why an event has no reply, or is refused one.
//!
//! Whatever the crates below may answer comes to three things here: a refusal, which is a reply, a fault of the desk,
//! and want of memory. Only the latter two leave the session, which is used no more after them.

ghost use Rattle.std.specs.Prelude.{◌≡◌};
ghost use Rattle.session_core.specs.declared.fault.EventFault.TheVariants.{NoMemory as NoMemoryForEvent};
ghost use Rattle.session_core.specs.declared.fault.TurnFault.TheVariants.{NoMemory};

use crate::refusal::LineRefusal;
use cell_writer::WriteFault;
use chart_ports::ShelfError;
use chart_store::{SubmitFault, TakeFault};
use panel_scenes::PanelRefusal;
use route_check::RouteFault;
use std::alloc::{AllocError, AllocFailed};
use thiserror::Error;
use update_sequence::ReadFault;

/// Why an event has no reply. The session is used no more.
#[derive(Clone, Copy, Debug, PartialEq, Eq, Error)]
pub enum TurnFault {
    /// A call of the desk failed. What is held is as it was; a store that is opened again holds that, or what the event
    /// leaves.
    #[error("the disk failed")]
    DeskFault,
    /// There was no memory. What is held is as it was, or what the event leaves.
    #[error("there was no memory")]
    NoMemory,
}

impl From<AllocError> for TurnFault {
    ghost from_gives = { λ _ e. e ≡ NoMemory };

    fn from(_: AllocError) -> TurnFault {
        TurnFault::NoMemory
    }
}

/// Why an event is not carried out, or has no reply. What is held stays as it was, unless memory ran out after its
/// command was accepted.
#[derive(Debug, Drop)]
pub enum EventFault {
    /// It is refused.
    Refused(LineRefusal),
    /// A call of the desk failed.
    DeskFault,
    /// There was no memory.
    NoMemory,
}

impl From<AllocError> for EventFault {
    ghost from_gives = { λ _ e. e ≡ NoMemoryForEvent };

    fn from(_: AllocError) -> EventFault {
        EventFault::NoMemory
    }
}

impl<T: Drop> From<AllocFailed<T>> for EventFault {
    ghost from_gives = { λ _ e. e ≡ NoMemoryForEvent };

    fn from(_: AllocFailed<T>) -> EventFault {
        EventFault::NoMemory
    }
}

impl From<ShelfError> for EventFault {
    ghost use Rattle.std.specs.Prelude.{◌≡◌};
    ghost use Rattle.session_core.specs.Answers.{fault_of_shelf};

    ghost from_gives = { λ fault e. e ≡ fault_of_shelf fault };

    fn from(fault: ShelfError) -> EventFault {
        match fault {
            ShelfError::Failed => EventFault::Refused(LineRefusal::ShelfFault),
            ShelfError::NoMemory => EventFault::NoMemory,
        }
    }
}

impl From<ReadFault> for EventFault {
    ghost use Rattle.std.specs.Prelude.{◌≡◌};
    ghost use Rattle.session_core.specs.Answers.{fault_of_read};

    ghost from_gives = { λ fault e. e ≡ fault_of_read fault };

    fn from(fault: ReadFault) -> EventFault {
        match TakeFault::from(fault) {
            TakeFault::Refused(refusal) => EventFault::Refused(LineRefusal::Store(refusal)),
            TakeFault::NoMemory => EventFault::NoMemory,
        }
    }
}

impl From<RouteFault> for EventFault {
    ghost use Rattle.std.specs.Prelude.{◌≡◌};
    ghost use Rattle.session_core.specs.Route.{fault_of_route};

    ghost from_gives = { λ fault e. e ≡ fault_of_route fault };

    fn from(fault: RouteFault) -> EventFault {
        match fault {
            RouteFault::BadLine(line) => EventFault::Refused(LineRefusal::RouteLine(line)),
            RouteFault::Few(points) => EventFault::Refused(LineRefusal::RouteFew(points)),
            RouteFault::Many(points) => EventFault::Refused(LineRefusal::RouteMany(points)),
            RouteFault::NoMemory => EventFault::NoMemory,
        }
    }
}

impl From<WriteFault> for EventFault {
    ghost use Rattle.std.specs.Prelude.{◌≡◌};
    ghost use Rattle.session_core.specs.Written.{fault_of_write};

    ghost from_gives = { λ fault e. e ≡ fault_of_write fault };

    fn from(fault: WriteFault) -> EventFault {
        match fault {
            WriteFault::RecordLong(name, bytes) => {
                EventFault::Refused(LineRefusal::RecordLong(name, bytes))
            }
            WriteFault::CellLong(bytes) => EventFault::Refused(LineRefusal::CellLong(bytes)),
            WriteFault::NoMemory => EventFault::NoMemory,
        }
    }
}

impl From<PanelRefusal> for EventFault {
    ghost use Rattle.std.specs.Prelude.{◌≡◌};
    ghost use Rattle.session_core.specs.declared.fault.EventFault.TheVariants.{Refused};
    ghost use Rattle.session_core.specs.Panels.{refusal_of_panel};

    ghost from_gives = { λ refusal e. e ≡ Refused (refusal_of_panel refusal) };

    fn from(refusal: PanelRefusal) -> EventFault {
        EventFault::Refused(LineRefusal::from(refusal))
    }
}

impl From<SubmitFault> for EventFault {
    ghost use Rattle.std.specs.Prelude.{◌≡◌};
    ghost use Rattle.session_core.specs.Answers.{fault_of_submit};

    ghost from_gives = { λ fault e. e ≡ fault_of_submit fault };

    fn from(fault: SubmitFault) -> EventFault {
        match fault {
            SubmitFault::Refused(refusal) => EventFault::Refused(LineRefusal::Store(refusal)),
            SubmitFault::DeskFault => EventFault::DeskFault,
            SubmitFault::NoMemory => EventFault::NoMemory,
        }
    }
}
