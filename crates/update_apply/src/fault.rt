//! Why a change was not made.
//!
//! A change may be wrong in several ways. The first in the order of the variants is told, and of one variant that of
//! the first list: pointers, then coordinates, then related objects. Each names the record; only want of memory, which
//! is no fault of the change, names none.

use chart_model::{Foid, Name};
use thiserror::Error;

/// Why a change was not made.
#[derive(Clone, Copy, Debug, PartialEq, Eq, Error)]
pub enum ChangeFault {
    /// The cell has a record under the name of an insertion.
    #[error("record {}/{} is inserted, and the cell has one", .name.rcnm, .name.rcid)]
    Present {
        name: Name,
    },
    /// The cell has no record under the name of a modification or a deletion.
    #[error("record {}/{} is changed, and the cell has none", .name.rcnm, .name.rcid)]
    Absent {
        name: Name,
    },
    /// The version doesn't follow the version that is kept.
    #[error("record {}/{}: version {given} does not follow version {kept}", .name.rcnm, .name.rcid)]
    Version {
        name: Name,
        kept: u16,
        given: u16,
    },
    /// The identifier of the feature object is another.
    #[error("record {}/{}: its identifier is {} {} {}, not {} {} {}", .name.rcnm, .name.rcid, .kept.agen, .kept.fidn, .kept.fids, .given.agen, .given.fidn, .given.fids)]
    Foid {
        name: Name,
        kept: Foid,
        given: Foid,
    },
    /// Items of a list are given without its control field.
    #[error("record {}/{}: items of a list are given without its control field", .name.rcnm, .name.rcid)]
    NoControl {
        name: Name,
    },
    /// The control field states another number of items than are given.
    #[error("record {}/{}: the number of items is stated as {stated} and is {found}", .name.rcnm, .name.rcid)]
    Count {
        name: Name,
        stated: u16,
        found: usize,
    },
    /// The control field's places are not in the list.
    #[error("record {}/{}: the places from {index} on are not in a list of length {length}", .name.rcnm, .name.rcid)]
    Index {
        name: Name,
        length: usize,
        index: u16,
    },
    /// Soundings are put among points without a depth, or such points among soundings.
    #[error("record {}/{}: soundings and points without a depth are put into one list", .name.rcnm, .name.rcid)]
    Mixed {
        name: Name,
    },
    /// There was no memory. The cell is as it was.
    #[error("there was no memory")]
    NoMemory,
}
