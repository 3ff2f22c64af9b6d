//! Names of records and of feature objects.
//!
//! Records point to each other by name, so an update can insert and delete records without touching any that points
//! elsewhere. The order of names, by kind and then by number, is the one in which the first fault of a chart is told.

use crate::sequence::Sequence;

/// The name of a record: its kind and its number (S-57 Part 3, RCNM and RCID).
///
/// The kinds are 100, a feature; 110, an isolated node; 120, a connected node; 130, an edge. Names are
/// ordered by kind, then by number.
#[derive(Clone, Copy, Debug, PartialEq, Eq, PartialOrd, Ord)]
pub struct Name {
    pub rcnm: u8,
    pub rcid: u32,
}

/// Names in order.
pub type NameList = Sequence<Name>;

/// The identifier of a feature object, the same in every cell that shows it (S-57 Part 3, FOID): the
/// producing agency, the object's number and its subdivision.
#[derive(Clone, Copy, Debug, PartialEq, Eq)]
pub struct Foid {
    pub agen: u16,
    pub fidn: u32,
    pub fids: u16,
}
