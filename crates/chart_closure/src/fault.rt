//! Why a chart isn't closed.
//!
//! A chart has one fault, whoever looks for it, so the faults of a record have an order: where it points to comes
//! before what is made of its pointers, the line of an edge and the rings of an area.

use chart_model::Name;
use thiserror::Error;

/// Why a chart isn't closed: the fault of the first of its records that has one, in the order of their
/// names, and of that record the first of these in the order `Dangling`, `WrongPointer`, `EdgeNodes`,
/// `RingOpen`.
#[derive(Clone, Copy, Debug, PartialEq, Eq, Error)]
pub enum ClosureFault {
    /// The record of the first name points to the second, of which the cell has no record.
    #[error("record {}/{} points to record {}/{}, which the chart lacks", .0.rcnm, .0.rcid, .1.rcnm, .1.rcid)]
    Dangling(Name, Name),
    /// The edge hasn't one begin node and one end node and no other pointer, or one of its nodes has no
    /// coordinate.
    #[error("edge {}/{} has no begin node and end node with a place", .0.rcnm, .0.rcid)]
    EdgeNodes(Name),
    /// The area has no shape: its edges don't make rings.
    #[error("area {}/{}: its edges make no rings", .0.rcnm, .0.rcid)]
    RingOpen(Name),
    /// The edge points to other than connected nodes; or the node points to something; or the point
    /// feature points to other than nodes; or the line feature or the area to other than edges.
    #[error("record {}/{} points to a record of a kind that it may not point to", .0.rcnm, .0.rcid)]
    WrongPointer(Name),
}
