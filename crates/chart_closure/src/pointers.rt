//! Where records point to.
//!
//! What a record may point to depends on its kind alone; whether its target is there, on the whole
//! chart.

ghost use Rattle.std.specs.Prelude.{◌≡◌};
ghost use Rattle.std.specs.List.{list_all};
ghost use Rattle.chart_closure.specs.Closed.{has_record, absent_target, vector_may_point, feature_may_point};

use chart_model::codes::{AREA, CONNECTED_NODE, EDGE, ISOLATED_NODE, LINE, POINT};
use chart_model::{Cell, Name, Pointer};

/// Whether the cell has a record of that name.
fn is_in(cell: &Cell, name: Name) -> bool
    ensures { result ≡ has_record cell.now name }
{
    cell.vectors.contains(name) || cell.features.contains(name)
}

/// The first target of which the cell has no record.
pub(crate) fn first_absent(cell: &Cell, pointers: &[Pointer]) -> Option<Name>
    ensures { result ≡ absent_target cell.now pointers.now }
{
    pointers
        .iter()
        .map(|pointer| pointer.target)
        .find(|target| !is_in(cell, *target))
}

/// Whether each pointer of a vector record is one that it may have.
pub(crate) fn vector_pointers_fit(name: Name, pointers: &[Pointer]) -> bool
    ensures { result ≡ list_all (λ pointer. vector_may_point name pointer.target) pointers.now }
{
    pointers.iter().all(|pointer| name.rcnm == EDGE && pointer.target.rcnm == CONNECTED_NODE)
}

/// Whether a feature of that primitive may point to that record.
fn feature_may_point(prim: u8, target: Name) -> bool
    ensures { result ≡ feature_may_point prim target }
{
    match prim {
        POINT => matches!(target.rcnm, ISOLATED_NODE | CONNECTED_NODE),
        LINE | AREA => target.rcnm == EDGE,
        _ => true,
    }
}

/// Whether each pointer of a feature is one that it may have.
pub(crate) fn feature_pointers_fit(prim: u8, pointers: &[Pointer]) -> bool
    ensures { result ≡ list_all (λ pointer. feature_may_point prim pointer.target) pointers.now }
{
    pointers
        .iter()
        .all(|pointer| feature_may_point(prim, pointer.target))
}
