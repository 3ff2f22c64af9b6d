//! Whether two areas have the same pointers, or the same rings.

ghost use Rattle.std.specs.Prelude.{◌≡◌, slice_get, Some, IsTrue};

use chart_model::Feature;
use plane_geometry::{Pt, Ring};

/// Whether two features have the same pointers.
pub(crate) fn have_same_pointers(one: &Feature, other: &Feature) -> bool
    ensures { IsTrue result → one.now.pointers ≡ other.now.pointers }
{
    one.pointers.as_slice() == other.pointers.as_slice()
}

/// Whether the points of two rings are the same, one after the other.
fn are_same_points(one: &[Pt], other: &[Pt]) -> bool
    ensures { IsTrue result → one.now ≡ other.now }
{
    one == other
}

/// Whether a ring with just these points stands at a place.
fn stands_at(rings: &[Ring], place: usize, ring: &Ring) -> bool
    ensures { IsTrue result → slice_get rings.now place ≡ Some ring.now }
{
    match rings.get(place) {
        Some(other) => are_same_points(other.as_slice(), ring.as_slice()),
        None => false,
    }
}

/// Whether the rings of two areas are the same, one after the other.
pub(crate) fn are_same_rings(one: &[Ring], other: &[Ring]) -> bool
    ensures { IsTrue result → one.now ≡ other.now }
{
    if one.len() != other.len() {
        return false;
    }
    for (place, ring) in one.iter().enumerate() {
        if !stands_at(other, place, ring) {
            return false;
        }
    }
    true
}
