//! Whether the boxes of features stay when their chart changes.
//!
//! Most updates change attributes and move nothing. A name of a vector record is never one that both charts have as a
//! feature, so any change of a node or an edge has the boxes made anew.

ghost use Rattle.std.specs.Prelude.{◌↔◌, IsTrue, All};
ghost use Rattle.spatial_grid.specs.Kept.{HaveSamePlace, KeepsBox};

use chart_model::{Cell, Feature, Name};

/// Whether two features have the same primitive and the same pointers. It takes no memory.
fn have_same_place(before: &Feature, after: &Feature) -> bool
    ensures { IsTrue result ↔ HaveSamePlace before.now after.now }
{
    before.prim == after.prim && before.pointers.as_slice() == after.pointers.as_slice()
}

/// Whether both charts have a feature of that name, with the same primitive and the same pointers. It takes no memory.
fn keeps_box(old: &Cell, new: &Cell, name: Name) -> bool
    ensures { IsTrue result ↔ KeepsBox old.now new.now name }
{
    match (old.features.get(name), new.features.get(name)) {
        (Some(before), Some(after)) => have_same_place(before, after),
        _ => false,
    }
}

/// Whether each of the names is that of a feature which both charts have, with the same primitive and the same
/// pointers. It costs the look-up of the names and the comparison of their pointers, and takes no memory.
pub(crate) fn keeps_boxes(old: &Cell, new: &Cell, names: &[Name]) -> bool
    ensures { IsTrue result ↔ All (KeepsBox old.now new.now) names.now }
{
    for name in names {
        if !keeps_box(old, new, *name) {
            return false;
        }
    }
    true
}
