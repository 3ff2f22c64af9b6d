//! The procedure for depth contours.
//!
//! A contour that is charted is drawn as what its value makes it; the one between two areas is drawn by `depth_area`.

ghost use Rattle.std.specs.Prelude.{◌≡◌, ◌++◌, OnOk, IfOk};
ghost use Rattle.depth_symbology.specs.Contours.{is_safety_contour, contour_text, contour_on, depcnt02_of, depcnt02_at};

use crate::text::{other_contour, safety_contour};
use chart_model::codes::LINE;
use chart_model::{Cell, Feature, ItemList, Name, Pointer, Settings, Target};
use depth_values::codes::VALDCO;
use depth_values::depth_at;
use draw_items::{is_drawn, push_item};
use std::alloc::{AllocError, Global};
use topology_cache::Users;

/// Whether a contour is the safety contour: its depth is VALDCO, or 0 where that is unknown.
fn is_safety_contour(settings: &Settings, feature: &Feature) -> bool
    ensures { result ≡ is_safety_contour settings.now feature.now }
{
    depth_at(feature, VALDCO).unwrap_or(0) == settings.safety_contour
}

/// The instruction that draws a contour along an edge.
fn contour_text(cell: &Cell, is_safety: bool, edge: Name) -> &'static [u8]
    ensures { result.now ≡ contour_text cell.now is_safety edge }
{
    if is_safety {
        safety_contour(cell, edge)
    } else {
        other_contour(cell, edge)
    }
}

/// Adds a contour on an edge, where that is drawn.
fn push_contour(
    alloc: Global,
    items: &mut ItemList,
    cell: &Cell,
    is_safety: bool,
    pointer: &Pointer,
) -> Result<(), AllocError>
    ensures { OnOk result (items.new ≡ items.old ++ contour_on cell.now is_safety pointer.now) }
{
    let edge = pointer.target;
    if is_drawn(pointer) {
        push_item(
            alloc,
            items,
            Target::Edge(edge.rcid),
            contour_text(cell, is_safety, edge),
        )?;
    }
    Ok(())
}

/// Adds what is drawn of a depth contour: a line along each of its edges that is drawn, wider where it is the safety
/// contour. Nothing is drawn of what is no line.
pub fn push_depcnt02(
    alloc: Global,
    items: &mut ItemList,
    cell: &Cell,
    settings: &Settings,
    feature: &Feature,
) -> Result<(), AllocError>
    ensures { OnOk result (items.new ≡ items.old ++ depcnt02_of cell.now settings.now feature.now) }
{
    if feature.prim != LINE {
        return Ok(());
    }
    let is_safety = is_safety_contour(settings, feature);
    for pointer in feature.pointers.as_slice() {
        push_contour(alloc, items, cell, is_safety, pointer)?;
    }
    Ok(())
}

/// What is drawn of the depth contour with a name, as `push_depcnt02` has it. Nothing is drawn where the cell has no
/// such feature. The users of edges aren't asked.
pub fn depcnt02(
    alloc: Global,
    cell: &Cell,
    _users: &Users,
    settings: &Settings,
    name: Name,
) -> Result<ItemList, AllocError>
    ensures { IfOk result (λ items. items ≡ depcnt02_at cell.now settings.now name) }
{
    let mut items = ItemList::new(alloc);
    if let Some(feature) = cell.features.get(name) {
        push_depcnt02(alloc, &mut items, cell, settings, feature)?;
    }
    Ok(items)
}
