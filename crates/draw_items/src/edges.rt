//! The edges of a feature that are drawn.
//!
//! Which edges those are is asked by depth areas, contours and hazards alike, so it is said once.

ghost use Rattle.std.specs.Prelude.{◌≡◌, ◌++◌, OnOk};
ghost use Rattle.draw_items.specs.Edges.{is_drawn, drawn_edges, on_edges};

use crate::items::push_item;
use chart_model::codes::{EXTERIOR_CUT, MASKED};
use chart_model::{Feature, ItemList, Pointer, Target};
use std::alloc::{AllocError, Global};

/// Whether the edge of a feature's pointer is drawn: the pointer neither masks it (MASK 1) nor says that the data limit
/// cuts it (USAG 3).
pub fn is_drawn(pointer: &Pointer) -> bool
    ensures { result ≡ is_drawn pointer.now }
{
    pointer.mask != MASKED && pointer.usag != EXTERIOR_CUT
}

/// Adds an instruction on each edge of the feature that is drawn, in the order of its pointers: on an edge that is
/// pointed to twice, twice. Where there is no memory, those on the first of the edges may have been added.
pub fn push_on_edges(
    alloc: Global,
    items: &mut ItemList,
    feature: &Feature,
    text: &[u8],
) -> Result<(), AllocError>
    ensures { OnOk result (items.new ≡ items.old ++ on_edges (drawn_edges feature.now) text.now) }
{
    for pointer in feature.pointers.as_slice() {
        if is_drawn(pointer) {
            push_item(alloc, items, Target::Edge(pointer.target.rcid), text)?;
        }
    }
    Ok(())
}
