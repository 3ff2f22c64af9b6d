//! Hazards along lines and in areas.
//!
//! Where a hazard is no point its edges show it, dotted where it is a danger.

ghost use Rattle.std.specs.Prelude.{◌≡◌, ◌++◌, OnOk};
ghost use Rattle.hazard_symbology.specs.Edges.{line_items, area_items};

use chart_model::{Feature, ItemList, Target};
use draw_items::{push_item, push_on_edges};
use std::alloc::{AllocError, Global};

/// Adds what is drawn of a hazard along a line, that is a line on each of its edges that is drawn.
pub fn push_line(
    alloc: Global,
    items: &mut ItemList,
    feature: &Feature,
    is_danger: bool,
) -> Result<(), AllocError>
    ensures { OnOk result (items.new ≡ items.old ++ line_items is_danger feature.now) }
{
    if is_danger {
        push_on_edges(alloc, items, feature, b"LS(DOTT,2,CHBLK)")
    } else {
        push_on_edges(alloc, items, feature, b"LS(DASH,1,CHBLK)")
    }
}

/// Adds what is drawn of an area of hazards: a pattern where it is a danger, and then a line on each of its edges
/// that is drawn.
pub fn push_area(
    alloc: Global,
    items: &mut ItemList,
    feature: &Feature,
    is_danger: bool,
) -> Result<(), AllocError>
    ensures { OnOk result (items.new ≡ items.old ++ area_items is_danger feature.now) }
{
    if !is_danger {
        return push_on_edges(alloc, items, feature, b"LS(DASH,2,CHGRD)");
    }
    push_item(alloc, items, Target::Whole, b"AP(FOULAR01)")?;
    push_on_edges(alloc, items, feature, b"LS(DOTT,2,CHBLK)")
}
