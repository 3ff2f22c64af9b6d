//! The boxes of the features of a chart.
//!
//! A feature without a shape has no box, even where the records that it points to have theirs: no leg can meet it. The
//! shape isn't made for its box, since it can be far larger than the chart.

ghost use Rattle.std.specs.Prelude.{◌≡◌, T, IfOk};
ghost use Rattle.std.specs.FinMap as finite;
ghost use Rattle.chart_model.specs.Names.{name_cmp};
ghost use Rattle.area_rings.specs.Shape.{shape_of};
ghost use Rattle.spatial_grid.specs.Boxes.{box_in, box_round, boxes_in, record_boxes};

use crate::edges::node_table;
use crate::point_box::around_both;
use crate::record_boxes::record_boxes;
use crate::table::find;
use area_rings::{has_shape, rings_are_shortest};
use chart_model::codes::NO_PRIMITIVE;
use chart_model::{Cell, Feature, Name, Pointer};
use plane_bounds::Bounds;
use std::alloc::{AllocError, Global};

/// The least box round the records that pointers name; `None` where none of them has a box. It costs a binary search
/// for each of the pointers, and takes no memory.
fn box_round(boxes: &[(Name, Bounds)], pointers: &[Pointer]) -> Option<Bounds>
    requires { T (finite.is_sorted name_cmp boxes.now) }
    ensures { result ≡ box_round boxes.now pointers.now }
{
    let mut found: Option<Bounds> = None;
    for pointer in pointers {
        found = around_both(found, find(boxes, pointer.target));
    }
    found
}

/// The least box round a feature, by the boxes of the chart's vector records; `None` where it has no shape, or its
/// shape no point. It takes no memory.
///
/// The shape is not made: its points are those of the records, some of them several times and others left out where
/// they stand twice.
fn feature_box(cell: &Cell, boxes: &[(Name, Bounds)], feature: &Feature) -> Option<Bounds>
    requires { boxes.now ≡ record_boxes cell.now }
    ensures { result ≡ box_in (shape_of cell.now feature.now) }
{
    rings_are_shortest();
    if feature.prim == NO_PRIMITIVE || !has_shape(cell, feature) {
        return None;
    }
    box_round(boxes, feature.pointers.as_slice())
}

/// The features of a chart that have a point, in the order of their names, with their boxes. It costs the points of
/// the chart's vector records and the pointers of its features, however large the shapes are.
pub(crate) fn boxes_of(alloc: Global, cell: &Cell) -> Result<Vec<(Name, Bounds)>, AllocError>
    ensures { IfOk result (λ boxes. boxes.items ≡ boxes_in cell.now) }
{
    let nodes = node_table(alloc, cell)?;
    let records = record_boxes(alloc, cell, nodes.as_slice())?;
    let mut boxes = Vec::new(alloc);
    for (name, feature) in cell.features.iter() {
        if let Some(bounds) = feature_box(cell, records.as_slice(), feature) {
            boxes.push((*name, bounds))?;
        }
    }
    Ok(boxes)
}
