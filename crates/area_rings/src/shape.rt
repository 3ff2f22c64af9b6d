//! The shape of a feature.
//!
//! What a feature points to goes by its primitive, so a shape is one of four kinds, or isn't there.

ghost use Rattle.std.specs.Prelude.{◌≡◌, IfOk};
ghost use Rattle.area_rings.specs.Shape.{points_of, shape_of};

use crate::edge::node;
use crate::line::{LineList, lines};
use crate::ring::{RingList, rings};
use chart_model::codes::{AREA, LINE, NO_PRIMITIVE, POINT};
use chart_model::{Cell, Coords, Feature, Pointer, Sequence};
use std::alloc::{AllocError, Global};

/// The shape of a feature.
#[derive(Debug, Drop)]
pub enum Shape {
    /// Of a point feature: all coordinates of its nodes in order, with the depths of soundings.
    Points(Coords),
    /// Of a line feature: a line for each of its pointers.
    Lines(LineList),
    /// Of an area: its exterior and interior boundaries.
    Rings(RingList),
    /// Of a feature without a place of its own, such as a collection.
    Bare,
}

/// All coordinates of nodes, in order; `None` where one of them is no node of the cell.
fn points(alloc: Global, cell: &Cell, pointers: &[Pointer]) -> Result<Option<Coords>, AllocError>
    ensures { IfOk result (λ points. points ≡ points_of cell.now pointers.now) }
{
    let mut coords = Vec::new(alloc);
    for pointer in pointers {
        let Some(node) = node(cell, pointer.target) else {
            return Ok(None);
        };
        coords.extend_from_slice(node.coords.as_slice())?;
    }
    Ok(Some(Sequence::from_vec(coords)))
}

/// The shape of a feature by its primitive: a point, a line, an area, or none of these. `None` where one
/// of its pointers is to no node, or to no edge with a line; and for an area without rings.
pub fn feature_shape(
    alloc: Global,
    cell: &Cell,
    feature: &Feature,
) -> Result<Option<Shape>, AllocError>
    ensures { IfOk result (λ shape. shape ≡ shape_of cell.now feature.now) }
{
    let pointers = feature.pointers.as_slice();
    match feature.prim {
        POINT => Ok(points(alloc, cell, pointers)?.map(Shape::Points)),
        LINE => Ok(lines(alloc, cell, pointers)?.map(Shape::Lines)),
        AREA => Ok(rings(alloc, cell, feature)?.map(Shape::Rings)),
        NO_PRIMITIVE => Ok(Some(Shape::Bare)),
        _ => Ok(None),
    }
}
