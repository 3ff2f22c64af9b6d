//! Shapes that fit in memory.
//!
//! A feature may point to the same edge thousands of times, so that a file of 8 MB can say a shape of a hundred million
//! points. What it has at most is told by the records that it points to, before it is made.

ghost use Rattle.std.specs.Prelude.{◌≡◌, IfOk};
ghost use Rattle.area_rings.specs.Shape.{shape_of};

use crate::effort::{Effort, MOST_POINTS};
use area_rings::{Shape, feature_shape};
use chart_model::{Cell, Feature};
use std::alloc::{AllocError, Global};

/// What a point costs that is made, in tests of a point against a segment.
const COST_OF_POINT: usize = 8;

/// How many points the shape of a feature has at most. Nothing that is answered hangs on it, but whether there is an
/// answer. It takes no memory.
pub(crate) fn most_points(cell: &Cell, feature: &Feature) -> usize {
    let mut points: usize = 0;
    for pointer in feature.pointers.as_slice() {
        if let Some(vector) = cell.vectors.get(pointer.target) {
            // The coordinates of an edge's nodes come to its own.
            points = points.saturating_add(vector.coords.as_slice().len().saturating_add(2));
        }
    }
    points
}

/// The shape of a feature, as `feature_shape` has it. It takes of the effort by the points of the records that the
/// feature points to: where the effort is less, or they are more than 16,777,216, the answer is want of memory.
pub fn shape_within(
    alloc: Global,
    effort: &mut Effort,
    cell: &Cell,
    feature: &Feature,
) -> Result<Option<Shape>, AllocError>
    ensures { IfOk result (λ shape. shape ≡ shape_of cell.now feature.now) }
{
    let points = most_points(cell, feature);
    if points > MOST_POINTS {
        return Err(AllocError);
    }
    effort.spend(points.saturating_mul(COST_OF_POINT))?;
    feature_shape(alloc, cell, feature)
}
