//! The least box round points, and round two boxes.
//!
//! Each box that is there has a point on every side. Where there is no point there is no box, and not an empty one, so
//! that a grid has no entry for a feature that nothing can meet.

ghost use Rattle.std.specs.Prelude.{◌≡◌, map};
ghost use Rattle.std.specs.List.{fold};
ghost use Rattle.area_rings.specs.Edge.{point_of};
ghost use Rattle.spatial_grid.specs.Boxes.{around_both, box_with};

use area_rings::point;
use chart_model::Coord;
use plane_bounds::Bounds;
use plane_geometry::Pt;

/// The box with one more point; without a box, that of the point.
pub(crate) fn box_with(found: Option<Bounds>, p: Pt) -> Option<Bounds>
    ensures { result ≡ box_with found p }
{
    match found {
        Some(bounds) => Some(bounds.with(p)),
        None => Some(Bounds::at(p)),
    }
}

/// The least box round another box and the points of coordinates; `None` where there is neither. It takes no memory.
pub(crate) fn with_coords(found: Option<Bounds>, coords: &[Coord]) -> Option<Bounds>
    ensures { result ≡ fold box_with found (map point_of coords.now) }
{
    let mut bounds = found;
    for coord in coords {
        bounds = box_with(bounds, point(coord));
    }
    bounds
}

/// The least box round two of which each may be missing; `None` where both are. It takes no memory.
pub(crate) fn around_both(one: Option<Bounds>, other: Option<Bounds>) -> Option<Bounds>
    ensures { result ≡ around_both one other }
{
    match (one, other) {
        (Some(one), Some(other)) => Some(one.around(other)),
        (Some(one), None) => Some(one),
        (None, other) => other,
    }
}
