//! What of a dangerous object a leg may meet.
//!
//! A feature may have thousands of soundings, so a sounding is a coordinate, which takes no memory of its own.

ghost use Rattle.std.specs.Prelude.{◌≡◌, All};
ghost use Rattle.plane_bounds.specs.Bounds.{IsIn};
ghost use Rattle.area_rings.specs.Edge.{point_of};
ghost use Rattle.route_check.specs.Meeting.{meets_shape};
ghost use Rattle.route_check.specs.Object.{ShapeIn};
ghost use Rattle.route_check.specs.Target.{shape_in};

use crate::meeting::{meets_coord, meets_shape};
use area_rings::{Shape, point};
use chart_model::{Coord, Sequence};
use plane_bounds::{Bounds, bounds_of};
use plane_geometry::Pt;
use route_geometry::Leg;

/// What of a dangerous object a leg may meet.
#[derive(Debug, Drop)]
pub(crate) enum Target {
    /// A whole feature.
    Whole(Shape),
    /// One sounding.
    Sounding(Coord),
}

/// The box round the points of coordinates.
fn bounds_of_coords(coords: &[Coord]) -> Bounds
    ensures { All (λ coord. IsIn result (point_of coord)) coords.now }
{
    let mut bounds = Bounds::NOTHING;
    for coord in coords {
        bounds = bounds.with(point(coord));
    }
    bounds
}

/// The box round a shape.
fn bounds_of_shape(shape: &Shape) -> Bounds
    ensures { ShapeIn result shape.now }
{
    match shape {
        Shape::Points(coords) => bounds_of_coords(coords.as_slice()),
        Shape::Lines(lines) => bounds_of(lines.as_slice()),
        Shape::Rings(rings) => bounds_of(rings.as_slice()),
        Shape::Bare => Bounds::NOTHING,
    }
}

/// How many points lines or rings have.
fn size_of_parts(parts: &[Sequence<Pt>]) -> usize {
    let mut size: usize = 0;
    for part in parts {
        size = size.saturating_add(part.as_slice().len());
    }
    size
}

/// How many points there are of what a leg may meet. It takes no memory.
pub(crate) fn size_of_target(target: &Target) -> usize {
    match target {
        Target::Whole(Shape::Points(coords)) => coords.as_slice().len(),
        Target::Whole(Shape::Lines(lines)) => size_of_parts(lines.as_slice()),
        Target::Whole(Shape::Rings(rings)) => size_of_parts(rings.as_slice()),
        Target::Whole(Shape::Bare) => 0,
        Target::Sounding(_) => 1,
    }
}

/// The box of a sounding.
fn bounds_of_coord(coord: &Coord) -> Bounds
    ensures { IsIn result (point_of coord.now) }
{
    Bounds::NOTHING.with(point(coord))
}

/// The box round what a leg may meet. It takes no memory.
pub(crate) fn bounds_of_target(target: &Target) -> Bounds
    ensures { ShapeIn result (shape_in target.now) }
{
    match target {
        Target::Whole(shape) => bounds_of_shape(shape),
        Target::Sounding(coord) => bounds_of_coord(coord),
    }
}

/// Whether the leg meets it. It takes no memory.
pub(crate) fn meets_target(leg: &Leg, target: &Target) -> bool
    ensures { result ≡ meets_shape leg.now (shape_in target.now) }
{
    match target {
        Target::Whole(shape) => meets_shape(leg, shape),
        Target::Sounding(coord) => meets_coord(leg, coord),
    }
}
