//! Whether a leg meets a shape.
//!
//! A point is tried as a segment of no length, so that points, lines and borders of areas are all met by one rule. An
//! area is met too where a leg lies inside it and comes near none of its borders.

ghost use Rattle.std.specs.Prelude.{◌≡◌};
ghost use Rattle.std.specs.List.{list_any};
ghost use Rattle.route_geometry.specs.Parted.{meets_segment, meets_area};
ghost use Rattle.route_check.specs.Meeting.{meets_coord, meets_line, meets_shape};

use area_rings::{Line, Shape, point};
use chart_model::Coord;
use plane_geometry::{Pt, Ring};
use route_geometry::{Leg, leg_meets_area, leg_meets_segment, meetings_are_tested};

/// Whether the leg meets the segment from a point to another.
fn meets_segment(leg: &Leg, from: Pt, to: Pt) -> bool
    ensures { result ≡ meets_segment leg.now from to }
{
    meetings_are_tested();
    leg_meets_segment(leg, from, to)
}

/// Whether the leg meets the point of a coordinate.
pub(crate) fn meets_coord(leg: &Leg, coord: &Coord) -> bool
    ensures { result ≡ meets_coord leg.now coord.now }
{
    let place = point(coord);
    meets_segment(leg, place, place)
}

/// Whether the leg meets one of the points.
fn meets_coords(leg: &Leg, coords: &[Coord]) -> bool
    ensures { result ≡ list_any (meets_coord leg.now) coords.now }
{
    coords.iter().any(|coord| meets_coord(leg, coord))
}

/// Whether the leg meets a segment of a line.
fn meets_line(leg: &Leg, line: &[Pt]) -> bool
    ensures { result ≡ meets_line leg.now line.now }
{
    let Some((first, others)) = line.split_first() else {
        return false;
    };
    let mut from = *first;
    for to in others {
        if meets_segment(leg, from, *to) {
            return true;
        }
        from = *to;
    }
    false
}

/// Whether the leg meets one of the lines.
fn meets_lines(leg: &Leg, lines: &[Line]) -> bool
    ensures { result ≡ list_any (meets_line leg.now) lines.now }
{
    lines.iter().any(|line| meets_line(leg, line.as_slice()))
}

/// Whether the leg meets the area in rings.
fn meets_area(leg: &Leg, rings: &[Ring]) -> bool
    ensures { result ≡ meets_area leg.now rings.now }
{
    meetings_are_tested();
    leg_meets_area(leg, rings)
}

/// Whether the leg meets a shape: one of its points, a segment of one of its lines, or the area in its rings. It takes
/// no memory.
pub(crate) fn meets_shape(leg: &Leg, shape: &Shape) -> bool
    ensures { result ≡ meets_shape leg.now shape.now }
{
    match shape {
        Shape::Points(coords) => meets_coords(leg, coords.as_slice()),
        Shape::Lines(lines) => meets_lines(leg, lines.as_slice()),
        Shape::Rings(rings) => meets_area(leg, rings.as_slice()),
        Shape::Bare => false,
    }
}
