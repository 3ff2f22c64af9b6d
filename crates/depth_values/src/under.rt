//! The depth areas under an object.
//!
//! An object is over the areas in or on which one of its points lies; a segment that crosses an area between two points
//! isn't looked at. Of such an area no more is kept than its name and its least depth, since that is all that is asked.

ghost use Rattle.std.specs.Prelude.{◌≡◌, ◌++◌, int_le, map, OnOk, IfOk};
ghost use Rattle.std.specs.List.{list_any, flat_map, filter_map};
ghost use Rattle.area_rings.specs.Edge.{point_of};
ghost use Rattle.depth_values.specs.Marks.{mark_of, mark_at};
ghost use Rattle.depth_values.specs.Under.{points_in, areas_holding, names_among, lesser, least, least_among};
ghost use Rattle.depth_values.specs.Under.{areas_under};

use crate::areas::DepthAreas;
use crate::asked::places_holding;
use crate::depth_area::AreaMark;
use crate::effort::Effort;
use crate::made::depth_areas;
use area_rings::{Shape, point};
use chart_model::{Cell, Coord, NameList, Sequence};
use plane_geometry::Pt;
use std::alloc::{AllocError, Global};

/// Adds the points of coordinates.
fn push_places(points: &mut Vec<Pt>, coords: &[Coord]) -> Result<(), AllocError>
    ensures { OnOk result (points.new.items ≡ points.old.items ++ map point_of coords.now) }
{
    points.extend(coords.iter().map(|coord| point(coord)))
}

/// Adds the points of lines or of rings.
fn push_parts(points: &mut Vec<Pt>, parts: &[Sequence<Pt>]) -> Result<(), AllocError>
    ensures { OnOk result (points.new.items ≡ points.old.items ++ flat_map (λ part. part) parts.now) }
{
    for part in parts {
        points.extend_from_slice(part.as_slice())?;
    }
    Ok(())
}

/// All points of a shape.
fn points_in(alloc: Global, shape: &Shape) -> Result<Vec<Pt>, AllocError>
    ensures { IfOk result (λ points. points.items ≡ points_in shape.now) }
{
    let mut points = Vec::new(alloc);
    match shape {
        Shape::Points(coords) => push_places(&mut points, coords.as_slice())?,
        Shape::Lines(lines) => push_parts(&mut points, lines.as_slice())?,
        Shape::Rings(rings) => push_parts(&mut points, rings.as_slice())?,
        Shape::Bare => {}
    }
    Ok(points)
}

/// What is told of the areas at some places.
fn marks_at(
    alloc: Global,
    areas: &DepthAreas,
    places: &[usize],
) -> Result<Vec<AreaMark>, AllocError>
    ensures { IfOk result (λ marks. marks.items ≡ filter_map (mark_at areas.now) places.now) }
{
    let mut marks = Vec::new(alloc);
    for place in places {
        if let Some(mark) = areas.mark_at(*place) {
            marks.push(mark)?;
        }
    }
    Ok(marks)
}

/// What is told of those areas in or on which a point of the shape lies, in their order.
pub(crate) fn marks_under(
    alloc: Global,
    effort: &mut Effort,
    areas: &DepthAreas,
    shape: &Shape,
) -> Result<Vec<AreaMark>, AllocError>
    ensures { IfOk result (λ marks. marks.items ≡ map mark_of (areas_holding (points_in shape.now) areas.now)) }
{
    let points = points_in(alloc, shape)?;
    effort.spend(points.len())?;
    let places = places_holding(alloc, effort, areas, points.as_slice())?;
    let marks = marks_at(alloc, areas, places.as_slice())?;
    Ok(marks)
}

/// The names of areas, in their order.
fn names_of(alloc: Global, marks: &[AreaMark]) -> Result<NameList, AllocError>
    ensures { IfOk result (λ names. names ≡ map (λ mark. mark.name) marks.now) }
{
    let mut names = NameList::new(alloc);
    for mark in marks {
        names.push(mark.name)?;
    }
    Ok(names)
}

/// The names of those areas in or on which a point of the shape lies, in their order.
pub fn areas_among(alloc: Global, areas: &DepthAreas, shape: &Shape) -> Result<NameList, AllocError>
    ensures { IfOk result (λ names. names ≡ names_among areas.now shape.now) }
{
    let marks = marks_under(alloc, &mut Effort::whole(), areas, shape)?;
    let names = names_of(alloc, marks.as_slice())?;
    Ok(names)
}

/// The lesser of a number and another, where there is another.
fn lesser(other: Option<i32>, n: i32) -> Option<i32>
    ensures { result ≡ lesser other n }
{
    match other {
        Some(other) => Some(other.min(n)),
        None => Some(n),
    }
}

/// The least depth of areas, in centimetres; `None` where there is none.
pub(crate) fn least_of(marks: &[AreaMark]) -> Option<i32>
    ensures { result ≡ least (map (λ mark. mark.d1) marks.now) }
{
    let mut least: Option<i32> = None;
    for mark in marks {
        least = lesser(least, mark.d1);
    }
    least
}

/// The least depth, in centimetres, of those areas in or on which a point of the shape lies; `None` where
/// there is none.
pub(crate) fn least_among(
    alloc: Global,
    effort: &mut Effort,
    areas: &DepthAreas,
    shape: &Shape,
) -> Result<Option<i32>, AllocError>
    ensures { IfOk result (λ depth. depth ≡ least_among areas.now shape.now) }
{
    let marks = marks_under(alloc, effort, areas, shape)?;
    let depth = least_of(marks.as_slice());
    Ok(depth)
}

/// Whether one of the areas is the safety contour deep or more, in centimetres.
pub(crate) fn is_any_safe(marks: &[AreaMark], safety_contour: i32) -> bool
    ensures { result ≡ list_any (λ mark. int_le safety_contour mark.d1) marks.now }
{
    marks.iter().any(|mark| safety_contour <= mark.d1)
}

/// The names of the depth areas and dredged areas of the cell in or on which a point of the shape lies, in order:
/// for a point all of its places, for a line and an area all points of the edges.
pub fn areas_under(alloc: Global, cell: &Cell, shape: &Shape) -> Result<NameList, AllocError>
    ensures { IfOk result (λ names. names ≡ areas_under cell.now shape.now) }
{
    let areas = depth_areas(alloc, cell)?;
    areas_among(alloc, &areas, shape)
}
