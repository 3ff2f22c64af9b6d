//! Where an item of a drawing stands on the chart.
//!
//! An area is filled to its rings, all of them. A line is drawn along edges, and an edge that the chart masks or that
//! its data limit cuts is no line of the land or the sea, so it isn't drawn. A symbol has one place, or as many as its
//! feature has points.

ghost use Rattle.std.specs.Prelude.{◌≡◌, ◌++◌, ◌+ℤ◌, pos, int_div, false, map, slice_get, option_and_then, OnOk, IfOk};
ghost use Rattle.std.specs.Option.{option_copied};
ghost use Rattle.area_rings.specs.Edge.{point_of};
ghost use Rattle.area_rings.specs.Shape.{line_of};
ghost use Rattle.chart_svg.specs.Places.{feature_at, shape_at, alone, rings_in, rings_at, edge_named, edge_lines};
ghost use Rattle.chart_svg.specs.Places.{edges_of, lines_at, middle_of, between, centre_of, places_in, places_at};
ghost use Rattle.std.specs.List.{flat_map};

use crate::subject::Subject;
use area_rings::{Line, LineList, Shape, edge_line, feature_shape, point};
use chart_model::codes::{EDGE, FEATURE};
use chart_model::{Cell, Coord, Feature, Name, Sequence, Target};
use draw_items::is_drawn;
use plane_geometry::Pt;
use std::alloc::{AllocError, Global};

/// The feature of a number.
fn feature_at(cell: &Cell, rcid: u32) -> Option<&Feature>
    ensures { option_copied result ≡ feature_at cell.now rcid }
{
    cell.features.get(Name {
        rcnm: FEATURE,
        rcid,
    })
}

/// The shape of the feature of a number.
pub(crate) fn shape_at(alloc: Global, cell: &Cell, rcid: u32) -> Result<Option<Shape>, AllocError>
    ensures { IfOk result (λ shape. shape ≡ shape_at cell.now rcid) }
{
    match feature_at(cell, rcid) {
        Some(feature) => feature_shape(alloc, cell, feature),
        None => Ok(None),
    }
}

/// A value as a list of it alone.
pub(crate) fn alone<T: Drop>(alloc: Global, value: Option<T>) -> Result<Sequence<T>, AllocError>
    ensures { IfOk result (λ list. list ≡ alone value) }
{
    let mut list = Sequence::new(alloc);
    if let Some(value) = value {
        list.push(value)?;
    }
    Ok(list)
}

/// The rings of an area.
fn rings_in<'a>(shape: Option<&'a Shape>) -> &'a [Line]
    ensures { result.now ≡ rings_in (option_copied shape.entry) }
{
    match shape {
        Some(Shape::Rings(rings)) => rings.as_slice(),
        _ => &[],
    }
}

/// The rings that an item on a feature fills.
pub(crate) fn rings_at<'a>(subject: &'a Subject, target: Target) -> &'a [Line]
    ensures { result.now ≡ rings_at subject.now.cell.now subject.now.rcid target }
{
    match target {
        Target::Whole => rings_in(subject.shape.as_ref()),
        Target::Edge(_) | Target::At(..) => &[],
    }
}

/// The line of an edge from its begin node on.
fn line_along(alloc: Global, cell: &Cell, rcid: u32) -> Result<Option<Line>, AllocError>
    ensures { IfOk result (λ line. line ≡ line_of cell.now (edge_named rcid) false) }
{
    edge_line(alloc, cell, Name { rcnm: EDGE, rcid }, false)
}

/// Adds the line of an edge, where it has one.
fn push_edge(alloc: Global, lines: &mut LineList, cell: &Cell, edge: Name) -> Result<(), AllocError>
    ensures { OnOk result (lines.new ≡ lines.old ++ edge_lines cell.now edge) }
{
    match edge_line(alloc, cell, edge, false)? {
        Some(line) => lines.push(line),
        None => Ok(()),
    }
}

/// The lines of the edges of a feature, without those that are hidden.
fn lines_of(alloc: Global, cell: &Cell, feature: Option<&Feature>) -> Result<LineList, AllocError>
    ensures { IfOk result (λ lines.
        lines ≡ flat_map (edge_lines cell.now) (edges_of (option_copied feature.entry))) }
{
    let mut lines = LineList::new(alloc);
    let Some(feature) = feature else {
        return Ok(lines);
    };
    for pointer in feature.pointers.as_slice() {
        if is_drawn(pointer) {
            push_edge(alloc, &mut lines, cell, pointer.target)?;
        }
    }
    Ok(lines)
}

/// The lines that an item on a feature is drawn along.
pub(crate) fn lines_at(
    alloc: Global,
    subject: &Subject,
    target: Target,
) -> Result<LineList, AllocError>
    ensures { IfOk result (λ lines. lines ≡ lines_at subject.now.cell.now subject.now.rcid target) }
{
    let cell = subject.cell;
    match target {
        Target::Whole => lines_of(alloc, cell, feature_at(cell, subject.rcid)),
        Target::Edge(edge) => {
            let line = line_along(alloc, cell, edge)?;
            alone(alloc, line)
        }
        Target::At(..) => Ok(LineList::new(alloc)),
    }
}

/// The point half way along the points of a line.
fn middle_of(line: &[Pt]) -> Option<Pt>
    ensures { result ≡ middle_of line.now }
{
    let middle = line.get(line.len() / 2)?;
    Some(*middle)
}

/// The number in the middle between two.
fn mean(a: i32, b: i32) -> i32
    ensures { result ≡ int_div (a +ℤ b) (pos 2) }
{
    ((i64::from(a) + i64::from(b)) / 2) as i32
}

/// The middle between two points.
fn between(p: Pt, q: Pt) -> Pt
    ensures { result ≡ between p q }
{
    Pt {
        x: mean(p.x, q.x),
        y: mean(p.y, q.y),
    }
}

/// The middle between the first point of a ring and the point half way round.
fn centre_of(ring: &[Pt]) -> Option<Pt>
    ensures { result ≡ centre_of ring.now }
{
    let first = ring.first()?;
    let opposite = middle_of(ring)?;
    Some(between(*first, opposite))
}

/// The points of coordinates.
pub(crate) fn points_of(alloc: Global, coords: &[Coord]) -> Result<Line, AllocError>
    ensures { IfOk result (λ points. points ≡ map point_of coords.now) }
{
    let mut points = Line::new(alloc);
    for coord in coords {
        points.push(point(coord))?;
    }
    Ok(points)
}

/// The places of symbols on a shape: all points of a point feature; of a line the middle of its first edge, and of an
/// area that of its first ring.
fn places_in(alloc: Global, shape: Option<&Shape>) -> Result<Line, AllocError>
    ensures { IfOk result (λ places. places ≡ places_in (option_copied shape.entry)) }
{
    match shape {
        Some(Shape::Points(coords)) => points_of(alloc, coords.as_slice()),
        Some(Shape::Lines(lines)) => alone(alloc, first_middle(lines.as_slice())),
        Some(Shape::Rings(rings)) => alone(alloc, first_centre(rings.as_slice())),
        Some(Shape::Bare) | None => Ok(Line::new(alloc)),
    }
}

/// The middle of the first line.
fn first_middle(lines: &[Line]) -> Option<Pt>
    ensures { result ≡ option_and_then middle_of (slice_get lines.now 0) }
{
    middle_of(lines.first()?.as_slice())
}

/// The middle of the first ring.
fn first_centre(rings: &[Line]) -> Option<Pt>
    ensures { result ≡ option_and_then centre_of (slice_get rings.now 0) }
{
    centre_of(rings.first()?.as_slice())
}

/// The place of an item along an edge.
fn place_along(alloc: Global, cell: &Cell, rcid: u32) -> Result<Option<Pt>, AllocError>
    ensures { IfOk result (λ place. place ≡ option_and_then middle_of (line_of cell.now (edge_named rcid) false)) }
{
    match line_along(alloc, cell, rcid)? {
        Some(line) => Ok(middle_of(line.as_slice())),
        None => Ok(None),
    }
}

/// The places of the symbols of an item on a feature.
pub(crate) fn places_at(
    alloc: Global,
    subject: &Subject,
    target: Target,
) -> Result<Line, AllocError>
    ensures { IfOk result (λ places. places ≡ places_at subject.now.cell.now subject.now.rcid target) }
{
    match target {
        Target::Whole => places_in(alloc, subject.shape.as_ref()),
        Target::Edge(edge) => {
            let place = place_along(alloc, subject.cell, edge)?;
            alone(alloc, place)
        }
        Target::At(x, y) => alone(alloc, Some(Pt { x, y })),
    }
}
