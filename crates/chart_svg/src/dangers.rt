//! The dangers along a route in a picture.
//!
//! A danger is told by its chart's key, its feature's number and its place, so what it is has to be found again. It is
//! marked as it was met: round a point, along a line, or over a whole area.

ghost use Rattle.std.specs.Prelude.{◌≡◌, ◌++◌, ◌≤◌, ◌-◌, slice_get, map, find, IfOk, OnOk};
ghost use Rattle.std.specs.Option.{option_copied};
ghost use Rattle.area_rings.specs.Edge.{point_of};
ghost use Rattle.chart_svg.specs.Dangers.{has_key, danger_shape, points_among, circles, danger_pen};
ghost use Rattle.chart_svg.specs.Dangers.{danger_figure, danger_element};

use crate::chart::Chart;
use crate::element::{Element, ElementList, Origin};
use crate::figure::{Dash, Figure, Fill, Pen, spot_lines_of, spots_of};
use crate::look::Look;
use crate::places::{alone, points_of, shape_at};
use crate::view::View;
use area_rings::{Line, Shape};
use chart_model::{Coord, Key, Octets, Shared};
use plane_geometry::Pt;
use route_check::Danger;
use std::alloc::{AllocError, Global};

/// The colour of dangers that are marked.
const DANGER_TOKEN: &[u8] = b"DNGHL";

/// A circle round a danger.
const RING_PATH: &[u8] = b"m-9,0a9,9,0,1,0,18,0a9,9,0,1,0,-18,0";

/// The first chart of a key.
fn chart_of<'a, 'b>(charts: &'a [Chart<'b>], key: Key) -> Option<&'a Chart<'b>>
    ensures { option_copied result ≡ find (has_key key) charts.now }
{
    for chart in charts {
        if chart.key == key {
            return Some(chart);
        }
    }
    None
}

/// The shape of the feature of a danger.
fn danger_shape(
    alloc: Global,
    charts: &[Chart],
    danger: &Danger,
) -> Result<Option<Shape>, AllocError>
    ensures { IfOk result (λ shape. shape ≡ danger_shape charts.now danger.now) }
{
    match chart_of(charts, danger.key) {
        Some(chart) => shape_at(alloc, chart.cell, danger.rcid),
        None => Ok(None),
    }
}

/// The point at a place, counted from 1.
fn point_at(points: &[Pt], place: u64) -> Option<Pt>
    requires { 1 ≤ place }
    ensures { result ≡ slice_get points.now (place - 1) }
{
    let point = points.get(place as usize - 1)?;
    Some(*point)
}

/// The point at a place, or all of them for 0.
fn points_among(alloc: Global, points: Line, place: u64) -> Result<Line, AllocError>
    ensures { IfOk result (λ among. among ≡ points_among points place) }
{
    if place == 0 {
        return Ok(points);
    }
    alone(alloc, point_at(points.as_slice(), place))
}

/// A circle round each of some points.
fn circles(alloc: Global, view: &View, look: &Look, points: &[Pt]) -> Result<Figure, AllocError>
    ensures { IfOk result (λ figure. figure ≡ circles view.now look.now points.now) }
{
    let spots = spots_of(alloc, view, points)?;
    let path = Shared::of(alloc, Octets::from_slice(alloc, RING_PATH)?)?;
    Ok(Figure::Symbols(spots, path, look.colour(DANGER_TOKEN)))
}

/// Circles round the points of a feature at a place.
fn point_circles(
    alloc: Global,
    view: &View,
    look: &Look,
    coords: &[Coord],
    place: u64,
) -> Result<Figure, AllocError>
    ensures { IfOk result (λ figure.
        figure ≡ circles view.now look.now (points_among (map point_of coords.now) place)) }
{
    let points = points_of(alloc, coords)?;
    let among = points_among(alloc, points, place)?;
    circles(alloc, view, look, among.as_slice())
}

/// What a dangerous line is drawn with.
fn danger_pen(look: &Look) -> Pen
    ensures { result ≡ danger_pen look.now }
{
    Pen {
        colour: look.colour(DANGER_TOKEN),
        width: 4,
        dash: Dash::Solid,
    }
}

/// What marks a danger of a shape.
fn danger_figure(
    alloc: Global,
    view: &View,
    look: &Look,
    place: u64,
    shape: Option<&Shape>,
) -> Result<Figure, AllocError>
    ensures { IfOk result (λ figure.
        figure ≡ danger_figure view.now look.now place (option_copied shape.entry)) }
{
    match shape {
        Some(Shape::Points(coords)) => point_circles(alloc, view, look, coords.as_slice(), place),
        Some(Shape::Lines(lines)) => {
            let spots = spot_lines_of(alloc, view, lines.as_slice())?;
            Ok(Figure::Lines(spots, danger_pen(look)))
        }
        Some(Shape::Rings(rings)) => {
            let spots = spot_lines_of(alloc, view, rings.as_slice())?;
            Ok(Figure::Area(spots, Fill::Sheer(look.colour(DANGER_TOKEN))))
        }
        Some(Shape::Bare) | None => circles(alloc, view, look, &[]),
    }
}

/// The element of a danger.
fn danger_element(
    alloc: Global,
    view: &View,
    look: &Look,
    charts: &[Chart],
    danger: &Danger,
) -> Result<Element, AllocError>
    ensures { IfOk result (λ element. element ≡ danger_element view.now look.now charts.now danger.now) }
{
    let shape = danger_shape(alloc, charts, danger)?;
    Ok(Element {
        origin: Origin::FromDanger(*danger),
        figure: danger_figure(alloc, view, look, danger.place, shape.as_ref())?,
    })
}

/// Adds the elements of dangers.
pub(crate) fn push_dangers(
    alloc: Global,
    elements: &mut ElementList,
    view: &View,
    look: &Look,
    charts: &[Chart],
    dangers: &[Danger],
) -> Result<(), AllocError>
    ensures { OnOk result
        (elements.new ≡ elements.old ++ map (danger_element view.now look.now charts.now) dangers.now) }
{
    for danger in dangers {
        elements.push(danger_element(alloc, view, look, charts, danger)?)?;
    }
    Ok(())
}
