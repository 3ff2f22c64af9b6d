//! What is drawn, in units of the picture.

ghost use Rattle.std.specs.Prelude.{◌≡◌, IfOk};
ghost use Rattle.std.specs.Option.{option_copied};
ghost use Rattle.chart_svg.specs.Figure.{spots_of, spot_lines_of, marks_with, figure_of};
ghost use Rattle.chart_svg.specs.Places.{places_at};

use crate::instruction::{drawn_symbol, fill_of, pen_of};
use crate::look::Look;
use crate::places::{alone, lines_at, places_at, rings_at};
use crate::subject::Subject;
use crate::view::{Spot, View};
use area_rings::Line;
use chart_model::{Item, Octets, Sequence, Shared, Target};
use chart_symbols::Symbol;
use colour_table::Colour;
use plane_geometry::Pt;
use std::alloc::{AllocError, Global};

/// Places in order.
pub type SpotList = Sequence<Spot>;

/// Lines, or rings, of which the last place joins the first.
pub type SpotLines = Sequence<SpotList>;

/// What fills an area.
#[derive(Clone, Copy, Debug, PartialEq, Eq)]
pub enum Fill {
    Flat(Colour),
    /// Slanting lines, for a pattern.
    Hatched,
    /// A colour through which what is below shows, with lines along the rings.
    Sheer(Colour),
}

/// How a line is broken.
#[derive(Clone, Copy, Debug, PartialEq, Eq)]
pub enum Dash {
    Solid,
    Dashed,
    Dotted,
}

/// What a line is drawn with. The width is in units.
#[derive(Clone, Copy, Debug, PartialEq, Eq)]
pub struct Pen {
    pub colour: Colour,
    pub width: u64,
    pub dash: Dash,
}

/// What is drawn.
#[derive(Debug, Drop)]
pub enum Figure {
    /// An area within rings. Inside is what an odd number of them go round, so that holes stay empty.
    Area(SpotLines, Fill),
    Lines(SpotLines, Pen),
    /// A symbol at each of some places: its path data and its colour.
    Symbols(SpotList, Shared<Octets>, Colour),
    /// A small box at each of some places, where there is no symbol.
    Boxes(SpotList),
}

/// Where points of the chart stand in the picture.
pub(crate) fn spots_of(alloc: Global, view: &View, points: &[Pt]) -> Result<SpotList, AllocError>
    ensures { IfOk result (λ spots. spots ≡ spots_of view.now points.now) }
{
    let mut spots = Vec::with_capacity(alloc, points.len())?;
    for point in points {
        spots.push(view.spot(*point))?;
    }
    Ok(SpotList::from_vec(spots))
}

/// Where lines of the chart stand in the picture.
pub(crate) fn spot_lines_of(
    alloc: Global,
    view: &View,
    lines: &[Line],
) -> Result<SpotLines, AllocError>
    ensures { IfOk result (λ spots. spots ≡ spot_lines_of view.now lines.now) }
{
    let mut spots = SpotLines::new(alloc);
    for line in lines {
        spots.push(spots_of(alloc, view, line.as_slice())?)?;
    }
    Ok(spots)
}

/// Where the places of the symbols of an item on a feature stand in the picture.
fn spots_at(
    alloc: Global,
    view: &View,
    subject: &Subject,
    target: Target,
) -> Result<SpotList, AllocError>
    ensures { IfOk result (λ spots.
        spots ≡ spots_of view.now (places_at subject.now.cell.now subject.now.rcid target)) }
{
    // Most are at places of their own, as those of soundings, so these take one list.
    if let Target::At(x, y) = target {
        return alone(alloc, Some(view.spot(Pt { x, y })));
    }
    let places = places_at(alloc, subject, target)?;
    spots_of(alloc, view, places.as_slice())
}

/// A symbol at some places, or a box where there is none.
fn marks_with(spots: SpotList, symbol: Option<&Symbol>) -> Result<Figure, AllocError>
    ensures { IfOk result (λ figure. figure ≡ marks_with spots (option_copied symbol.entry)) }
{
    match symbol {
        Some(symbol) => Ok(Figure::Symbols(spots, symbol.path.clone()?, symbol.colour)),
        None => Ok(Figure::Boxes(spots)),
    }
}

/// What is drawn of an item of a feature: an area where its instruction fills one, lines where it draws
/// these, and else its symbol, or a box.
pub(crate) fn figure_of(
    alloc: Global,
    view: &View,
    look: &Look,
    subject: &Subject,
    item: &Item,
) -> Result<Figure, AllocError>
    ensures { IfOk result (λ figure.
        figure ≡ figure_of view.now look.now subject.now.cell.now subject.now.rcid item.now) }
{
    let text = item.text.as_slice();
    if let Some(fill) = fill_of(look, text) {
        let rings = rings_at(subject, item.target);
        return Ok(Figure::Area(spot_lines_of(alloc, view, rings)?, fill));
    }
    if let Some(pen) = pen_of(look, text) {
        let lines = lines_at(alloc, subject, item.target)?;
        return Ok(Figure::Lines(spot_lines_of(alloc, view, lines.as_slice())?, pen));
    }
    let spots = spots_at(alloc, view, subject, item.target)?;
    marks_with(spots, drawn_symbol(look, text))
}
