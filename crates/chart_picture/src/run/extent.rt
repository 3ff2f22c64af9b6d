//! What a picture shows where the words don't say: all points of the charts, and a little round them.

ghost use Rattle.std.specs.Prelude.{◌≡◌, ◌≤◌, ◌≤ℤ◌, ◌<ℤ◌, ℤ, pos, negsuc};
ghost use Rattle.chart_picture.specs.Extent.{IsWholeView};

use chart_model::{Cell, Coord, HoldingMap};
use chart_svg::View;

/// From a longitude to another and from a latitude to another.
#[derive(Clone, Copy, Debug)]
struct Extent {
    west: i32,
    south: i32,
    east: i32,
    north: i32,
    ghost wide: { west ≤ℤ east },
    ghost high: { south ≤ℤ north },
}

/// The globe, which is shown where there is no point.
const GLOBE: Extent = Extent {
    west: -1_800_000_000,
    south: -900_000_000,
    east: 1_800_000_000,
    north: 900_000_000,
};

/// The point of a coordinate alone.
fn extent_at(coord: &Coord) -> Extent {
    let Coord { x, y, .. } = *coord;
    Extent {
        west: x,
        south: y,
        east: x,
        north: y,
    }
}

/// The least that has a coordinate besides.
fn widened(extent: Extent, coord: &Coord) -> Extent {
    let Coord { x, y, .. } = *coord;
    Extent {
        west: extent.west.min(x),
        south: extent.south.min(y),
        east: extent.east.max(x),
        north: extent.north.max(y),
    }
}

/// The least that has a coordinate besides, where there is one already.
fn with_coord(extent: Option<Extent>, coord: &Coord) -> Extent {
    match extent {
        Some(extent) => widened(extent, coord),
        None => extent_at(coord),
    }
}

/// The least that has coordinates besides.
fn with_coords(extent: Option<Extent>, coords: &[Coord]) -> Option<Extent> {
    let mut extent = extent;
    for coord in coords {
        extent = Some(with_coord(extent, coord));
    }
    extent
}

/// The least that has all points of a chart besides.
fn with_chart(extent: Option<Extent>, cell: &Cell) -> Option<Extent> {
    let mut extent = extent;
    for (_, vector) in cell.vectors.iter() {
        extent = with_coords(extent, vector.coords.as_slice());
    }
    extent
}

/// The least that has all points of all charts.
fn extent_of(cells: &HoldingMap) -> Option<Extent> {
    let mut extent = None;
    for (_, holding) in cells.iter() {
        if let Some(cell) = &holding.chart {
            extent = with_chart(extent, cell);
        }
    }
    extent
}

/// A twentieth of the greater side, and at least one: so much is shown besides.
fn margin(extent: Extent) -> i32
    ensures { pos 1 ≤ℤ result }
{
    let across = extent.west.abs_diff(extent.east);
    let up = extent.south.abs_diff(extent.north);
    (across.max(up) / 20 + 1) as i32
}

/// So much less, and no less than 32 bits hold.
fn before(border: i32, margin: i32) -> i32
    requires { pos 1 ≤ℤ margin }
    ensures within { result ≤ℤ border }
    ensures strict { result ≡ border → border ≡ negsuc 2147483647 }
{
    if border > i32::MIN + margin {
        border - margin
    } else {
        i32::MIN
    }
}

/// So much more, and no more than 32 bits hold.
fn behind(border: i32, margin: i32) -> i32
    requires { pos 1 ≤ℤ margin }
    ensures within { border ≤ℤ result }
    ensures strict { result ≡ border → border ≡ pos 2147483647 }
{
    if border < i32::MAX - margin {
        border + margin
    } else {
        i32::MAX
    }
}

/// From so much less than one border to so much more than another.
fn reach(low: i32, high: i32, margin: i32) -> (i32, i32)
    requires apart { low ≤ℤ high }
    requires some { pos 1 ≤ℤ margin }
    ensures { result.0 <ℤ result.1 }
{
    (before(low, margin), behind(high, margin))
}

/// The view of an extent and a little round it.
fn around(extent: Extent, width: u16) -> View
    requires { 1 ≤ width }
    ensures { result.width ≡ width }
{
    let margin = margin(extent);
    let (west, east) = reach(extent.west, extent.east, margin);
    let (south, north) = reach(extent.south, extent.north, margin);
    match View::new(west, south, east, north, width) {
        Some(view) => view,
        None => unreachable!(),
    }
}

/// The view of all points of the charts, and a little round them, so many units wide.
pub fn whole_view(cells: &HoldingMap, width: u16) -> View
    requires { 1 ≤ width }
    ensures { IsWholeView cells.now width result }
{
    let extent = match extent_of(cells) {
        Some(extent) => extent,
        None => GLOBE,
    };
    around(extent, width)
}
