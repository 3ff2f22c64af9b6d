//! Charts that are held, their grids, and routes, from which reports are made.
//!
//! A report asks what is held and not files, so charts are put into a state without a store. Grids are handed in beside
//! it, so that one can be left out.

ghost use Rattle.std.specs.Prelude.{◌≡◌, ◌↔◌, ◌≤◌, None, true, length, All, IfOk, IfSome};
ghost use Rattle.chart_model.specs.State.{IsHeld, IsChartOf, IsFileLength};

use chart_model::{
    Cell, FileList, Header, Held, Holding, HoldingMap, Key, Octets, Settings, Shades, Shared, State,
};
use plane_geometry::Pt;
use route_check::{Danger, DangerList, PtList, Route, report};
use sample_rows::{Row, add_rows};
use spatial_grid::{GridMap, grid_of};
use std::alloc::{AllocError, Global};
use std::test::Fail;

/// A safety contour and a safety depth, in centimetres.
fn settings(safety_contour: i32, safety_depth: i32) -> Settings {
    Settings {
        safety_contour,
        safety_depth,
        shallow: 200,
        deep: 3_000,
        shades: Shades::Two,
        pattern: false,
        scale: 1,
    }
}

/// The route of half-widths over points.
fn route_over(alloc: Global, half: [u32; 2], points: &[[i32; 2]]) -> Result<Route, Fail> {
    let mut list = Vec::new(alloc);
    for point in points {
        list.push(Pt {
            x: point[0],
            y: point[1],
        })?;
    }
    let points = PtList::from_vec(list).ok_or("points of a route")?;
    Ok(Route {
        w: half[0],
        h: half[1],
        points,
    })
}

/// The chart of rows under a key.
pub(super) fn chart_under(alloc: Global, key: Key, rows: &[Row]) -> Result<Cell, Fail> {
    let header = Header {
        key,
        edition: 1,
        update: 0,
        issued: *b"20260101",
        agency: 1,
        scale: 50_000,
    };
    // For the proof alone: a key is known to be one where it is read.
    let _ = key.as_slice();
    let mut cell = Cell::new(alloc, header);
    add_rows(alloc, &mut cell, rows)?;
    Ok(cell)
}

/// No cell.
pub(super) fn nothing_held(alloc: Global) -> State {
    State {
        cells: HoldingMap::new(alloc),
    }
}

/// The files of a cell: one without a byte.
fn one_file(alloc: Global) -> Result<FileList, AllocError>
    ensures nonempty { IfOk result (λ files. 1 ≤ length files) }
    ensures files { IfOk result (All (λ file. IsFileLength (length file))) }
{
    let mut files = FileList::new(alloc);
    files.push(Shared::of(alloc, Octets::from_vec(Vec::new(alloc)))?)?;
    Ok(files)
}

/// Holds a cell under a key, with one file.
pub(super) fn hold(
    alloc: Global,
    state: &mut State,
    key: Key,
    held: Held,
    chart: Option<Cell>,
) -> Result<(), AllocError>
    requires held { IsHeld held }
    requires cancelled { (chart ≡ None) ↔ (held.cancelled ≡ true) }
    requires chart { IfSome chart (IsChartOf key held) }
{
    // For the proof alone: a key is known to be one where it is read.
    let _ = key.as_slice();
    let files = one_file(alloc)?;
    state.cells.insert(key, Holding { held, files, chart })?;
    Ok(())
}

/// Holds a chart.
pub(super) fn hold_chart(alloc: Global, state: &mut State, chart: Cell) -> Result<(), AllocError> {
    let header = chart.header;
    let held = Held {
        edition: header.edition,
        update: header.update,
        cancelled: false,
    };
    hold(alloc, state, header.key, held, Some(chart))
}

/// The grids of all charts that are held.
pub(super) fn grids_over(alloc: Global, state: &State) -> Result<GridMap, AllocError> {
    let mut grids = GridMap::new(alloc);
    for (key, holding) in state.cells.iter() {
        if let Some(chart) = &holding.chart {
            grids.insert(*key, grid_of(alloc, chart)?)?;
        }
    }
    Ok(grids)
}

/// The report along a route of half-widths over points, by a safety contour and a safety depth.
pub(super) fn rows_along(
    alloc: Global,
    state: &State,
    grids: &GridMap,
    depths: (i32, i32),
    half: [u32; 2],
    points: &[[i32; 2]],
) -> Result<DangerList, Fail> {
    let route = route_over(alloc, half, points)?;
    let settings = settings(depths.0, depths.1);
    Ok(report(alloc, state, grids, &settings, &route)?)
}

/// The row of a whole feature.
pub(super) fn whole(leg: u32, key: Key, rcid: u32) -> Danger {
    Danger {
        leg,
        key,
        rcid,
        place: 0,
    }
}
