//! What a session keeps of each chart that is held.
//!
//! It is brought up to date by the records that differ. So after each line it is held against what is found anew in the
//! charts of a store that is opened on the same desk, and that knows nothing of the lines before.

ghost use Rattle.std.specs.Prelude.{◌≡◌, ◌<◌};

use super::turns::{SETTINGS, failing, panels, replies, shelf, table};
use chart_model::{Cell, Key, State};
use chart_ports::{MemoryDesk, Steps};
use chart_store::open_store;
use plane_bounds::Bounds;
use session_core::Session;
use spatial_grid::grid_of;
use std::alloc::{AllocError, Global};
use std::marker::Brand;
use std::sync::ledger::{Blank, Ledger};
use std::test::Fail;
use topology_cache::users_of;

/// An area in which the node of the first update lies, and the first square of the cell for trials.
const AREA: Bounds = Bounds {
    x0: 8,
    y0: 7,
    x1: 1_500,
    y1: 50,
};

/// Lines that change charts: a cell is made, updated three times, rolled back over all of them, taken away and made
/// again, and another is loaded, updated, rolled back and cancelled.
const LINES: [&[u8]; 14] = [
    b"make 2 0",
    b"make 2 1",
    b"make 2 2",
    b"make 2 3",
    b"load T",
    b"load U",
    b"rollback MK000002 0",
    b"rollback AA5TEST1 0",
    b"drop MK000002",
    b"load U",
    b"load CANCEL",
    b"rollback AA5TEST1 1",
    b"make 2 0",
    b"drop AA5TEST1",
];

/// How many charts are held after each.
const CHARTS: [usize; 14] = [1, 1, 1, 1, 2, 2, 2, 2, 1, 1, 0, 1, 2, 1];

/// Whether the session keeps of a chart what is found of it anew.
fn is_kept<C: Ledger>(
    alloc: Global,
    session: &Session,
    key: Key,
    chart: &Cell,
    steps: &mut Steps<C>,
) -> Result<bool, AllocError> {
    let Some(users) = session.users().get(key) else {
        return Ok(false);
    };
    let Some(grid) = session.grids().get(key) else {
        return Ok(false);
    };
    let anew = users_of(alloc, chart, steps)?;
    for (name, _) in chart.vectors.iter() {
        if users.edge_users(*name) != anew.edge_users(*name) {
            return Ok(false);
        }
    }
    let names = grid_of(alloc, chart)?.candidates(alloc, &AREA)?;
    Ok(grid.candidates(alloc, &AREA)?.as_slice() == names.as_slice())
}

/// Whether it does so of each chart, and of no other key.
fn keeps<C: Ledger>(
    alloc: Global,
    session: &Session,
    state: &State,
    charts: usize,
    steps: &mut Steps<C>,
) -> Result<bool, AllocError> {
    for (key, holding) in state.cells.iter() {
        if let Some(chart) = &holding.chart {
            if !is_kept(alloc, session, *key, chart, steps)? {
                return Ok(false);
            }
        }
    }
    Ok(session.users().len() == charts && session.grids().len() == charts)
}

/// Whether it does so after lines over a new store.
fn keeps_after<C: Ledger>(
    alloc: Global,
    lines: &[&[u8]],
    charts: usize,
    blank: Blank,
) -> Result<bool, AllocError>
    requires name { blank.name ≡ C.name }
    requires parts { blank.parts ≡ C.parts }
    requires share { 0 < C.parts }
{
    let mut steps = Steps::<C>::new(blank);
    let mut shelf = shelf(alloc, 0)?;
    let mut desk = MemoryDesk::new(alloc, failing(alloc, 0)?);
    let Ok(store) = open_store(alloc, &mut desk, &mut steps) else {
        return Ok(false);
    };
    let mut panels = panels(alloc)?;
    let count = panels.len();
    let mut session = Session::new(
        alloc,
        store,
        table(alloc)?,
        SETTINGS,
        None,
        count,
        &mut steps,
    )?;
    let _ = replies(
        alloc,
        &mut session,
        &mut shelf,
        &mut desk,
        &mut panels,
        &mut steps,
        lines,
    )?;
    let Ok(again) = open_store(alloc, &mut desk, &mut steps) else {
        return Ok(false);
    };
    keeps(alloc, &session, again.state(), charts, &mut steps)
}

fn kept(alloc: Global, lines: &[&[u8]], charts: usize) -> Result<bool, AllocError> {
    keeps_after::<Brand>(alloc, lines, charts, Blank::new(1))
}

#[test]
fn charts(rt: HostRuntime) -> Result<(), Fail> {
    for (at, charts) in CHARTS.iter().enumerate() {
        assert!(rt; kept(rt.alloc(), &LINES[..at + 1], *charts)?, "line {at}");
    }
    Ok(())
}
