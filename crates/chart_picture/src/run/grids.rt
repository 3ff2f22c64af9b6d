//! The grids of the charts that are held, by which the dangers along a route are found.

ghost use Rattle.std.specs.Prelude.{IfOk, OnOk};
ghost use Rattle.std.specs.Option.{option_copied};
ghost use Rattle.session_core.specs.Kept.{IsKeptOfEach, IsRenewed};
ghost use Rattle.spatial_grid.specs.Box.{IsGridOf};

use chart_model::{Cell, HoldingMap, Key};
use spatial_grid::{GridMap, grid_of};
use std::alloc::{AllocError, Global};

/// Makes the grid of a cell's chart, where there is a chart, and else takes out what is there.
fn make_grid(
    alloc: Global,
    grids: &mut GridMap,
    key: Key,
    chart: Option<&Cell>,
) -> Result<(), AllocError>
    ensures { OnOk result (IsRenewed IsGridOf key (option_copied chart.entry) grids.old grids.new) }
{
    let _ = grids.remove(key);
    let Some(chart) = chart else {
        return Ok(());
    };
    grids.insert(key, grid_of(alloc, chart)?)
}

/// The grids of all charts.
pub fn grids_of(alloc: Global, cells: &HoldingMap) -> Result<GridMap, AllocError>
    ensures { IfOk result (IsKeptOfEach IsGridOf cells.now) }
{
    let mut grids = GridMap::new(alloc);
    for (key, holding) in cells.iter() {
        make_grid(alloc, &mut grids, *key, holding.chart.as_ref())?;
    }
    Ok(grids)
}
