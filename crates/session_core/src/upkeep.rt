//! What is kept of each chart that is held, so that no line has to find it anew: the users of its edges, and its grid.
//!
//! A command changes the chart of one cell, and what is kept of it is brought up to date by the records that differ.

ghost use Rattle.std.specs.Prelude.{◌+◌, ◌≤◌, length, IfOk, OnOk};
ghost use Rattle.std.specs.FinMap as finite;
ghost use Rattle.std.specs.Option.{option_copied};
ghost use Rattle.chart_difference.specs.Difference.{AreChanged};
ghost use Rattle.session_core.specs.Kept.{IsKeptOf, IsKeptOfEach, IsRenewed, feature_count, features_in};
ghost use Rattle.spatial_grid.specs.Box.{IsGridOf};
ghost use Rattle.topology_cache.specs.Users.{AreUsersOf};

use chart_model::{Cell, HoldingMap, Key};
use chart_ports::Steps;
use chart_store::Accepted;
use spatial_grid::{GridMap, grid_of};
use std::alloc::{AllocError, Global};
use std::sync::ledger::Ledger;
use topology_cache::{UsersMap, users_of};

/// Makes the users of a cell's chart anew, where there is a chart, and else takes out what is there. Each feature is a
/// step.
fn make_users<C: Ledger>(
    alloc: Global,
    users: &mut UsersMap,
    key: Key,
    chart: Option<&Cell>,
    steps: &mut Steps<C>,
) -> Result<(), AllocError>
    ensures renewed { OnOk result (IsRenewed AreUsersOf key (option_copied chart.entry) users.old users.new) }
    ensures at_most { steps.new ≤ steps.old + features_in (option_copied chart.entry) }
{
    let _ = users.remove(key);
    let Some(chart) = chart else {
        return Ok(());
    };
    users.insert(key, users_of(alloc, chart, steps)?)
}

/// Makes the grid of a cell's chart anew, where there is a chart, and else takes out what is there.
fn make_grid(
    alloc: Global,
    grids: &mut GridMap,
    key: Key,
    chart: Option<&Cell>,
) -> Result<(), AllocError>
    ensures { OnOk result (IsRenewed IsGridOf key (option_copied chart.entry) grids.old grids.new) }
{
    let _ = grids.remove(key);
    let Some(chart) = chart else {
        return Ok(());
    };
    grids.insert(key, grid_of(alloc, chart)?)
}

/// The users of all charts. Each feature is a step.
pub fn all_users<C: Ledger>(
    alloc: Global,
    cells: &HoldingMap,
    steps: &mut Steps<C>,
) -> Result<UsersMap, AllocError>
    ensures kept { IfOk result (IsKeptOfEach AreUsersOf cells.now) }
    ensures at_most { steps.new ≤ steps.old + feature_count cells.now }
{
    let mut users = UsersMap::new(alloc);
    for (key, holding) in cells.iter() {
        make_users(alloc, &mut users, *key, holding.chart.as_ref(), steps)?;
    }
    Ok(users)
}

/// The grids of all charts.
pub fn all_grids(alloc: Global, cells: &HoldingMap) -> Result<GridMap, AllocError>
    ensures { IfOk result (IsKeptOfEach IsGridOf cells.now) }
{
    let mut grids = GridMap::new(alloc);
    for (key, holding) in cells.iter() {
        make_grid(alloc, &mut grids, *key, holding.chart.as_ref())?;
    }
    Ok(grids)
}

/// Brings the users of a cell's chart up to date after a command, by the chart before and the names whose records
/// differ: each is a step at most.
pub fn renew_users<C: Ledger>(
    alloc: Global,
    users: &mut UsersMap,
    done: &Accepted,
    now: Option<&Cell>,
    steps: &mut Steps<C>,
) -> Result<(), AllocError>
    requires kept { IsKeptOf AreUsersOf done.now.old (finite.get users.old done.now.key) }
    requires changed { AreChanged done.now.old (option_copied now) done.now.changed }
    ensures renewed { OnOk result (IsRenewed AreUsersOf done.now.key (option_copied now.entry) users.old users.new) }
    ensures at_most { steps.new ≤ steps.old + length done.now.changed }
{
    let Some(old) = &done.old else {
        return make_users(alloc, users, done.key, now, steps);
    };
    let before = users.remove(done.key);
    let Some(chart) = now else {
        return Ok(());
    };
    let Some(mut after) = before else {
        unreachable!();
    };
    after.absorb(alloc, old, chart, &done.changed, steps)?;
    users.insert(done.key, after)
}

/// Brings the grid of a cell's chart up to date after a command, by the chart before and the names whose records
/// differ.
pub fn renew_grids(
    alloc: Global,
    grids: &mut GridMap,
    done: &Accepted,
    now: Option<&Cell>,
) -> Result<(), AllocError>
    requires kept { IsKeptOf IsGridOf done.now.old (finite.get grids.old done.now.key) }
    requires changed { AreChanged done.now.old (option_copied now) done.now.changed }
    ensures { OnOk result (IsRenewed IsGridOf done.now.key (option_copied now.entry) grids.old grids.new) }
{
    let Some(old) = &done.old else {
        return make_grid(alloc, grids, done.key, now);
    };
    let before = grids.remove(done.key);
    let Some(chart) = now else {
        return Ok(());
    };
    let Some(mut after) = before else {
        unreachable!();
    };
    after.absorb(alloc, old, chart, &done.changed)?;
    grids.insert(done.key, after)
}
