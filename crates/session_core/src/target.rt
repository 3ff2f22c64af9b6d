//! What panels are to show: the blocks of all charts that are held.
//!
//! The users of the charts' edges are those that the session keeps, as for the line `draw`. The blocks of a chart are
//! made together, so that what they share is made once.

ghost use Rattle.std.specs.Prelude.{◌≡◌, ◌+◌, ◌≤◌, IfOk, OnOk, Some, option_map};
ghost use Rattle.std.specs.FinMap as finite;
ghost use Rattle.std.specs.Option.{option_copied};
ghost use Rattle.date_display.specs.Days.{date_of};
ghost use Rattle.draw_list.specs.Blocks.{named_blocks_in};
ghost use Rattle.session_core.specs.Kept.{IsKeptOf, IsKeptOfEach};
ghost use Rattle.session_core.specs.Model.{portrayal_with, shown_by};
ghost use Rattle.session_core.specs.Panels.{blocks_under, target_of, under_key, with_all};
ghost use Rattle.session_core.specs.Steps.{features_drawn, features_refreshed};
ghost use Rattle.topology_cache.specs.Users.{AreUsersOf};

use crate::days::chart_on_day;
use chart_model::{Cell, HoldingMap, Key, PanelKey, Settings};
use chart_ports::Steps;
use date_display::Day;
use draw_list::{NamedBlock, blocks_of};
use lookup_table::Table;
use panel_port::BlockMap;
use std::alloc::{AllocError, Global};
use std::sync::ledger::Ledger;
use topology_cache::UsersMap;

/// The charts that are held, and what they are drawn by.
#[derive(Clone, Copy)]
pub struct Charts<'a> {
    pub cells: &'a HoldingMap,
    /// The users of the edges of each chart.
    pub users: &'a UsersMap,
    pub table: &'a Table,
    pub settings: &'a Settings,
    /// The day of which they are drawn, where one is set.
    pub day: Option<Day>,
}

/// Puts blocks under the key of their cell and the names of their features.
fn put_blocks(target: &mut BlockMap, key: Key, blocks: Vec<NamedBlock>) -> Result<(), AllocError>
    ensures { OnOk result (target.new ≡ with_all target.old (under_key key blocks.items)) }
{
    for named in blocks {
        let name = named.name;
        target.insert(PanelKey { key, name }, named.block)?;
    }
    Ok(())
}

/// The blocks of a chart. With a day they are those of the chart on the day, and each feature that is shown is a step.
fn chart_blocks<C: Ledger>(
    alloc: Global,
    key: Key,
    chart: &Cell,
    charts: &Charts,
    steps: &mut Steps<C>,
) -> Result<Vec<NamedBlock>, AllocError>
    requires { IsKeptOf AreUsersOf (Some chart.now) (finite.get charts.now.users.now key) }
    ensures blocks { let portrayal = portrayal_with charts.now.table.now charts.now.settings.now
        (option_map date_of charts.now.day) in
        IfOk result (λ blocks.
        blocks.items ≡ named_blocks_in (shown_by portrayal chart.now) portrayal.table portrayal.settings) }
    ensures at_most { let portrayal = portrayal_with charts.now.table.now charts.now.settings.now
        (option_map date_of charts.now.day) in
        steps.new ≤ steps.old + features_drawn portrayal (Some chart.now) }
{
    if let Some(day) = charts.day {
        let shown = chart_on_day(alloc, chart, day, steps)?;
        return blocks_of(
            alloc,
            &shown.chart,
            &shown.users,
            charts.table,
            charts.settings,
        );
    }
    let Some(users) = charts.users.get(key) else {
        unreachable!();
    };
    blocks_of(alloc, chart, users, charts.table, charts.settings)
}

/// Puts the blocks of a chart, where there is one.
fn put_chart<C: Ledger>(
    alloc: Global,
    target: &mut BlockMap,
    key: Key,
    chart: Option<&Cell>,
    charts: &Charts,
    steps: &mut Steps<C>,
) -> Result<(), AllocError>
    requires { IsKeptOf AreUsersOf (option_copied chart) (finite.get charts.now.users.now key) }
    ensures put { let portrayal = portrayal_with charts.now.table.now charts.now.settings.now
        (option_map date_of charts.now.day) in
        OnOk result (target.new ≡ with_all target.old (blocks_under portrayal key (option_copied chart.entry))) }
    ensures at_most { let portrayal = portrayal_with charts.now.table.now charts.now.settings.now
        (option_map date_of charts.now.day) in
        steps.new ≤ steps.old + features_drawn portrayal (option_copied chart.entry) }
{
    let Some(chart) = chart else {
        return Ok(());
    };
    let blocks = chart_blocks(alloc, key, chart, charts, steps)?;
    put_blocks(target, key, blocks)
}

/// The blocks of all features that are shown, in all charts, with a day in those of the day.
pub fn target_of<C: Ledger>(
    alloc: Global,
    charts: &Charts,
    steps: &mut Steps<C>,
) -> Result<BlockMap, AllocError>
    requires { IsKeptOfEach AreUsersOf charts.now.cells.now charts.now.users.now }
    ensures target { let portrayal = portrayal_with charts.now.table.now charts.now.settings.now
        (option_map date_of charts.now.day) in
        IfOk result (λ target. target ≡ target_of portrayal charts.now.cells.now) }
    ensures at_most { let portrayal = portrayal_with charts.now.table.now charts.now.settings.now
        (option_map date_of charts.now.day) in
        steps.new ≤ steps.old + features_refreshed portrayal charts.now.cells.now }
{
    let mut target = BlockMap::new(alloc);
    for (key, holding) in charts.cells.iter() {
        put_chart(
            alloc,
            &mut target,
            *key,
            holding.chart.as_ref(),
            charts,
            steps,
        )?;
    }
    Ok(target)
}
