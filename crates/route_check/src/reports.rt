//! The dangerous objects along a route.
//!
//! Charts are asked one after the other, and of each the features one after the other, so that beside the rows no more
//! than the asks of one chart, its depth areas and the objects of one feature are held. All charts draw on one
//! `Effort`, so that no charts and no route keep the program busy for long.

ghost use Rattle.std.specs.Prelude.{◌≡◌, ◌++◌, ◌↔◌, IfOk, OnOk, Contains};
ghost use Rattle.std.specs.List.{flat_map};
ghost use Rattle.chart_model.specs.State.{IsState};
ghost use Rattle.route_check.specs.Ask.{rows_after, rows_asked, IsRowOn, IsRowUnder};
ghost use Rattle.route_check.specs.Gains.{Gains};
ghost use Rattle.route_check.specs.Grids.{HasGrids, IsAsked};
ghost use Rattle.route_check.specs.Report.{IsReportBy, IsRow, rows_of, report_of};

use crate::asks::{Ask, asks_of};
use crate::chart_objects::Sources;
use crate::danger::{Danger, DangerList, each_once};
use crate::found::Found;
use crate::object::Object;
use crate::reach::reach_of;
use crate::report_laws::reports_are_one;
use crate::route::Route;
use chart_model::{Cell, Key, Settings, State};
use depth_values::Effort;
use route_geometry::Leg;
use spatial_grid::{Grid, GridMap};
use std::alloc::{AllocError, Global};

/// What a danger counts as that is told, so that no report is longer than memory bears.
const COST_OF_ROW: usize = 150;

/// Adds the rows of a leg of a number: of all objects that it meets.
fn push_met(
    effort: &mut Effort,
    rows: &mut Vec<Danger>,
    number: u32,
    leg: &Leg,
    objects: &[Object],
) -> Result<(), AllocError>
    ensures { OnOk result (rows.new.items ≡ rows.old.items ++ rows_of objects.now (number, leg.now)) }
{
    let reach = reach_of(*leg);
    for object in objects {
        effort.spend(object.cost(reach))?;
        if object.is_met(leg, reach) {
            effort.spend(COST_OF_ROW)?;
            rows.push(object.row(number))?;
        }
    }
    Ok(())
}

/// Adds the rows of the leg that so many come before, where there is one.
fn push_rows(
    effort: &mut Effort,
    rows: &mut Vec<Danger>,
    route: &Route,
    before: u32,
    objects: &[Object],
) -> Result<(), AllocError>
    ensures { OnOk result (rows.new.items ≡ rows.old.items ++ rows_after route.now objects.now before) }
{
    if before < route.leg_count() {
        let number = before + 1;
        push_met(effort, rows, number, &route.leg(number), objects)
    } else {
        Ok(())
    }
}

/// Adds the rows of what is asked of a chart. Asks for one feature stand together, and its objects are made once.
fn push_asked(
    alloc: Global,
    effort: &mut Effort,
    rows: &mut Vec<Danger>,
    from: &Sources,
    route: &Route,
    asks: &[Ask],
) -> Result<(), AllocError>
    ensures { OnOk result (rows.new.items ≡ rows.old.items ++ flat_map
        (rows_asked from.now.settings.now from.now.key from.now.cell.now route.now) asks.now) }
{
    let mut found = Found::new(alloc, from);
    for ask in asks {
        found.turn_to(alloc, effort, from, ask.name)?;
        push_rows(effort, rows, route, ask.before, found.objects())?;
    }
    Ok(())
}

/// Adds the rows of a chart: its grid is asked for the features that a leg may meet.
fn push_chart(
    alloc: Global,
    effort: &mut Effort,
    rows: &mut Vec<Danger>,
    grid: &Grid,
    from: &Sources,
    route: &Route,
) -> Result<(), AllocError>
    ensures { OnOk result (Gains
        (IsRowOn grid.now from.now.settings.now from.now.key from.now.cell.now route.now)
        rows.old.items rows.new.items) }
{
    let asks = asks_of(alloc, effort, grid, route)?;
    push_asked(alloc, effort, rows, from, route, asks.as_slice())?;
    Ok(())
}

/// Adds the rows of a chart, where there is one and it has a grid.
fn push_held(
    alloc: Global,
    effort: &mut Effort,
    rows: &mut Vec<Danger>,
    grids: &GridMap,
    settings: &Settings,
    route: &Route,
    key: Key,
    chart: &Option<Cell>,
) -> Result<(), AllocError>
    ensures { OnOk result (Gains
        (IsRowUnder grids.now settings.now route.now key chart.now) rows.old.items rows.new.items) }
{
    let Some(cell) = chart else {
        return Ok(());
    };
    let from = Sources {
        key,
        cell,
        settings,
    };
    match grids.get(key) {
        Some(grid) => {
            push_chart(alloc, effort, rows, grid, &from, route)?;
            Ok(())
        }
        None => Ok(()),
    }
}

/// The rows of all charts that are held and have a grid, chart by chart. A cancelled cell has no chart.
fn rows_met(
    alloc: Global,
    state: &State,
    grids: &GridMap,
    settings: &Settings,
    route: &Route,
) -> Result<Vec<Danger>, AllocError>
    ensures state { IsState state.now }
    ensures rows { IfOk result (λ rows. (danger : Danger) → Contains rows.items danger
        ↔ (IsRow state.now settings.now route.now danger × IsAsked grids.now route.now danger)) }
{
    let mut effort = Effort::whole();
    let mut rows = Vec::new(alloc);
    for (key, holding) in state.cells.iter() {
        push_held(
            alloc,
            &mut effort,
            &mut rows,
            grids,
            settings,
            route,
            *key,
            &holding.chart,
        )?;
    }
    Ok(rows)
}

/// The dangerous objects of all charts that are held which a leg of the route meets: by leg, then by the charts' keys,
/// the features' numbers and the soundings' places, each once. Dangerous are unsafe areas, hazards up to the safety
/// contour, and soundings up to the safety depth.
///
/// Of each chart the grid is asked first, and only the features whose boxes a leg reaches are tried. A chart without a
/// grid gives no row. What would take more tests than an `Effort` has is answered as want of memory.
pub fn report(
    alloc: Global,
    state: &State,
    grids: &GridMap,
    settings: &Settings,
    route: &Route,
) -> Result<DangerList, AllocError>
    // The rows are those of dangerous objects that a leg meets and whose feature is a candidate of the grid ...
    ensures asked { IfOk result (IsReportBy grids.now state.now settings.now route.now) }
    // ... and with the grids of the charts all of them.
    ensures whole { HasGrids state.now grids.now →
        IfOk result (λ report. report ≡ report_of state.now settings.now route.now) }
{
    reports_are_one();
    let rows = rows_met(alloc, state, grids, settings, route)?;
    Ok(DangerList::from_vec(each_once(rows)?))
}
