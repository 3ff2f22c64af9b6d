//! The lines `cells` and `draw`.
//!
//! The users of a chart's edges are those that the session keeps. They are there wherever the chart is. A chart of a day
//! is another, and brings its own.

ghost use Rattle.std.specs.Prelude.{◌≡◌, ◌≢◌, ◌+◌, ◌≤◌, Ok, Err, IfOk, Some, option_map};
ghost use Rattle.std.specs.FinMap as finite;
ghost use Rattle.session_core.specs.declared.fault.EventFault.TheVariants.{DeskFault};
ghost use Rattle.session_core.specs.Answers.{Gives};
ghost use Rattle.date_display.specs.Days.{date_of};
ghost use Rattle.session_core.specs.Draw.{draw_of};
ghost use Rattle.session_core.specs.Held.{chart_of};
ghost use Rattle.session_core.specs.Kept.{IsKeptOf, IsKeptOfEach};
ghost use Rattle.session_core.specs.Model.{portrayal_with, shown_by};
ghost use Rattle.session_core.specs.Steps.{features_drawn};
ghost use Rattle.session_lists.specs.Cells.{cells_reply};
ghost use Rattle.session_lists.specs.Draw.{draw_reply};
ghost use Rattle.topology_cache.specs.Users.{AreUsersOf};

use crate::days::chart_on_day;
use crate::fault::EventFault;
use crate::held::chart_of;
use crate::refusal::LineRefusal;
use crate::target::Charts;
use chart_model::{Cell, HoldingMap, Key};
use chart_ports::Steps;
use chart_store::Refusal as StoreRefusal;
use script_reader::Reply;
use session_lists::{cells_reply, draw_reply};
use std::alloc::{AllocError, Global};
use std::sync::ledger::Ledger;

/// The cells that are held, as a reply.
pub fn list_cells(alloc: Global, cells: &HoldingMap) -> Result<Reply, EventFault>
    ensures given { Gives result (Ok (cells_reply cells.now)) }
    ensures desk { result ≢ Err DeskFault }
{
    Ok(cells_reply(alloc, cells)?)
}

/// The drawing of the cell of this key, whose chart this is, as a reply. With a day it is that of the chart on the day,
/// and each feature that is shown is a step.
fn drawn<C: Ledger>(
    alloc: Global,
    key: Key,
    chart: &Cell,
    charts: &Charts,
    steps: &mut Steps<C>,
) -> Result<Reply, AllocError>
    requires kept { IsKeptOf AreUsersOf (Some chart.now) (finite.get charts.now.users.now key) }
    ensures reply { let portrayal = portrayal_with charts.now.table.now charts.now.settings.now
        (option_map date_of charts.now.day) in
        IfOk result (λ reply.
        reply ≡ draw_reply portrayal.table portrayal.settings key (shown_by portrayal chart.now)) }
    ensures at_most { let portrayal = portrayal_with charts.now.table.now charts.now.settings.now
        (option_map date_of charts.now.day) in
        steps.new ≤ steps.old + features_drawn portrayal (Some chart.now) }
{
    if let Some(day) = charts.day {
        let shown = chart_on_day(alloc, chart, day, steps)?;
        return draw_reply(
            alloc,
            key,
            &shown.chart,
            &shown.users,
            charts.table,
            charts.settings,
        );
    }
    let Some(users) = charts.users.get(key) else {
        unreachable!();
    };
    draw_reply(alloc, key, chart, users, charts.table, charts.settings)
}

/// The drawing of the cell of this key, as a reply.
#[tactic(auto, unfolding(crate::specs::Draw::draw_of))]
pub fn draw_chart<C: Ledger>(
    alloc: Global,
    key: Key,
    charts: &Charts,
    steps: &mut Steps<C>,
) -> Result<Reply, EventFault>
    requires kept { IsKeptOfEach AreUsersOf charts.now.cells.now charts.now.users.now }
    ensures given { let portrayal = portrayal_with charts.now.table.now charts.now.settings.now
        (option_map date_of charts.now.day) in
        Gives result (draw_of portrayal charts.now.cells.now key) }
    ensures desk { result ≢ Err DeskFault }
    ensures at_most { let portrayal = portrayal_with charts.now.table.now charts.now.settings.now
        (option_map date_of charts.now.day) in
        steps.new ≤ steps.old + features_drawn portrayal (chart_of charts.now.cells.now key) }
{
    let Some(chart) = chart_of(charts.cells, key) else {
        return Err(EventFault::Refused(LineRefusal::Store(StoreRefusal::NoCell(key))));
    };
    Ok(drawn(alloc, key, chart, charts, steps)?)
}
