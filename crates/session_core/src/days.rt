//! Charts of a day.
//!
//! What a session keeps of a chart is of the whole chart, which is the same on every day. A chart of a day has fewer
//! features, so the users of its edges are found each time that it is drawn. Its records are shared with the chart.

ghost use Rattle.std.specs.Prelude.{◌≡◌, ◌+◌, ◌≤◌, Some, IfOk};
ghost use Rattle.date_display.specs.Chart.{chart_on};
ghost use Rattle.date_display.specs.Days.{date_of};
ghost use Rattle.session_core.specs.Kept.{features_in};
ghost use Rattle.topology_cache.specs.Users.{AreUsersOf};

use chart_model::Cell;
use chart_ports::Steps;
use date_display::{Day, visible};
use std::alloc::{AllocError, Global};
use std::sync::ledger::Ledger;
use topology_cache::{Users, users_of};

/// The chart of a day: the features that are shown on it, with the users of the edges among them.
#[derive(Drop)]
pub struct ChartOnDay {
    pub chart: Cell,
    pub users: Users,
}

/// The chart of a day. Each feature that is shown is a step.
pub fn chart_on_day<C: Ledger>(
    alloc: Global,
    chart: &Cell,
    day: Day,
    steps: &mut Steps<C>,
) -> Result<ChartOnDay, AllocError>
    ensures chart { IfOk result (λ shown. shown.chart ≡ chart_on (date_of day) chart.now) }
    ensures users { IfOk result (λ shown. AreUsersOf shown.chart shown.users) }
    ensures at_most { steps.new ≤ steps.old + features_in (Some (chart_on (date_of day) chart.now)) }
{
    let chart = visible(alloc, chart, day)?;
    let users = users_of(alloc, &chart, steps)?;
    Ok(ChartOnDay { chart, users })
}
