//! The line `route`.
//!
//! The charts come with their grids, so features that no leg reaches aren't looked at.

ghost use Rattle.std.specs.Prelude.{◌≡◌, ◌++◌, IfOk, OnOk};
ghost use Rattle.chart_model.specs.Memory.{Gives};
ghost use Rattle.route_check.specs.Grids.{HasGrids};
ghost use Rattle.route_check.specs.declared.fault.RouteFault.TheVariants.{NoMemory};
ghost use Rattle.session_lists.specs.Route.{danger_line, danger_lines, route_reply};

use chart_model::{Octets, Settings, State};
use route_check::{Danger, DangerList, RouteFault, read_route, report};
use script_reader::{Reply, end_line, push_number, push_word};
use spatial_grid::GridMap;
use std::alloc::{AllocError, Global};

/// Adds the line of a danger.
fn push_danger(alloc: Global, lines: &mut Octets, danger: &Danger) -> Result<(), AllocError>
    ensures { OnOk result (lines.new ≡ lines.old ++ danger_line danger.now) }
{
    lines.extend_from_slice(b"danger")?;
    push_number(alloc, lines, danger.leg as u64)?;
    push_word(lines, danger.key.as_slice())?;
    push_number(alloc, lines, danger.rcid as u64)?;
    push_number(alloc, lines, danger.place)?;
    end_line(lines)
}

/// A line for each danger.
fn print_dangers(alloc: Global, dangers: &DangerList) -> Result<Octets, AllocError>
    ensures { IfOk result (λ lines. lines ≡ danger_lines dangers.now) }
{
    let mut lines = Octets::from_vec(Vec::new(alloc));
    for danger in dangers.as_slice() {
        push_danger(alloc, &mut lines, danger)?;
    }
    Ok(lines)
}

/// The reply of `route` for the route that the bytes are: the numbers of its legs and of the dangers along them in all
/// charts that are held, and a line for each danger; or why the bytes are no route. The grids are those of the charts.
pub fn route_reply(
    alloc: Global,
    bytes: &[u8],
    state: &State,
    grids: &GridMap,
    settings: &Settings,
) -> Result<Reply, RouteFault>
    requires { HasGrids state.now grids.now }
    ensures { Gives NoMemory result (route_reply settings.now state.now bytes.now) }
{
    let route = read_route(alloc, bytes)?;
    let dangers = report(alloc, state, grids, settings, &route)?;
    let lines = print_dangers(alloc, &dangers)?;
    let count = dangers.as_slice().len() as u64;
    Ok(Reply::Route(route.leg_count() as u64, count, lines))
}
