//! The line `cover`.
//!
//! A route meets no danger where nothing is charted. So that this isn't read as safe water, the legs that no area of
//! coverage holds are listed by themselves.

ghost use Rattle.std.specs.Prelude.{◌≡◌, ◌++◌, IfOk, OnOk};
ghost use Rattle.chart_model.specs.Memory.{Gives};
ghost use Rattle.route_check.specs.Route.{legs_of};
ghost use Rattle.route_check.specs.declared.fault.RouteFault.TheVariants.{NoMemory};
ghost use Rattle.session_lists.specs.Cover.{uncovered_line, uncovered_lines, cover_reply};

use chart_model::{Octets, State};
use coverage_points::{LegList, uncovered_legs};
use route_check::{Route, RouteFault, read_route};
use route_geometry::Leg;
use script_reader::{Reply, end_line, push_number};
use std::alloc::{AllocError, Global};

/// The legs of a route, in order.
fn legs_in(alloc: Global, route: &Route) -> Result<Vec<Leg>, AllocError>
    ensures { IfOk result (λ legs. legs.items ≡ legs_of route.now) }
{
    let mut legs = Vec::new(alloc);
    for before in 0..route.leg_count() {
        legs.push(route.leg(before + 1))?;
    }
    Ok(legs)
}

/// Adds the line of a leg that isn't covered.
fn push_uncovered(alloc: Global, lines: &mut Octets, leg: u64) -> Result<(), AllocError>
    ensures { OnOk result (lines.new ≡ lines.old ++ uncovered_line leg) }
{
    lines.extend_from_slice(b"uncovered")?;
    push_number(alloc, lines, leg)?;
    end_line(lines)
}

/// A line for each of the legs.
fn print_uncovered(alloc: Global, legs: &LegList) -> Result<Octets, AllocError>
    ensures { IfOk result (λ lines. lines ≡ uncovered_lines legs.now) }
{
    let mut lines = Octets::from_vec(Vec::new(alloc));
    for leg in legs.as_slice() {
        push_uncovered(alloc, &mut lines, *leg)?;
    }
    Ok(lines)
}

/// The reply of `cover` for the route that the bytes are: the numbers of its legs and of those that no area of coverage
/// of a chart that is held covers, and a line for each of these; or why the bytes are no route.
pub fn cover_reply(alloc: Global, bytes: &[u8], state: &State) -> Result<Reply, RouteFault>
    ensures { Gives NoMemory result (cover_reply state.now bytes.now) }
{
    let route = read_route(alloc, bytes)?;
    let legs = legs_in(alloc, &route)?;
    let uncovered = uncovered_legs(alloc, state, legs.as_slice())?;
    let lines = print_uncovered(alloc, &uncovered)?;
    let count = uncovered.as_slice().len() as u64;
    Ok(Reply::Cover(legs.len() as u64, count, lines))
}
