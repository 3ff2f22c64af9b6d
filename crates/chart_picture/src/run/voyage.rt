//! The route, fetched and read, and the dangers along it.
//!
//! A route's file has at most 65,536 bytes, as for a script.

ghost use Rattle.std.specs.Prelude.{◌≡◌, IfOk, option_map, string_bytes};
ghost use Rattle.std.specs.Option.{option_copied};
ghost use Rattle.route_check.specs.Report.{report_of};
ghost use Rattle.session_core.specs.Route.{refusal_of_route};
ghost use Rattle.chart_picture.specs.Fetching.{IsFetched, IsRead};
ghost use Rattle.chart_picture.specs.Files.{IsRouteEnd, checked_in, route_as, route_in_file, voyage_in};

use crate::run::end::{End, Place};
use crate::run::fault::FileFault;
use crate::run::files::{fetch_file, refused};
use crate::run::grids::grids_of;
use chart_model::{Octets, Settings};
use chart_ports::Shelf;
use chart_store::LiveCells;
use route_check::{DangerList, Route, RouteFault, read_route, report};
use session_core::LineRefusal;
use std::alloc::{AllocError, Global};

/// The most bytes of a route's file.
const LIMIT: u64 = 65_536;

/// A route, and the dangers along it.
#[derive(Debug, Drop)]
pub struct CheckedRoute {
    pub route: Route,
    pub dangers: DangerList,
}

/// Why a route is refused; want of memory is no fault of it.
fn refusal_of(fault: RouteFault) -> Option<LineRefusal>
    ensures { result ≡ refusal_of_route fault }
{
    match fault {
        RouteFault::BadLine(line) => Some(LineRefusal::RouteLine(line)),
        RouteFault::Few(points) => Some(LineRefusal::RouteFew(points)),
        RouteFault::Many(points) => Some(LineRefusal::RouteMany(points)),
        RouteFault::NoMemory => None,
    }
}

/// How the run ends at the route of this name.
fn end_of_route(alloc: Global, name: &str, fault: RouteFault) -> End
    ensures { IsRouteEnd name.now (refusal_of_route fault) result }
{
    match refusal_of(fault) {
        Some(refusal) => refused(alloc, Place::Route, name, FileFault::Refused(refusal)),
        None => End::NoMemory,
    }
}

/// The route that the bytes of the file of this name are.
fn route_as(alloc: Global, name: &str, file: &Octets) -> Result<Route, End>
    ensures { IsRead result (route_as name.now file.now) }
{
    match read_route(alloc, file.as_slice()) {
        Ok(route) => Ok(route),
        Err(fault) => Err(end_of_route(alloc, name, fault)),
    }
}

/// The route in the file of this name.
fn fetch_route<L: Shelf>(alloc: Global, name: &str, shelf: &mut L) -> Result<Route, End>
    ensures { IsFetched L.tells L.files L.faults shelf.old shelf.new result (λ files. route_in_file files name.now) }
{
    let file = fetch_file(alloc, Place::Route, name, LIMIT, shelf)?;
    route_as(alloc, name, &file)
}

/// The dangers of all charts that are held along a route.
fn dangers_along(
    alloc: Global,
    live: &LiveCells,
    settings: &Settings,
    route: &Route,
) -> Result<DangerList, AllocError>
    ensures { IfOk result (λ dangers. dangers ≡ report_of live.now settings.now route.now) }
{
    let grids = grids_of(alloc, live.cells())?;
    report(alloc, live.state(), &grids, settings, route)
}

/// The route in the file of this name, and the dangers of the charts along it.
fn check_route<L: Shelf>(
    alloc: Global,
    name: &str,
    live: &LiveCells,
    settings: &Settings,
    shelf: &mut L,
) -> Result<CheckedRoute, End>
    ensures { IsFetched L.tells L.files L.faults shelf.old shelf.new result
        (λ files. voyage_in files settings.now live.now name.now) }
{
    let route = fetch_route(alloc, name, shelf)?;
    let dangers = dangers_along(alloc, live, settings, &route)?;
    Ok(CheckedRoute { route, dangers })
}

/// The route of this name with its dangers, where there is a name.
pub fn check_any<L: Shelf>(
    alloc: Global,
    name: Option<&String>,
    live: &LiveCells,
    settings: &Settings,
    shelf: &mut L,
) -> Result<Option<CheckedRoute>, End>
    ensures { IsFetched L.tells L.files L.faults shelf.old shelf.new result
        (λ files. checked_in files settings.now live.now (option_map string_bytes (option_copied name.entry))) }
{
    let Some(name) = name else {
        return Ok(None);
    };
    let checked = check_route(alloc, name.as_str(), live, settings, shelf)?;
    Ok(Some(checked))
}
