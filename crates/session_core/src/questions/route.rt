//! The lines `route` and `cover`.
//!
//! The grids of the charts are those that the session keeps, so features that no leg reaches aren't looked at. A route
//! has at most 1,000 points, and its file 65,536 bytes.

ghost use Rattle.std.specs.Prelude.{◌≢◌, Err};
ghost use Rattle.session_core.specs.declared.fault.EventFault.TheVariants.{DeskFault};
ghost use Rattle.session_core.specs.Answers.{Gives};
ghost use Rattle.route_check.specs.Grids.{HasGrids};
ghost use Rattle.session_core.specs.Fetch.{AreFetched, Fetches, KeepsShelf};
ghost use Rattle.session_core.specs.Route.{ROUTE_LIMIT as LIMIT, cover_of, route_of};

use crate::fault::EventFault;
use crate::fetch::fetch;
use chart_model::{Settings, State};
use chart_ports::Shelf;
use script_reader::{Reply, Word};
use session_lists::{cover_reply, route_reply};
use spatial_grid::GridMap;
use std::alloc::Global;

/// The most bytes of a route's file.
const ROUTE_LIMIT: u64 = 65_536;

/// The dangers along the route of the file of this name, in all charts that are held, by their grids, as a reply.
pub fn check_route<L: Shelf>(
    alloc: Global,
    name: Word,
    state: &State,
    grids: &GridMap,
    settings: &Settings,
    shelf: &mut L,
) -> Result<Reply, EventFault>
    requires grids { HasGrids state.now grids.now }
    ensures found { (fetches : Fetches)
        × AreFetched L.tells (L.files shelf.old) (L.faults shelf.old) (L.faults shelf.new) fetches
        × Gives result (route_of settings.now state.now name (fetches LIMIT name)) }
    ensures desk { result ≢ Err DeskFault }
    ensures keeps { KeepsShelf L.tells L.files L.faults shelf.old shelf.new }
{
    let bytes = fetch(alloc, name, ROUTE_LIMIT, shelf)?;
    Ok(route_reply(alloc, bytes.as_slice(), state, grids, settings)?)
}

/// The legs of the route of the file of this name that no area of coverage of a chart that is held covers, as a reply.
pub fn check_cover<L: Shelf>(
    alloc: Global,
    name: Word,
    state: &State,
    shelf: &mut L,
) -> Result<Reply, EventFault>
    ensures found { (fetches : Fetches)
        × AreFetched L.tells (L.files shelf.old) (L.faults shelf.old) (L.faults shelf.new) fetches
        × Gives result (cover_of state.now name (fetches LIMIT name)) }
    ensures desk { result ≢ Err DeskFault }
    ensures keeps { KeepsShelf L.tells L.files L.faults shelf.old shelf.new }
{
    let bytes = fetch(alloc, name, ROUTE_LIMIT, shelf)?;
    Ok(cover_reply(alloc, bytes.as_slice(), state)?)
}
