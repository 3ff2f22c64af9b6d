//! The cell files, fetched and loaded in order.
//!
//! What is held then is what a store would hold after the same loads, and no store is kept.

ghost use Rattle.std.specs.Prelude.{map, string_bytes};
ghost use Rattle.chart_store.specs.Loaded.{nothing_held};
ghost use Rattle.chart_picture.specs.Fetching.{IsFetched, IsRead};
ghost use Rattle.chart_picture.specs.Files.{IsLoadEnd, load_of, loads_from, taken_as};

use crate::run::end::{End, Place};
use crate::run::fault::FileFault;
use crate::run::files::{fetch_file, refused};
use chart_model::Octets;
use chart_ports::{Shelf, Steps};
use chart_store::{FILE_LIMIT, LiveCells, TakeFault};
use session_core::LineRefusal;
use std::alloc::Global;
use std::sync::ledger::Ledger;

/// How the run ends at the file of this place and name, which isn't loaded.
fn load_end(alloc: Global, place: Place, name: &str, fault: TakeFault) -> End
    ensures { IsLoadEnd place name.now fault result }
{
    match fault {
        TakeFault::Refused(refusal) => {
            let fault = FileFault::Refused(LineRefusal::Store(refusal));
            refused(alloc, place, name, fault)
        }
        TakeFault::NoMemory => End::NoMemory,
    }
}

/// The cells that are held once a file is loaded, the one at this place and of this name.
fn take_file<C: Ledger>(
    alloc: Global,
    mut live: LiveCells,
    place: Place,
    name: &str,
    file: Octets,
    steps: &mut Steps<C>,
) -> Result<LiveCells, End>
    ensures { IsRead result (taken_as place name.now live file) }
{
    match live.load(alloc, file, steps) {
        Ok(_) => Ok(live),
        Err(fault) => Err(load_end(alloc, place, name, fault)),
    }
}

/// The cells that are held once the cell file of this number and name is loaded.
fn load_file<L: Shelf, C: Ledger>(
    alloc: Global,
    live: LiveCells,
    number: u64,
    name: &str,
    shelf: &mut L,
    steps: &mut Steps<C>,
) -> Result<LiveCells, End>
    ensures { IsFetched L.tells L.files L.faults shelf.old shelf.new result
        (λ files. load_of files live number name.now) }
{
    let place = Place::Cell(number);
    let file = fetch_file(alloc, place, name, FILE_LIMIT, shelf)?;
    take_file(alloc, live, place, name, file, steps)
}

/// The cells that are held once the files of these names are loaded in order, each of which is there and accepted.
pub fn load_files<L: Shelf, C: Ledger>(
    alloc: Global,
    names: &[String],
    shelf: &mut L,
    steps: &mut Steps<C>,
) -> Result<LiveCells, End>
    ensures { IsFetched L.tells L.files L.faults shelf.old shelf.new result
        (λ files. loads_from files nothing_held 1 (map string_bytes names.now)) }
{
    let mut live = LiveCells::new(alloc);
    let mut number = 0;
    for name in names {
        number += 1;
        live = load_file(alloc, live, number, name.as_str(), shelf, steps)?;
    }
    Ok(live)
}
