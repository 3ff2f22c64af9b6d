//! The line `info`.
//!
//! No store is asked and no chart made: of the file's fields DSID alone is looked at, and its data records are counted.
//! So a file can be looked at that couldn't be loaded, as an update of a cell that isn't held.

ghost use Rattle.std.specs.Prelude.{◌≡◌, ◌≢◌, ◌+◌, ◌≤◌, Err, IsTrue};
ghost use Rattle.session_core.specs.declared.fault.EventFault.TheVariants.{DeskFault};
ghost use Rattle.session_core.specs.Answers.{Gives};
ghost use Rattle.session_core.specs.Fetch.{AreFetched, Fetches, KeepsShelf, file_in};
ghost use Rattle.chart_store.specs.Loaded.{FILE_LIMIT as LIMIT};
ghost use Rattle.session_core.specs.Info.{info_of};
ghost use Rattle.session_core.specs.Steps.{records_of_file};

use crate::fault::EventFault;
use crate::fetch::fetch;
use chart_ports::{Shelf, Steps};
use chart_store::FILE_LIMIT;
use script_reader::{Reply, Word};
use std::alloc::Global;
use std::sync::ledger::Ledger;
use update_sequence::read_info;

/// What the file of this name says of itself, as a reply.
pub fn inform<L: Shelf, C: Ledger>(
    alloc: Global,
    name: Word,
    shelf: &mut L,
    steps: &mut Steps<C>,
) -> Result<Reply, EventFault>
    ensures found { (fetches : Fetches)
        × AreFetched L.tells (L.files shelf.old) (L.faults shelf.old) (L.faults shelf.new) fetches
        × Gives result (info_of name (fetches LIMIT name))
        × (steps.new ≤ steps.old + records_of_file (file_in LIMIT name (fetches LIMIT name))) }
    ensures desk { result ≢ Err DeskFault }
    ensures keeps { KeepsShelf L.tells L.files L.faults shelf.old shelf.new }
{
    let bytes = fetch(alloc, name, FILE_LIMIT, shelf)?;
    let info = read_info(alloc, bytes.as_slice(), steps)?;
    Ok(Reply::Info(info.key, info.edition, info.update, info.records as u64))
}
