//! Files by their names.
//!
//! A file that is absent or too long and a shelf that fails are refusals, so that a script goes on after them. The
//! limit is the line's: a route's file may have 65,536 bytes, a cell's 8,388,608.

ghost use Rattle.std.specs.Prelude.{◌≡◌, ◌≢◌, ◌≤◌, Some, Err, IsTrue};
ghost use Rattle.session_core.specs.declared.fault.EventFault.TheVariants.{DeskFault};
ghost use Rattle.session_core.specs.Answers.{Gives};
ghost use Rattle.session_core.specs.Fetch.{AreFetched, Fetches, KeepsShelf, file_in};

use crate::fault::EventFault;
use crate::refusal::LineRefusal;
use chart_model::Octets;
use chart_ports::{Fetched, Shelf};
use chart_store::Refusal as StoreRefusal;
use script_reader::Word;
use std::alloc::Global;

/// The bytes of the file that a shelf answered with, of at most so many.
fn file_in(name: Word, limit: u64, fetched: Fetched) -> Result<Octets, EventFault>
    ensures given { Gives result (file_in limit name (Some fetched)) }
    ensures desk { result ≢ Err DeskFault }
{
    match fetched {
        Fetched::Bytes(bytes) => Ok(Octets::from_vec(bytes.into_vec())),
        Fetched::Absent => Err(EventFault::Refused(LineRefusal::NoFile(name))),
        Fetched::Long => {
            let refusal = StoreRefusal::FileLong(limit);
            Err(EventFault::Refused(LineRefusal::Store(refusal)))
        }
    }
}

/// The file of this name, where it has at most so many bytes.
pub fn fetch<L: Shelf>(
    alloc: Global,
    name: Word,
    limit: u64,
    shelf: &mut L,
) -> Result<Octets, EventFault>
    ensures found { (fetches : Fetches)
        × AreFetched L.tells (L.files shelf.old) (L.faults shelf.old) (L.faults shelf.new) fetches
        × Gives result (file_in limit name (fetches limit name)) }
    ensures desk { result ≢ Err DeskFault }
    ensures keeps { KeepsShelf L.tells L.files L.faults shelf.old shelf.new }
{
    let fetched = shelf.fetch(alloc, name.as_str(), limit)?;
    file_in(name, limit, fetched)
}
