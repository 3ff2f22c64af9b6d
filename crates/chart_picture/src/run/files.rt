//! Cell files and routes, fetched.

ghost use Rattle.chart_ports.specs.Fetched.{fetched_of};
ghost use Rattle.chart_picture.specs.Fetching.{IsFetched, IsRead};
ghost use Rattle.chart_picture.specs.Files.{IsRefusedAs, file_in};

use crate::run::end::{End, Place};
use crate::run::fault::FileFault;
use chart_model::Octets;
use chart_ports::{Fetched, Shelf};
use chart_store::Refusal;
use session_core::LineRefusal;
use std::alloc::{AllocError, Global};

/// How the run ends where the file at this place and of this name has a fault.
pub fn refused(alloc: Global, place: Place, name: &str, fault: FileFault) -> End
    ensures { IsRefusedAs place name.now fault result }
{
    match Octets::from_slice(alloc, name.as_bytes()) {
        Ok(name) => End::File(place, name, fault),
        Err(AllocError) => End::NoMemory,
    }
}

/// The bytes that a shelf answered with for the file at this place and of this name, of at most so many.
fn file_in(
    alloc: Global,
    place: Place,
    name: &str,
    limit: u64,
    fetched: Fetched,
) -> Result<Octets, End>
    ensures { IsRead result (file_in place name.now limit fetched) }
{
    match fetched {
        Fetched::Bytes(bytes) => Ok(Octets::from_vec(bytes.into_vec())),
        Fetched::Absent => Err(refused(alloc, place, name, FileFault::Absent)),
        Fetched::Long => {
            let refusal = LineRefusal::Store(Refusal::FileLong(limit));
            Err(refused(alloc, place, name, FileFault::Refused(refusal)))
        }
    }
}

/// The bytes of the file at this place and of this name, which has at most so many.
pub fn fetch_file<L: Shelf>(
    alloc: Global,
    place: Place,
    name: &str,
    limit: u64,
    shelf: &mut L,
) -> Result<Octets, End>
    ensures { IsFetched L.tells L.files L.faults shelf.old shelf.new result
        (λ files. file_in place name.now limit (fetched_of limit (files name.now))) }
{
    let fetched = shelf.fetch(alloc, name, limit)?;
    file_in(alloc, place, name, limit, fetched)
}
