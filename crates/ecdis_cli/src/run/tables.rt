//! The object catalogue and the lookup table, fetched and read.
//!
//! The table names classes and attributes by their acronyms, so the catalogue with their codes is read before it. The
//! table keeps the codes, and the catalogue is let go when it is read. Each file has at most 1,048,576 bytes.

ghost use Rattle.std.specs.Prelude.{◌≡◌, ◌≤◌, IsTrue, IfErr, IsErrOf};
ghost use Rattle.chart_ports.specs.Count.{Rose};
ghost use Rattle.chart_ports.specs.Fetched.{fetched_of};
ghost use Rattle.command_words.specs.Reading.{value_of};
ghost use Rattle.session_core.specs.Fetch.{KeepsShelf};
ghost use Rattle.ecdis_cli.specs.FileStop.{EndsAtFile, Gives, GivesTable};
ghost use Rattle.ecdis_cli.specs.Tables.{TABLES_LIMIT, bytes_in, catalogue_by, in_file, lines_by, table_in};

use crate::run::file_stop::FileStop;
use crate::run::status::Status;
use crate::run::tables_fault::TablesFault;
use chart_ports::{Fetched, FileBytes, Shelf};
use command_words::Words;
use lookup_table::{Table, read_table};
use object_catalogue::{Catalogue, read_objects};
use std::alloc::Global;

/// The most bytes of either file.
const LIMIT: u64 = 1_048_576;

/// The bytes of the file of this name.
fn fetch_file<L: Shelf>(alloc: Global, name: &str, shelf: &mut L) -> Result<FileBytes, FileStop>
    ensures found { IsTrue L.tells → Gives result (bytes_in (fetched_of TABLES_LIMIT (L.files shelf.old name.now))) }
    ensures failed { IsErrOf result FileStop.ShelfFault → Rose (L.faults shelf.old) (L.faults shelf.new) }
    ensures keeps { KeepsShelf L.tells L.files L.faults shelf.old shelf.new }
{
    let fetched = shelf.fetch(alloc, name, LIMIT)?;
    match fetched {
        Fetched::Bytes(bytes) => Ok(bytes),
        Fetched::Absent => Err(FileStop::Fault(TablesFault::Absent)),
        Fetched::Long => Err(FileStop::Fault(TablesFault::Long)),
    }
}

/// The catalogue in the file of this name.
fn fetch_catalogue<L: Shelf>(
    alloc: Global,
    name: &str,
    shelf: &mut L,
) -> Result<Catalogue, FileStop>
    ensures found { IsTrue L.tells →
        Gives result (catalogue_by (fetched_of TABLES_LIMIT (L.files shelf.old name.now))) }
    ensures failed { IsErrOf result FileStop.ShelfFault → Rose (L.faults shelf.old) (L.faults shelf.new) }
    ensures keeps { KeepsShelf L.tells L.files L.faults shelf.old shelf.new }
{
    let file = fetch_file(alloc, name, shelf)?;
    Ok(read_objects(alloc, file.as_slice())?)
}

/// The table in the file of this name, with the codes of a catalogue.
fn fetch_table<L: Shelf>(
    alloc: Global,
    name: &str,
    catalogue: &Catalogue,
    shelf: &mut L,
) -> Result<Table, FileStop>
    ensures found { IsTrue L.tells →
        Gives result (lines_by catalogue.now (fetched_of TABLES_LIMIT (L.files shelf.old name.now))) }
    ensures failed { IsErrOf result FileStop.ShelfFault → Rose (L.faults shelf.old) (L.faults shelf.new) }
    ensures keeps { KeepsShelf L.tells L.files L.faults shelf.old shelf.new }
{
    let file = fetch_file(alloc, name, shelf)?;
    Ok(read_table(alloc, file.as_slice(), catalogue)?)
}

/// The table in the file of this name, with the codes of a catalogue, or how the run ends.
fn take_table<L: Shelf>(
    alloc: Global,
    name: &str,
    catalogue: &Catalogue,
    shelf: &mut L,
) -> Result<Table, Status>
    ensures found { IsTrue L.tells →
        GivesTable result (in_file 1 (lines_by catalogue.now (fetched_of TABLES_LIMIT (L.files shelf.old name.now)))) }
    ensures ends { IfErr result EndsAtFile }
    ensures failed { IsErrOf result Status.ShelfFault → Rose (L.faults shelf.old) (L.faults shelf.new) }
    ensures keeps { KeepsShelf L.tells L.files L.faults shelf.old shelf.new }
{
    match fetch_table(alloc, name, catalogue, shelf) {
        Ok(table) => Ok(table),
        Err(stop) => Err(Status::of_file(1, stop)),
    }
}

/// The table that the words name, read with the catalogue that they name, or how the run ends. Where the catalogue has
/// a fault the table is not fetched.
pub fn fetch_tables<L: Shelf>(alloc: Global, words: &Words, shelf: &mut L) -> Result<Table, Status>
    ensures found { IsTrue L.tells → GivesTable result (table_in (L.files shelf.old) (value_of words.now)) }
    ensures ends { IfErr result EndsAtFile }
    ensures failed { IsErrOf result Status.ShelfFault → Rose (L.faults shelf.old) (L.faults shelf.new) }
    ensures keeps { KeepsShelf L.tells L.files L.faults shelf.old shelf.new }
{
    let catalogue = match fetch_catalogue(alloc, words.catalogue.as_str(), shelf) {
        Ok(catalogue) => catalogue,
        Err(stop) => return Err(Status::of_file(0, stop)),
    };
    take_table(alloc, words.table.as_str(), &catalogue, shelf)
}
