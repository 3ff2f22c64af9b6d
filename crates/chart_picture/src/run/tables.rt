//! The object catalogue, the lookup table and the colours, fetched and read.
//!
//! The table names classes and attributes by their acronyms, so the catalogue with their codes is read before it. Each
//! file has at most 1,048,576 bytes.

ghost use Rattle.std.specs.Prelude.{◌≡◌};
ghost use Rattle.chart_ports.specs.Fetched.{fetched_of};
ghost use Rattle.picture_words.specs.Reading.{value_of};
ghost use Rattle.chart_picture.specs.Fetching.{IsFetched, IsRead};
ghost use Rattle.chart_picture.specs.Tables.{TABLES_LIMIT, bytes_in, catalogue_by, catalogue_of, colours_by};
ghost use Rattle.chart_picture.specs.Tables.{colours_of, end_by, fault_of_catalogue, fault_of_colours};
ghost use Rattle.chart_picture.specs.Tables.{fault_of_table, lines_by, lines_of, table_in};

use crate::run::end::End;
use crate::run::fault::TableFault;
use chart_ports::{Fetched, FileBytes, Shelf};
use colour_table::{ColourTable, ColoursFault, read_colours};
use lookup_table::{Table, TableFault as LookupFault, read_table};
use object_catalogue::{Catalogue, CatalogueFault, read_objects};
use picture_words::PictureWords;
use std::alloc::Global;

/// The most bytes of each file.
const LIMIT: u64 = 1_048_576;

/// The numbers of the files.
const CATALOGUE: u8 = 0;

const TABLE: u8 = 1;

const COLOURS: u8 = 2;

// ---- what is read

/// How the run ends at a catalogue.
fn end_of_catalogue(fault: CatalogueFault) -> End
    ensures { result ≡ end_by 0 (fault_of_catalogue fault) }
{
    match fault {
        CatalogueFault::BadLine(line) | CatalogueFault::Twice(line) => {
            End::Tables(CATALOGUE, TableFault::Line(line))
        }
        CatalogueFault::NoMemory => End::NoMemory,
    }
}

/// How the run ends at a table.
fn end_of_table(fault: LookupFault) -> End
    ensures { result ≡ end_by 1 (fault_of_table fault) }
{
    match fault {
        LookupFault::BadLine(line)
        | LookupFault::UnknownName(line)
        | LookupFault::UnknownProcedure(line) => End::Tables(TABLE, TableFault::Line(line)),
        LookupFault::NoMemory => End::NoMemory,
    }
}

/// How the run ends at colours.
fn end_of_colours(fault: ColoursFault) -> End
    ensures { result ≡ end_by 2 (fault_of_colours fault) }
{
    match fault {
        ColoursFault::BadLine(line) | ColoursFault::Twice(line) => {
            End::Tables(COLOURS, TableFault::Line(line))
        }
        ColoursFault::NoMemory => End::NoMemory,
    }
}

/// The catalogue that bytes are.
fn catalogue_of(alloc: Global, bytes: &[u8]) -> Result<Catalogue, End>
    ensures { IsRead result (catalogue_of bytes.now) }
{
    match read_objects(alloc, bytes) {
        Ok(catalogue) => Ok(catalogue),
        Err(fault) => Err(end_of_catalogue(fault)),
    }
}

/// The table that bytes are, with the codes of a catalogue.
fn lines_of(alloc: Global, catalogue: &Catalogue, bytes: &[u8]) -> Result<Table, End>
    ensures { IsRead result (lines_of catalogue.now bytes.now) }
{
    match read_table(alloc, bytes, catalogue) {
        Ok(table) => Ok(table),
        Err(fault) => Err(end_of_table(fault)),
    }
}

/// The colours that bytes are.
fn colours_of(alloc: Global, bytes: &[u8]) -> Result<ColourTable, End>
    ensures { IsRead result (colours_of bytes.now) }
{
    match read_colours(alloc, bytes) {
        Ok(colours) => Ok(colours),
        Err(fault) => Err(end_of_colours(fault)),
    }
}

// ---- what is fetched

/// The bytes that a shelf answered with for the file of this number.
fn bytes_in(which: u8, fetched: Fetched) -> Result<FileBytes, End>
    ensures { IsRead result (bytes_in which fetched) }
{
    match fetched {
        Fetched::Bytes(bytes) => Ok(bytes),
        Fetched::Absent => Err(End::Tables(which, TableFault::Absent)),
        Fetched::Long => Err(End::Tables(which, TableFault::Long)),
    }
}

/// The bytes of the file of this number, under this name.
fn fetch_bytes<L: Shelf>(
    alloc: Global,
    which: u8,
    name: &str,
    shelf: &mut L,
) -> Result<FileBytes, End>
    ensures { IsFetched L.tells L.files L.faults shelf.old shelf.new result
        (λ files. bytes_in which (fetched_of TABLES_LIMIT (files name.now))) }
{
    let fetched = shelf.fetch(alloc, name, LIMIT)?;
    bytes_in(which, fetched)
}

/// The catalogue in the file of this name.
fn fetch_catalogue<L: Shelf>(alloc: Global, name: &str, shelf: &mut L) -> Result<Catalogue, End>
    ensures { IsFetched L.tells L.files L.faults shelf.old shelf.new result
        (λ files. catalogue_by (fetched_of TABLES_LIMIT (files name.now))) }
{
    let file = fetch_bytes(alloc, CATALOGUE, name, shelf)?;
    catalogue_of(alloc, file.as_slice())
}

/// The table in the file of this name, with the codes of a catalogue.
fn fetch_lines<L: Shelf>(
    alloc: Global,
    name: &str,
    catalogue: &Catalogue,
    shelf: &mut L,
) -> Result<Table, End>
    ensures { IsFetched L.tells L.files L.faults shelf.old shelf.new result
        (λ files. lines_by catalogue.now (fetched_of TABLES_LIMIT (files name.now))) }
{
    let file = fetch_bytes(alloc, TABLE, name, shelf)?;
    lines_of(alloc, catalogue, file.as_slice())
}

/// The table that the words name, with the codes of the catalogue that they name. Where the catalogue has a fault the
/// table is not fetched.
pub fn fetch_table<L: Shelf>(
    alloc: Global,
    words: &PictureWords,
    shelf: &mut L,
) -> Result<Table, End>
    ensures { IsFetched L.tells L.files L.faults shelf.old shelf.new result
        (λ files. table_in files (value_of words.now)) }
{
    let catalogue = fetch_catalogue(alloc, words.catalogue.as_str(), shelf)?;
    fetch_lines(alloc, words.table.as_str(), &catalogue, shelf)
}

/// The colours in the file of this name.
pub fn fetch_colours<L: Shelf>(alloc: Global, name: &str, shelf: &mut L) -> Result<ColourTable, End>
    ensures { IsFetched L.tells L.files L.faults shelf.old shelf.new result
        (λ files. colours_by (fetched_of TABLES_LIMIT (files name.now))) }
{
    let file = fetch_bytes(alloc, COLOURS, name, shelf)?;
    colours_of(alloc, file.as_slice())
}
