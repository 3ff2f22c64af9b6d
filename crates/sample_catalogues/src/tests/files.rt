//! Files of records (ISO/IEC 8211), made of the fields of their records, and what is read of them.
//!
//! Reading counts steps over a ledger, which each reading here has of its own.

ghost use Rattle.std.specs.Prelude.{◌≡◌, ◌<◌};

use chart_ports::Steps;
use exchange_catalogue::{CatalogueFault, EntryList, read_catalogue};
use std::alloc::{AllocError, Global};
use std::marker::Brand;
use std::sync::ledger::{Blank, Ledger};

/// The most bytes of a catalogue.
const MOST_BYTES: usize = 8_388_608;

/// What stands in a leader behind the record's length, and what behind the base address.
type Leader = (&'static str, &'static str);

/// The leader of a data descriptive record.
pub(crate) const DESCRIPTIVE: Leader = ("3LE1 09", " ! 5504");

/// The leader of a data record.
pub(crate) const DATA: Leader = (" D     ", "   5504");

/// A record in the making.
#[derive(Drop)]
pub(crate) struct Draft {
    directory: String,
    area: Vec<u8>,
}

impl Draft {
    /// A record without fields.
    pub(crate) fn new(alloc: Global) -> Draft {
        Draft {
            directory: String::new(alloc),
            area: Vec::new(alloc),
        }
    }

    /// Adds a field.
    pub(crate) fn put(&mut self, tag: &str, bytes: &[u8]) -> Result<(), AllocError> {
        let (length, position) = (bytes.len(), self.area.len());
        write!(self.directory, "{tag}{length:05}{position:05}")?;
        self.area.extend_from_slice(bytes)?;
        Ok(())
    }

    /// Puts the record behind the bytes.
    pub(crate) fn end(
        self,
        alloc: Global,
        out: &mut Vec<u8>,
        leader: Leader,
    ) -> Result<(), AllocError> {
        let base = self.directory.len().saturating_add(25);
        let length = base.saturating_add(self.area.len());
        let (kind, sizes) = leader;
        let head = format!(in alloc; "{length:05}{kind}{base:05}{sizes}")?;
        out.extend_from_slice(head.as_bytes())?;
        out.extend_from_slice(self.directory.as_bytes())?;
        out.push(0x1e)?;
        out.extend_from_slice(self.area.as_slice())?;
        Ok(())
    }
}

fn read_with<C: Ledger>(
    alloc: Global,
    bytes: &[u8],
    blank: Blank,
) -> Result<EntryList, CatalogueFault>
    requires name { blank.name ≡ C.name }
    requires parts { blank.parts ≡ C.parts }
    requires share { 0 < C.parts }
{
    if bytes.len() > MOST_BYTES {
        return Err(CatalogueFault::NoMemory);
    }
    let mut steps = Steps::<C>::new(blank);
    read_catalogue(alloc, bytes, &mut steps)
}

/// What the catalogue of these bytes lists.
pub(crate) fn read(alloc: Global, bytes: &[u8]) -> Result<EntryList, CatalogueFault> {
    read_with::<Brand>(alloc, bytes, Blank::new(1))
}

/// Entries as lines: the number of the record, whether the file is binary, and its path as it is listed.
pub(crate) fn written(alloc: Global, entries: &EntryList) -> Result<Vec<u8>, AllocError> {
    let mut lines = Vec::new(alloc);
    for entry in entries.as_slice() {
        let binary = if entry.binary { "binary" } else { "other" };
        let head = format!(in alloc; "{} {binary} ", entry.number)?;
        lines.extend_from_slice(head.as_bytes())?;
        lines.extend_from_slice(entry.file.as_slice())?;
        lines.push(b'\n')?;
    }
    Ok(lines)
}
