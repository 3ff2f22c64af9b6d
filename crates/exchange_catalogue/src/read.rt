//! The catalogue of an exchange set, read.
//!
//! A catalogue may have records without the field CATD, as its first one, which describes the set; they list no file.

ghost use Rattle.std.specs.Prelude.{◌≡◌, ◌≢◌, ◌+◌, ◌≤◌, ◌<◌, ◌^◌, length};
ghost use Rattle.iso8211_records.specs.RecordFile.{data_records_in};
ghost use Rattle.s57_subfields.specs.Answers.{Gives};
ghost use Rattle.exchange_catalogue.specs.Answers.{GivesCatalogue};
ghost use Rattle.exchange_catalogue.specs.Entries.{entries_of};
ghost use Rattle.exchange_catalogue.specs.Catalogue.{tags_read, catalogue_in};

use crate::entry::{Entry, EntryList};
use crate::fault::CatalogueFault;
use crate::row::{CATD, CatdRow};
use chart_ports::Steps;
use iso8211_records::{RecordFile, read_file};
use s57_subfields::{FieldFault, RowFields};
use std::alloc::Global;
use std::sync::ledger::Ledger;

/// The entries of a file's data records: of each the first field CATD, where it has one.
fn read_entries(alloc: Global, file: &RecordFile) -> Result<EntryList, FieldFault>
    requires { length file.now.records < 2 ^ 32 }
    ensures { Gives result (entries_of file.now) }
{
    let row = CatdRow::find(file.descriptors.get(&CATD));
    let records = file.records.as_slice();
    let mut entries: Vec<Entry> = Vec::new(alloc);
    for (index, fields) in records.iter().enumerate() {
        let values = RowFields::new(index + 1, CATD, fields.as_slice());
        if !values.is_empty() {
            entries.push(row.read(alloc, &values)?)?;
        }
    }
    Ok(EntryList::from_vec(entries))
}

/// Reads the catalogue that the bytes of a file are: an entry for each data record with a field CATD. Each data record
/// that is come to is a step.
///
/// # Errors
///
/// The first fault of the file of records, or else of its entries; `NoMemory`.
#[tactic(auto, unfolding(crate::specs::Catalogue::catalogue_in))]
pub fn read_catalogue<C: Ledger>(
    alloc: Global,
    bytes: &[u8],
    steps: &mut Steps<C>,
) -> Result<EntryList, CatalogueFault>
    requires { length bytes.now ≤ 8388608 }
    ensures exact { GivesCatalogue result (catalogue_in bytes.now) }
    ensures come_to { result ≢ Err CatalogueFault.NoMemory
        → steps.new ≡ steps.old + data_records_in tags_read bytes.now }
    ensures at_most { steps.new ≤ steps.old + data_records_in tags_read bytes.now }
{
    let file = read_file(alloc, bytes, &[CATD], steps)?;
    Ok(read_entries(alloc, &file)?)
}
