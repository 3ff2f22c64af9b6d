//! The data set of a file.
//!
//! Records are read one by one, and the first fault ends it; an update that cancels its cell is read no further than
//! its first record.

ghost use Rattle.std.specs.Prelude.{◌≡◌, Ok};
ghost use Rattle.chart_model.specs.Key.{IsKey};
ghost use Rattle.iso8211_records.specs.Kinds.{layout_at};
ghost use Rattle.s57_records.specs.Answers.{Gives};
ghost use Rattle.s57_records.specs.Dataset.{kind_of, header_with, cancels, dataset_of};
ghost use Rattle.s57_records.specs.Gathering.{with_record, gather, nothing_gathered, needed_scale, dataset_gathered};
ghost use Rattle.s57_records.specs.Rows.{general_of};
ghost use Rattle.s57_records.specs.RecordReading.{subfields_in};
ghost use Rattle.s57_records.specs.LayoutReadings.{all_subfields};

use crate::fault::DatasetFault;
use crate::feature::read_feature;
use crate::general::{General, check_structure, read_general, read_scale};
use crate::reader::DataRecord;
use crate::rows::Rows;
use crate::vector::read_vector;
use chart_model::{ChangeList, Dataset, Header};
use iso8211_records::{RawRecord, RecordFile};
use s57_subfields::tags::{DSID, DSPM, FRID, VRID};
use std::alloc::Global;

/// What is gathered from the records after the first.
#[derive(Debug, Drop)]
pub(crate) struct Gathered {
    /// The first scale of a base file.
    pub scale: Option<u32>,
    pub changes: ChangeList,
}

/// Gathers what one record says.
#[tactic(auto, unfolding(crate::specs::Gathering::with_record))]
fn gather_with(
    alloc: Global,
    fields: &DataRecord<'_>,
    base: bool,
    gathered: Gathered,
) -> Result<Gathered, DatasetFault>
    ensures { let read = subfields_in fields.now in
        Gives result (with_record base fields.now.number read (kind_of read) gathered) }
{
    if fields.has(DSID) {
        return Ok(gathered);
    }
    let Gathered { scale, mut changes } = gathered;
    if fields.has(DSPM) {
        if base && scale.is_none() {
            let scale = Some(read_scale(alloc, fields)?);
            return Ok(Gathered { scale, changes });
        }
    } else if fields.has(VRID) {
        let change = read_vector(alloc, fields, base)?;
        changes.push(change)?;
    } else if fields.has(FRID) {
        let change = read_feature(alloc, fields, base)?;
        changes.push(change)?;
    }
    Ok(Gathered { scale, changes })
}

/// Gathers what the records after the first say.
fn gather_all<'a>(
    alloc: Global,
    rows: &'a Rows<'a>,
    records: &'a [RawRecord],
    base: bool,
) -> Result<Gathered, DatasetFault>
    ensures { Gives result (gather base 2 (all_subfields (layout_at rows.now) 2 records.now) nothing_gathered) }
{
    // No record stands for more than one change.
    let changes = Vec::with_capacity(alloc, records.len())?;
    let mut gathered = Gathered {
        scale: None,
        changes: ChangeList::from_vec(changes),
    };
    let mut number = 1;
    let mut rest = records;
    while let Some((first, after)) = rest.split_first() {
        number += 1;
        let fields = DataRecord {
            rows,
            number,
            fields: first.as_slice(),
        };
        gathered = gather_with(alloc, &fields, base, gathered)?;
        rest = after;
    }
    Ok(gathered)
}

/// The scale of a base file, which needs one, and 0 for an update.
fn scale_or_fault(base: bool, scale: Option<u32>) -> Result<u32, DatasetFault>
    ensures { result ≡ needed_scale base scale }
{
    if !base {
        return Ok(0);
    }
    match scale {
        Some(scale) => Ok(scale),
        None => Err(DatasetFault::Profile(DSPM)),
    }
}

/// The header of a data set.
fn header_of(general: &General, scale: u32) -> Header
    ensures { result ≡ header_with general.now scale }
{
    Header {
        key: general.key,
        edition: general.edition,
        update: general.update,
        issued: general.issued,
        agency: general.agency,
        scale,
    }
}

/// Whether an update cancels its cell.
fn is_cancelling(general: &General) -> bool
    ensures { result ≡ cancels general.now }
{
    !general.base && general.edition == 0
}

/// The data set with this general information. The records are looked at unless the file cancels its
/// cell.
#[tactic(auto, unfolding(crate::specs::Gathering::dataset_gathered))]
fn read_after<'a>(
    alloc: Global,
    general: &General,
    first: &DataRecord<'a>,
    rest: &'a [RawRecord],
) -> Result<Dataset, DatasetFault>
    requires read { general_of (subfields_in first.now) ≡ Ok general.now }
    requires key { IsKey general.now.key }
    ensures { Gives result (dataset_gathered general.now (subfields_in first.now)
        (all_subfields (layout_at first.now.rows.now) 2 rest.now)) }
{
    if is_cancelling(general) {
        return Ok(Dataset {
            header: header_of(general, 0),
            base: false,
            cancels: true,
            changes: ChangeList::new(alloc),
        });
    }
    check_structure(alloc, first)?;
    let gathered = gather_all(alloc, first.rows, rest, general.base)?;
    let scale = scale_or_fault(general.base, gathered.scale)?;
    Ok(Dataset {
        header: header_of(general, scale),
        base: general.base,
        cancels: false,
        changes: gathered.changes,
    })
}

/// Reads the data set that the records of a file are.
///
/// # Errors
///
/// The first fault by record, then by field, then by subfield; `NoMemory`.
#[tactic(auto, unfolding(crate::specs::Dataset::dataset_of))]
pub fn read_dataset(alloc: Global, file: &RecordFile) -> Result<Dataset, DatasetFault>
    ensures { Gives result (dataset_of (all_subfields (layout_at file.now.descriptors) 1 file.now.records)) }
{
    let Some((first, rest)) = file.records.as_slice().split_first() else {
        return Err(DatasetFault::NoGeneral);
    };
    let rows = Rows::find(&file.descriptors);
    let fields = DataRecord {
        rows: &rows,
        number: 1,
        fields: first.as_slice(),
    };
    if !fields.has(DSID) {
        return Err(DatasetFault::NoGeneral);
    }
    let general = read_general(alloc, &fields)?;
    read_after(alloc, &general, &fields, rest)
}
