//! What a file says of itself: the numbers of its data set, from the DSID field (S-57 Part 3, 7.3.1.1).
//!
//! It is read for this one field, so that a file can be told apart without its charts.

ghost use Rattle.std.specs.Prelude.{◌≡◌, ◌+◌, ◌≤◌, IfOk};
ghost use Rattle.chart_model.specs.Key.{IsKey};
ghost use Rattle.iso8211_records.specs.RecordFile.{data_records_in};
ghost use Rattle.s57_subfields.specs.Texts.{key_in};
ghost use Rattle.s57_records.specs.Answers.{Gives};
ghost use Rattle.update_sequence.specs.Answers.{GivesRead};
ghost use Rattle.update_sequence.specs.Info.{tags_of_info, has_dsid, names_itself, dsid_of, info_of, info_in};

use crate::fault::ReadFault;
use chart_model::Key;
use chart_ports::Steps;
use iso8211_records::{RawField, RecordFile, read_file};
use s57_fields::{Dsid, read_dsid};
use s57_records::DatasetFault;
use s57_subfields::{key_of, tags};
use std::alloc::Global;
use std::sync::ledger::Ledger;

/// What a file says of itself.
#[derive(Clone, Copy, Debug)]
pub struct FileInfo {
    /// The data set's name without its extension.
    pub key: Key,
    /// The edition number.
    pub edition: u32,
    /// The update number.
    pub update: u32,
    /// How many data records the file has.
    pub records: usize,
}

/// Whether a data record has a DSID field.
fn has_dsid(fields: &[RawField]) -> bool
    ensures { result ≡ has_dsid fields.now }
{
    fields.iter().any(|field| field.tag == tags::DSID)
}

/// Whether the first data record has a DSID field.
fn names_itself(file: &RecordFile) -> bool
    ensures { result ≡ names_itself file.now }
{
    match file.records.as_slice() {
        [] => false,
        [first, ..] => has_dsid(first.as_slice()),
    }
}

/// What a file of so many data records says of itself. It takes no memory.
fn info_of(dsid: &Dsid, records: usize) -> FileInfo
    requires { IsKey (key_in dsid.now.dsnm) }
    ensures { result ≡ info_of dsid.now records }
{
    FileInfo {
        key: key_of(dsid.dsnm.as_slice()),
        edition: dsid.edtn,
        update: dsid.updn,
        records,
    }
}

/// The DSID field of the first data record.
fn read_first(alloc: Global, file: &RecordFile) -> Result<Dsid, DatasetFault>
    ensures read { Gives result (dsid_of file.now) }
    ensures key { IfOk result (λ dsid. IsKey (key_in dsid.dsnm)) }
{
    if !names_itself(file) {
        return Err(DatasetFault::NoGeneral);
    }
    Ok(read_dsid(alloc, file, 1)?)
}

/// Reads what the bytes of a file say of it. No other field is looked at, so a file whose data set has a fault may
/// still say what it is. Each data record that is come to is a step.
///
/// # Errors
///
/// The first fault of the file of records, `NoGeneral`, or else that of its DSID field; `NoMemory`.
#[tactic(auto, unfolding(crate::specs::Info::info_in))]
pub fn read_info<C: Ledger>(
    alloc: Global,
    bytes: &[u8],
    steps: &mut Steps<C>,
) -> Result<FileInfo, ReadFault>
    ensures said { GivesRead result (info_in bytes.now) }
    ensures at_most { steps.new ≤ steps.old + data_records_in tags_of_info bytes.now }
{
    let file = read_file(alloc, bytes, &[tags::DSID], steps)?;
    let dsid = read_first(alloc, &file)?;
    Ok(info_of(&dsid, file.records.as_slice().len()))
}
