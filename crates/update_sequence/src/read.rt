//! Cell files as data sets.
//!
//! Of a file those fields alone are decoded that a data set is made of.

ghost use Rattle.std.specs.Prelude.{◌≡◌, ◌≢◌, ◌+◌, ◌≤◌};
ghost use Rattle.iso8211_records.specs.RecordFile.{data_records_in};
ghost use Rattle.update_sequence.specs.Answers.{GivesRead};
ghost use Rattle.update_sequence.specs.Reading.{tags_read, data_set_in};

use crate::fault::ReadFault;
use chart_model::Dataset;
use chart_ports::Steps;
use iso8211_records::read_file;
use s57_records::read_dataset;
use s57_subfields::tags::{
    ATTF, ATTV, DSID, DSPM, DSSI, FFPC, FFPT, FOID, FRID, FSPC, FSPT, SG2D, SG3D, SGCC, VRID, VRPC,
    VRPT,
};
use std::alloc::Global;
use std::sync::ledger::Ledger;

/// The tags of the fields that are read.
const TAGS: [[u8; 4]; 17] = [
    DSID, DSSI, DSPM, VRID, ATTV, VRPC, VRPT, SGCC, SG2D, SG3D, FRID, FOID, ATTF, FFPC, FFPT, FSPC,
    FSPT,
];

/// Reads the data set that the bytes of a cell file are. Each data record that is come to is a step.
///
/// # Errors
///
/// The first fault of the file of records, or else of its data set; `NoMemory`.
#[tactic(auto, unfolding(crate::specs::Reading::data_set_in))]
pub fn read_data_set<C: Ledger>(
    alloc: Global,
    bytes: &[u8],
    steps: &mut Steps<C>,
) -> Result<Dataset, ReadFault>
    ensures exact { GivesRead result (data_set_in bytes.now) }
    ensures come_to { result ≢ Err ReadFault.NoMemory → steps.new ≡ steps.old + data_records_in tags_read bytes.now }
    ensures at_most { steps.new ≤ steps.old + data_records_in tags_read bytes.now }
{
    let file = read_file(alloc, bytes, &TAGS, steps)?;
    Ok(read_dataset(alloc, &file)?)
}
