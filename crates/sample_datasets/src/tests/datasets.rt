//! Small files, whose data sets are worked out by hand.
//!
//! A file describes the fields that its test needs, with the labels that are looked at and no others: those may be
//! absent from a descriptor. So each file is short enough to be checked by eye.

ghost use Rattle.std.specs.Prelude.{◌≡◌, ◌<◌};

mod changes;
mod headers;
mod refusals;

use chart_ports::Steps;
use iso8211_records::{FileFault, RecordFile, read_file};
use s57_subfields::tags::{DSID, DSPM, DSSI, FOID, FRID, SG3D, SGCC, VRID};
use std::alloc::Global;
use std::marker::Brand;
use std::sync::ledger::{Blank, Ledger};

/// The tags of the fields that these files describe.
const TAGS: [[u8; 4]; 8] = [DSID, DSSI, DSPM, VRID, SGCC, SG3D, FRID, FOID];

fn read_with<C: Ledger>(alloc: Global, bytes: &[u8], blank: Blank) -> Result<RecordFile, FileFault>
    requires name { blank.name ≡ C.name }
    requires parts { blank.parts ≡ C.parts }
    requires share { 0 < C.parts }
{
    let mut steps = Steps::<C>::new(blank);
    read_file(alloc, bytes, &TAGS, &mut steps)
}

/// The records of a file.
pub(crate) fn read(alloc: Global, bytes: &[u8]) -> Result<RecordFile, FileFault> {
    read_with::<Brand>(alloc, bytes, Blank::new(1))
}
