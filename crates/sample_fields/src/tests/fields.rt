//! Small files of one field, whose values are worked out by hand.
//!
//! The tables of S-57 Part 3 have a row for each field, and a file here has one such field alone, so that a wrong value
//! can be told from its neighbours'. Whole cells are the matter of other crates of tests.

ghost use Rattle.std.specs.Prelude.{◌≡◌, ◌<◌};

mod controls;
mod faults;
mod general;
mod identifiers;
mod lists;

use chart_ports::Steps;
use iso8211_records::{FileFault, RecordFile, read_file};
use std::alloc::Global;
use std::marker::Brand;
use std::sync::ledger::{Blank, Ledger};

fn read_with<C: Ledger>(
    alloc: Global,
    bytes: &[u8],
    tag: [u8; 4],
    blank: Blank,
) -> Result<RecordFile, FileFault>
    requires name { blank.name ≡ C.name }
    requires parts { blank.parts ≡ C.parts }
    requires share { 0 < C.parts }
{
    let mut steps = Steps::<C>::new(blank);
    read_file(alloc, bytes, &[tag], &mut steps)
}

/// The records of a file, with the values of the fields of one tag.
pub(crate) fn read(alloc: Global, bytes: &[u8], tag: [u8; 4]) -> Result<RecordFile, FileFault> {
    read_with::<Brand>(alloc, bytes, tag, Blank::new(1))
}
