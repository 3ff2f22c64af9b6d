//! A file of records.
//!
//! What is read is stated by the standard's rule (`IsRecordFile`) and by a function on lists, which the loops
//! follow; `laws` ties the two.

ghost use Rattle.std.specs.Prelude.{◌≡◌, ◌≢◌, ◌⊎◌, ◌+◌, ◌≤◌, ◌^◌, ℕ, Ok, Err, IfOk, IfErr, length};
ghost use Rattle.iso8211_records.specs.declared.fault.FileFault.{FileFault as FaultOfFile};
ghost use Rattle.iso8211_records.specs.FileValue.{FileValue};
ghost use Rattle.iso8211_records.specs.Answers.{Gives};
ghost use Rattle.iso8211_records.specs.Reading.{data_records_at, come_to};
ghost use Rattle.iso8211_records.specs.RecordFile.{IsRecordFile, record_file_of, data_records_in};
ghost use Rattle.iso8211_records.specs.Fault.{HasFault};

use crate::budget::Budget;
use crate::data::read_data_record;
use crate::descriptive::read_descriptive_record;
use crate::draft::RecordsDraft;
use crate::fault::FileFault;
use crate::laws::{faults_each, reads_each};
use crate::record::{RawList, RecordFile};
use crate::wanted::Wanted;
use chart_ports::Steps;
use std::alloc::Global;
use std::sync::ledger::Ledger;

/// Reads a file: the descriptors of the tags of the list, its data records in order, of each its
/// fields, and of a field with a tag of the list its values. It counts a step for each data record that
/// it comes to.
///
/// # Errors
///
/// The first fault by record, and in a record in the order of `FileFault`; `NoMemory`, also where fields
/// overlap and have in all more bytes than the file and than 8,388,608.
pub fn read_file<C: Ledger>(
    alloc: Global,
    bytes: &[u8],
    tags: &[[u8; 4]],
    steps: &mut Steps<C>,
) -> Result<RecordFile, FileFault>
    // What is read is what the bytes are.
    ensures reading { IfOk result (λ file. IsRecordFile tags.now bytes.now file) }
    // What the bytes are is read, unless memory runs out.
    ensures read { (file : FileValue) → IsRecordFile tags.now bytes.now file
        → (result ≡ Ok file) ⊎ (result ≡ Err FileFault.NoMemory) }
    // What is refused has this first fault, and as many data records were come to.
    ensures fault { IfErr result (λ fault. fault ≢ FileFault.NoMemory
        → HasFault tags.now bytes.now (data_records_in tags.now bytes.now) fault) }
    // What has a first fault is refused with it, unless memory runs out.
    ensures refused { (number : ℕ) (fault : FaultOfFile) → HasFault tags.now bytes.now number fault
        → (result ≡ Err fault) ⊎ (result ≡ Err FileFault.NoMemory) }
    ensures exact { Gives result (record_file_of tags.now bytes.now) }
    ensures counted { IfOk result (λ file. steps.new ≡ steps.old + length file.records) }
    ensures come_to { result ≢ Err FileFault.NoMemory → steps.new ≡ steps.old + data_records_in tags.now bytes.now }
    ensures at_most { steps.new ≤ steps.old + data_records_in tags.now bytes.now }
{
    reads_each();
    faults_each();
    read_all(alloc, bytes, tags, steps)
}

/// Reads a file, as the function on lists has it.
#[tactic(auto, unfolding(crate::specs::RecordFile::record_file_of, crate::specs::RecordFile::data_records_in))]
fn read_all<C: Ledger>(
    alloc: Global,
    bytes: &[u8],
    tags: &[[u8; 4]],
    steps: &mut Steps<C>,
) -> Result<RecordFile, FileFault>
    ensures read { Gives result (record_file_of tags.now bytes.now) }
    ensures come_to { result ≢ Err FileFault.NoMemory → steps.new ≡ steps.old + data_records_in tags.now bytes.now }
    ensures at_most { steps.new ≤ steps.old + data_records_in tags.now bytes.now }
{
    let (descriptors, rest) = read_descriptive_record(alloc, bytes, tags)?;
    let at = bytes.len() - rest.len();
    let mut budget = Budget::of_file(bytes.len());
    let wanted = Wanted::of(alloc, tags, &descriptors)?;
    let records = read_data_records(alloc, rest, at, &wanted, &mut budget, steps)?;
    // It borrows the descriptors, which move now.
    drop(wanted);
    Ok(RecordFile {
        descriptors,
        records,
    })
}

/// Reads the wanted fields of data records up to the end of the bytes, which begin at the place `at` of the file, and
/// counts a step for each.
fn read_data_records<C: Ledger>(
    alloc: Global,
    bytes: &[u8],
    at: usize,
    wanted: &Wanted<'_>,
    budget: &mut Budget,
    steps: &mut Steps<C>,
) -> Result<RawList, FileFault>
    requires low { at + length bytes.now ≤ 2 ^ 63 }
    ensures read { Gives result
        (data_records_at (length bytes.now) wanted.now.tags wanted.now.descriptors 1 at bytes.now) }
    ensures come_to { result ≢ Err FileFault.NoMemory
        → steps.new ≡ steps.old + come_to (length bytes.now) wanted.now.tags wanted.now.descriptors 1 at bytes.now }
    ensures at_most { steps.new
        ≤ steps.old + come_to (length bytes.now) wanted.now.tags wanted.now.descriptors 1 at bytes.now }
{
    let mut draft = RecordsDraft::new(alloc);
    let mut entries = Vec::new(alloc);
    let mut place = at;
    let mut rest = bytes;
    while !rest.is_empty() {
        steps.tick();
        let length = read_data_record(
            alloc,
            rest,
            place,
            wanted,
            budget,
            &mut entries,
            &mut draft,
        )?;
        draft.end_record()?;
        place += length;
        rest = rest.split_at(length).1;
    }
    Ok(draft.finish(alloc)?)
}
