//! Data records: what their fields hold.
//!
//! Values go into the draft of the whole file, so that a record takes no memory of its own.

ghost use Rattle.std.specs.Prelude.{◌≡◌, ◌+◌, ◌≤◌, ◌<◌, ◌^◌, [], length, IfOk, OnOk, Some, if◌then◌else◌};
ghost use Rattle.std.specs.List.{AllByRecursion};
ghost use Rattle.iso8211_leader.specs.Leader.{frame};
ghost use Rattle.iso8211_records.specs.Answers.{Gives, GivesBy};
ghost use Rattle.iso8211_records.specs.Spelling.{formats_in};
ghost use Rattle.iso8211_records.specs.Budget.{listed_bytes};
ghost use Rattle.iso8211_records.specs.Tags.{is_listed};
ghost use Rattle.iso8211_records.specs.Kinds.{tags_of};
ghost use Rattle.iso8211_records.specs.Record.{IsInside, field_bytes};
ghost use Rattle.iso8211_records.specs.Values.{Finds};
ghost use Rattle.iso8211_records.specs.Reading.{data_record_at, fields_of, field_by, values_by};

use crate::budget::Budget;
use crate::descriptors::DescriptorMap;
use crate::draft::RecordsDraft;
use crate::fault::{FileFault, ValuesFault};
use crate::frame::{field_in, read_frame};
use crate::wanted::Wanted;
use iso8211_formats::{Descriptor, Format};
use iso8211_leader::{Entry, Leader};
use std::alloc::Global;

/// Reads the fields of the data record that begins the bytes, which stand at the place `at` of the file, into the
/// draft, and gives how many bytes the record has. The list of entries serves each record in turn, so that it takes
/// memory once.
#[tactic(auto, unfolding(crate::specs::Reading::data_record_at))]
pub(crate) fn read_data_record(
    alloc: Global,
    bytes: &[u8],
    at: usize,
    wanted: &Wanted<'_>,
    budget: &mut Budget,
    entries: &mut Vec<Entry>,
    draft: &mut RecordsDraft,
) -> Result<usize, FileFault>
    requires low { at ≤ 2 ^ 63 }
    requires ended { (draft.old.begun ≡ []) × (draft.old.values ≡ []) }
    ensures read { GivesBy (λ size. (draft.new.begun, size)) result
        (data_record_at wanted.now.tags wanted.now.descriptors (length draft.old.records + 1) at bytes.now) }
    ensures records { OnOk result (draft.new.records ≡ draft.old.records) }
    ensures values { OnOk result (draft.new.values ≡ []) }
    ensures within { IfOk result (λ size. size ≤ length bytes.now) }
    ensures some { IfOk result (λ size. 0 < size) }
{
    let leader = read_frame(bytes, at, wanted.tags(), false, entries)?;
    let entries = entries.as_slice();
    wanted.check_described(entries)?;
    read_fields(
        alloc,
        bytes,
        wanted.descriptors(),
        budget,
        &leader,
        entries,
        draft,
    )?;
    Ok(leader.length as usize)
}

/// Reads the fields that the entries name in the data record that begins the bytes, into the draft: of those with a
/// descriptor the values, whose bytes are taken from the budget.
fn read_fields(
    alloc: Global,
    bytes: &[u8],
    descriptors: &DescriptorMap,
    budget: &mut Budget,
    leader: &Leader,
    entries: &[Entry],
    draft: &mut RecordsDraft,
) -> Result<(), FileFault>
    requires whole { leader.now.length ≤ length bytes.now }
    requires inside { AllByRecursion (IsInside (frame leader.now)) entries.now }
    requires ended { (draft.old.begun ≡ []) × (draft.old.values ≡ []) }
    ensures read { GivesBy (λ _. draft.new.begun) result (fields_of (tags_of descriptors.now) descriptors.now
        (length draft.old.records + 1) (frame leader.now) bytes.now entries.now) }
    ensures records { OnOk result (draft.new.records ≡ draft.old.records) }
    ensures values { OnOk result (draft.new.values ≡ []) }
    ensures taken { IfOk result (λ _. budget.new + listed_bytes (tags_of descriptors.now) entries.now ≡ budget.old) }
{
    let number = draft.len() + 1;
    for entry in entries {
        let field = field_in(bytes, leader, entry);
        read_field(alloc, field, number, descriptors, budget, entry.tag, draft)?;
        draft.end_field(entry.tag)?;
    }
    Ok(())
}

/// Reads the values of the field with this tag of the data record of this number, into the draft.
#[tactic(auto, unfolding(crate::specs::Reading::field_by))]
fn read_field(
    alloc: Global,
    field: &[u8],
    number: usize,
    descriptors: &DescriptorMap,
    budget: &mut Budget,
    tag: [u8; 4],
    draft: &mut RecordsDraft,
) -> Result<(), FileFault>
    requires ended { draft.old.values ≡ [] }
    ensures read { GivesBy (λ _. record { tag = tag; values = draft.new.values }) result
        (field_by (tags_of descriptors.now) descriptors.now number tag field.now) }
    ensures records { OnOk result (draft.new.records ≡ draft.old.records) }
    ensures begun { OnOk result (draft.new.begun ≡ draft.old.begun) }
    ensures taken { IfOk result (λ _.
        budget.new + (if is_listed (tags_of descriptors.now) tag then length field.now else 0) ≡ budget.old) }
{
    let Some(descriptor) = descriptors.get(&tag) else {
        return Ok(());
    };
    match read_by(alloc, field, descriptor, budget, draft) {
        Ok(()) => Ok(()),
        Err(ValuesFault::Unspelled) => Err(FileFault::Subfield(number, tag)),
        Err(ValuesFault::NoMemory) => Err(FileFault::NoMemory),
    }
}

/// Reads the values of a field by its descriptor into the draft, and takes its bytes from the budget.
#[tactic(auto, unfolding(crate::specs::Reading::values_by))]
fn read_by(
    alloc: Global,
    field: &[u8],
    descriptor: &Descriptor,
    budget: &mut Budget,
    draft: &mut RecordsDraft,
) -> Result<(), ValuesFault>
    requires ended { draft.old.values ≡ [] }
    ensures read { Finds (λ _. draft.new.values) result (values_by (Some descriptor.now) field.now) }
    ensures records { OnOk result (draft.new.records ≡ draft.old.records) }
    ensures begun { OnOk result (draft.new.begun ≡ draft.old.begun) }
    ensures taken { IfOk result (λ _. budget.new + length field.now ≡ budget.old) }
{
    budget.take(field.len())?;
    let text = match field {
        [text @ .., _] => text,
        [] => field,
    };
    let (once, group) = formats_of(descriptor);
    draft.read_values(alloc, text, once, group)
}

/// The formats of the subfields that stand once, and those of the group.
fn formats_of(descriptor: &Descriptor) -> (&[Format], &[Format])
    ensures { record { once = result.0.now; group = result.1.now } ≡ formats_in descriptor.now }
{
    let formats = descriptor.formats.as_slice();
    match descriptor.repeats_from {
        Some(first) => formats.split_at(first as usize - 1),
        None => (formats, &[]),
    }
}
