//! The data descriptive record: how the fields of a file are spelled.
//!
//! A file may describe fields that nobody asks for, in ways that aren't read here. So only descriptors under a tag of
//! the list are read, and the first of each; the others may be any bytes.

ghost use Rattle.std.specs.Prelude.{◌≡◌, ◌≤◌, ◌&&◌, [], length, not, is_some};
ghost use Rattle.std.specs.List.{AllByRecursion};
ghost use Rattle.iso8211_leader.specs.Leader.{frame};
ghost use Rattle.iso8211_formats.specs.Reading.{descriptor_of};
ghost use Rattle.iso8211_records.specs.Answers.{Gives, GivesBy};
ghost use Rattle.iso8211_records.specs.Tags.{is_listed};
ghost use Rattle.iso8211_records.specs.Kinds.{layout_at};
ghost use Rattle.iso8211_records.specs.Record.{IsInside, describing_entries};
ghost use Rattle.chart_model.specs.Answers.{or_fault};
ghost use Rattle.iso8211_records.specs.Reading.{descriptors_in, descriptive_record_at};

use crate::descriptors::DescriptorMap;
use crate::fault::FileFault;
use crate::frame::{field_in, is_in_list, read_frame};
use iso8211_formats::{Descriptor, read_descriptor};
use iso8211_leader::{Entry, Leader};
use std::alloc::Global;

/// Reads the data descriptive record that begins the file: the descriptors of the tags of the list, and
/// the bytes after it.
#[tactic(auto, unfolding(crate::specs::Reading::descriptive_record_at))]
pub(crate) fn read_descriptive_record<'a>(
    alloc: Global,
    bytes: &'a [u8],
    tags: &[[u8; 4]],
) -> Result<(DescriptorMap, &'a [u8]), FileFault>
    ensures { GivesBy (λ read. (read.0, read.1.now)) result (descriptive_record_at tags.now bytes.now) }
{
    let mut entries = Vec::new(alloc);
    let leader = read_frame(bytes, 0, tags, true, &mut entries)?;
    let descriptors = read_descriptors(alloc, bytes, tags, &leader, entries.as_slice())?;
    let (_, rest) = bytes.split_at(leader.length as usize);
    Ok((descriptors, rest))
}

/// Reads the descriptors of the fields with a tag of the list, of each tag the first.
fn read_descriptors(
    alloc: Global,
    bytes: &[u8],
    tags: &[[u8; 4]],
    leader: &Leader,
    entries: &[Entry],
) -> Result<DescriptorMap, FileFault>
    requires whole { leader.now.length ≤ length bytes.now }
    requires inside { AllByRecursion (IsInside (frame leader.now)) entries.now }
    ensures { Gives result (descriptors_in (frame leader.now) bytes.now (describing_entries tags.now [] entries.now)) }
{
    let mut descriptors = DescriptorMap::new(alloc);
    for entry in entries {
        if !is_new(tags, &descriptors, &entry.tag) {
            continue;
        }
        let field = field_in(bytes, leader, entry);
        let descriptor = describe(field, entry.tag)?;
        descriptors.push(entry.tag, descriptor)?;
    }
    Ok(descriptors)
}

/// Whether the tag is one of the list, and there is no descriptor under it.
fn is_new(tags: &[[u8; 4]], descriptors: &DescriptorMap, tag: &[u8; 4]) -> bool
    ensures { result ≡ (is_listed tags.now tag.now && not (is_some (layout_at descriptors.now tag.now))) }
{
    is_in_list(tags, tag) && !descriptors.contains(tag)
}

/// The descriptor that a field with this tag spells.
fn describe(field: &[u8], tag: [u8; 4]) -> Result<Descriptor, FileFault>
    ensures { result ≡ or_fault (FileFault.Descriptor tag) (descriptor_of field.now) }
{
    match read_descriptor(field) {
        Ok(descriptor) => Ok(descriptor),
        Err(_) => Err(FileFault::Descriptor(tag)),
    }
}
