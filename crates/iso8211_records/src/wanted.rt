//! Which fields of data records are read.
//!
//! Only fields with a tag that is asked for are read; of the others nothing but the place is looked at.

ghost use Rattle.std.specs.Prelude.{◌≡◌, not, IfOk};
ghost use Rattle.iso8211_records.specs.Answers.{Gives};
ghost use Rattle.iso8211_records.specs.Tags.{is_listed};
ghost use Rattle.iso8211_records.specs.Kinds.{AreListed};
ghost use Rattle.iso8211_records.specs.Reading.{first_without, is_described, tags_without_descriptor};
ghost use Rattle.iso8211_records.specs.Reading.{unless_undescribed};

use crate::descriptors::DescriptorMap;
use crate::fault::FileFault;
use crate::frame::is_in_list;
use iso8211_leader::Entry;
use std::alloc::{AllocError, Global};
use std::marker::Model;

/// The fields that are wanted of each data record: those with a tag of a list, as the file's descriptors have them.
///
/// Contracts see the tags of the list, and the tags and layouts of the descriptors.
#[derive(Drop)]
pub(crate) struct Wanted<'a> {
    tags: &'a [[u8; 4]],
    descriptors: &'a DescriptorMap,
    /// The tags of the list that have no descriptor, found once for all of the file's records.
    missing: Vec<[u8; 4]>,
}

impl<'a> Model for Wanted<'a> {
    ghost use Rattle.std.specs.Prelude.{◌≡◌};
    ghost use Rattle.iso8211_records.specs.Kinds.{AreListed};
    ghost use Rattle.iso8211_records.specs.Reading.{tags_without_descriptor};
    ghost use Rattle.iso8211_records.specs.Wanted.{WantedValue};

    ghost Value = { WantedValue };

    ghost view = { λ wanted. record { tags = wanted.tags.now; descriptors = wanted.descriptors.now } };

    ghost invariant = { λ wanted. AreListed wanted.tags.now wanted.descriptors.now
        × (wanted.missing.items ≡ tags_without_descriptor wanted.tags.now wanted.descriptors.now) };
}

impl<'a> Wanted<'a> {
    /// The fields with a tag of the list, which each descriptor's tag is one of.
    pub(crate) fn of(
        alloc: Global,
        tags: &'a [[u8; 4]],
        descriptors: &'a DescriptorMap,
    ) -> Result<Wanted<'a>, AllocError>
        requires { AreListed tags.now descriptors.now }
        ensures { IfOk result (λ wanted. wanted ≡ record { tags = tags.now; descriptors = descriptors.now }) }
    {
        Ok(Wanted {
            tags,
            descriptors,
            missing: undescribed_tags(alloc, tags, descriptors)?,
        })
    }

    /// The tags of the list.
    pub(crate) fn tags(&self) -> &'a [[u8; 4]]
        ensures { result.now ≡ self.now.tags }
    {
        self.tags
    }

    /// The descriptors of the file.
    pub(crate) fn descriptors(&self) -> &'a DescriptorMap
        ensures same { result.now ≡ self.now.descriptors }
        ensures listed { AreListed self.now.tags result.now }
    {
        self.descriptors
    }

    /// Checks that each field with a tag of the list has a descriptor.
    pub(crate) fn check_described(&self, entries: &[Entry]) -> Result<(), FileFault>
        ensures { Gives result (unless_undescribed
            (first_without (is_described self.now.tags self.now.descriptors) entries.now)) }
    {
        check_without(self.missing.as_slice(), entries)
    }
}

/// Checks that no field has one of the tags, which have no descriptor.
fn check_without(tags: &[[u8; 4]], entries: &[Entry]) -> Result<(), FileFault>
    ensures { Gives result (unless_undescribed
        (first_without (λ entry. not (is_listed tags.now entry.tag)) entries.now)) }
{
    for entry in entries {
        if is_in_list(tags, &entry.tag) {
            return Err(FileFault::Descriptor(entry.tag));
        }
    }
    Ok(())
}

/// The tags of the list under which there is no descriptor.
fn undescribed_tags(
    alloc: Global,
    tags: &[[u8; 4]],
    descriptors: &DescriptorMap,
) -> Result<Vec<[u8; 4]>, AllocError>
    ensures { IfOk result (λ found. found.items ≡ tags_without_descriptor tags.now descriptors.now) }
{
    let mut found = Vec::new(alloc);
    for tag in tags {
        if !descriptors.contains(tag) {
            found.push(*tag)?;
        }
    }
    Ok(found)
}
