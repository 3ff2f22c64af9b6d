//! Where a subfield stands in the descriptor of a file's field.
//!
//! A file may have its labels in any order, so a place is looked up once and then serves each record. That a label is
//! missing is told when a record is read that needs it, with that record's number.

ghost use Rattle.std.specs.Prelude.{◌≡◌, ◌<◌, ◌≤◌, Some, length, position, IfSome, IfOk};
ghost use Rattle.std.specs.Option.{option_copied};
ghost use Rattle.std.specs.Str.{bytes_eq};
ghost use Rattle.s57_subfields.specs.Answers.{Gives};
ghost use Rattle.s57_subfields.specs.Columns.{once_in};
ghost use Rattle.s57_subfields.specs.Lists.{column_fault, column_of, groups_in_fields, value_in};
ghost use Rattle.s57_subfields.specs.Places.{group_start, place_of};

use crate::column::has_bad;
use crate::fault::FieldFault;
use crate::group::Groups;
use crate::kind::Kind;
use crate::row_fields::RowFields;
use iso8211_formats::Descriptor;
use iso8211_records::Value;
use std::alloc::{AllocError, Global};

/// Where a label stands in a field's descriptor. Places are counted from 0.
#[derive(Clone, Copy, Debug, PartialEq, Eq)]
pub enum Place {
    /// The field has no descriptor, or that has no such label.
    Missing,
    /// The label is this one of those that stand once.
    Once(u8),
    /// The label is in the repeated group, so many labels behind the group's first one.
    Repeated(u8),
}

/// A subfield as it was found in the descriptor of a file's field.
#[derive(Clone, Copy, Debug, PartialEq, Eq)]
pub struct Subfield {
    pub label: [u8; 4],
    pub place: Place,
}

/// The place of the first label of this name.
fn first_place(labels: &[[u8; 4]], label: [u8; 4]) -> Option<usize>
    ensures place { result ≡ position (λ other. bytes_eq other label) labels.now }
    ensures within { IfSome result (λ at. at < length labels.now) }
{
    labels.iter().position(|other| *other == label)
}

/// Where the repeated group begins: behind the last label where nothing repeats.
pub(crate) fn group_start(descriptor: &Descriptor) -> usize
    ensures start { result ≡ group_start descriptor.now }
    ensures within { result ≤ length descriptor.now.labels }
    ensures few { length descriptor.now.labels ≤ 64 }
{
    let count = descriptor.subfield_count();
    match descriptor.repeats_from {
        Some(place) => place as usize - 1,
        None => count,
    }
}

/// Where a label stands in a descriptor.
fn place_in(descriptor: &Descriptor, label: [u8; 4]) -> Place
    ensures { result ≡ place_of (Some descriptor.now) label }
{
    let start = group_start(descriptor);
    let labels = descriptor.labels.as_slice();
    match first_place(labels, label) {
        None => Place::Missing,
        Some(at) if at < start => Place::Once(at as u8),
        Some(at) => Place::Repeated((at - start) as u8),
    }
}

impl Subfield {
    ghost use Rattle.s57_subfields.specs.Places.{subfield_of};

    /// The subfield of this label in a field's descriptor, where it has one.
    pub fn find(descriptor: Option<&Descriptor>, label: [u8; 4]) -> Subfield
        ensures { result ≡ subfield_of (option_copied descriptor.entry) label }
    {
        let place = match descriptor {
            None => Place::Missing,
            Some(descriptor) => place_in(descriptor, label),
        };
        Subfield { label, place }
    }

    /// What the subfield is read as, where it stands once: in the record's first field of the tag.
    ///
    /// # Errors
    ///
    /// `MissingField` where the descriptor or the record doesn't have it; `Value`; `NoMemory`.
    #[tactic(auto, unfolding(crate::specs::Columns::once_in))]
    pub fn once<K: Kind>(
        &self,
        alloc: Global,
        values: &RowFields<'_>,
        kind: &K,
    ) -> Result<K::Output, FieldFault>
        ensures found { Gives result (once_in (K.reads kind.now) values.now self.now) }
        ensures holds { IfOk result (K.holds kind.now) }
    {
        let Place::Once(at) = self.place else {
            return Err(values.missing_field());
        };
        let Some(first) = values.first() else {
            return Err(values.missing_field());
        };
        match first.get(at as usize) {
            Some(value) => match kind.read(alloc, value)? {
                Some(read) => Ok(read),
                None => Err(values.bad_value(self.label)),
            },
            None => Err(values.bad_value(self.label)),
        }
    }

    /// What a group's value of the subfield is read as; nothing where the subfield isn't in the repeated group,
    /// or the value isn't what it has to be.
    pub fn in_group<K: Kind>(
        &self,
        alloc: Global,
        group: &[Value],
        kind: &K,
    ) -> Result<Option<K::Output>, AllocError>
        ensures found { IfOk result (λ found. found ≡ value_in (K.reads kind.now) self.now group.now) }
        ensures holds { IfOk result (λ found. IfSome found (K.holds kind.now)) }
    {
        let Place::Repeated(distance) = self.place else {
            return Ok(None);
        };
        match group.get(distance as usize) {
            Some(value) => kind.read(alloc, value),
            None => Ok(None),
        }
    }

    /// What is wrong under the subfield in such groups: it isn't in the repeated group, or a group's value
    /// isn't what it has to be. It takes no memory.
    #[tactic(auto, unfolding(crate::specs::Lists::column_fault))]
    pub fn fault<K: Kind>(
        &self,
        groups: &Groups,
        values: &RowFields<'_>,
        kind: &K,
    ) -> Option<FieldFault>
        ensures { result ≡ column_fault values.now (groups_in_fields groups.now values.now)
            (column_of (K.reads kind.now) self.now) }
    {
        let Place::Repeated(distance) = self.place else {
            return Some(values.missing_field());
        };
        if has_bad(groups, values, kind, distance) {
            Some(values.bad_value(self.label))
        } else {
            None
        }
    }
}
