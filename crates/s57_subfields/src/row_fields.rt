//! The fields of one tag in a record.
//!
//! A record may have several fields of one tag. A subfield that stands once is read from the first of them, and the
//! groups of all of them are one list.

ghost use Rattle.std.specs.Prelude.{◌≡◌, is_none, filter, slice_get, option_map};
ghost use Rattle.std.specs.Option.{option_copied};
ghost use Rattle.std.specs.Str.{bytes_eq};
ghost use Rattle.s57_subfields.specs.RowValues.{fields_in, first_of, BeginsWith};
ghost use Rattle.s57_subfields.specs.Answers.{missing_field, bad_value};

use crate::fault::FieldFault;
use iso8211_records::{RawField, Value};
use std::marker::Model;

/// The fields of one tag in a data record.
///
/// Contracts see the record's number, the tag, and the values of each such field, in their order.
#[derive(Drop)]
pub struct RowFields<'a> {
    number: usize,
    tag: [u8; 4],
    /// The record's fields from the first of the tag on, so that they are searched once.
    fields: &'a [RawField],
}

impl<'a> Model for RowFields<'a> {
    ghost use Rattle.s57_subfields.specs.RowValues.{RowValues, fields_in, BeginsWith};

    ghost Value = { RowValues };

    ghost view = { λ row. fields_in row.number row.tag row.fields.now };

    ghost invariant = { λ row. BeginsWith row.tag row.fields.now };
}

/// The fields from the first of this tag on.
fn from_first(fields: &[RawField], tag: [u8; 4]) -> &[RawField]
    ensures same { filter (λ field. bytes_eq field.tag tag) result.now
        ≡ filter (λ field. bytes_eq field.tag tag) fields.now }
    ensures begins { BeginsWith tag result.now }
{
    let mut rest = fields;
    while let Some((first, after)) = rest.split_first() {
        if first.tag == tag {
            return rest;
        }
        rest = after;
    }
    rest
}

impl<'a> RowFields<'a> {
    /// The fields of this tag in the data record of this number.
    pub fn new(number: usize, tag: [u8; 4], fields: &'a [RawField]) -> RowFields<'a>
        ensures { result ≡ fields_in number tag fields.now }
    {
        RowFields {
            number,
            tag,
            fields: from_first(fields, tag),
        }
    }

    /// Whether the record has no such field.
    pub fn is_empty(&self) -> bool
        ensures { result ≡ is_none (first_of self.now.fields) }
    {
        self.first().is_none()
    }

    /// The values of the first such field.
    #[tactic(auto, using(crate::proofs::Fields::first_of_begun))]
    pub fn first(&self) -> Option<&'a [Value]>
        ensures { option_copied result ≡ first_of self.now.fields }
    {
        match self.fields.first() {
            Some(field) => Some(field.values.as_slice()),
            None => None,
        }
    }

    /// The number of the data record, from 1.
    pub fn number(&self) -> usize
        ensures { result ≡ self.now.number }
    {
        self.number
    }

    /// The tag of the fields.
    pub fn tag(&self) -> [u8; 4]
        ensures { result ≡ self.now.tag }
    {
        self.tag
    }

    /// The record's fields from the first of the tag on.
    pub fn record(&self) -> &'a [RawField]
        ensures { self.now ≡ fields_in self.now.number self.now.tag result.now }
    {
        self.fields
    }

    /// The fault of a subfield that the descriptor, or of a field that the record, doesn't have.
    pub fn missing_field(&self) -> FieldFault
        ensures { result ≡ missing_field self.now }
    {
        FieldFault::MissingField {
            record: self.number,
            tag: self.tag,
        }
    }

    /// The fault of a value under this label.
    pub fn bad_value(&self, label: [u8; 4]) -> FieldFault
        ensures { result ≡ bad_value self.now label }
    {
        FieldFault::Value {
            record: self.number,
            label,
        }
    }
}
