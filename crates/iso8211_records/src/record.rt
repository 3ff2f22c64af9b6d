//! Records as they are read: fields with their values, and lists of them.
//!
//! A field that wasn't asked for stands in its place, with its tag and without values. So which fields a record has is
//! known, whatever those are that nobody reads.

use crate::descriptors::DescriptorMap;
use crate::part::Part;
use crate::value::ValueList;
use chart_model::Sequence;
use std::marker::Model;

/// A field of a record: its tag, and its values where the tag was asked for.
#[derive(Debug, Drop)]
pub struct RawField {
    pub tag: [u8; 4],
    pub values: ValueList,
}

/// The fields of a data record, in the order of its directory.
pub type RawRecord = Part<RawField>;

/// The data records of a file, in order.
pub type RawList = Sequence<RawRecord>;

/// A file as it is read: the descriptors of the tags that were asked for, and the data records.
///
/// Where a descriptor stands under a field's tag, the field's values are those of its subfields, with
/// whole groups and with the kinds of its formats. Any other field has no values.
#[derive(Debug, Drop)]
pub struct RecordFile {
    pub descriptors: DescriptorMap,
    pub records: RawList,
}

impl Model for RecordFile {
    ghost use Rattle.iso8211_records.specs.FileValue.{FileValue, KeepsKinds};

    ghost Value = { FileValue };

    ghost view = { λ file. record { descriptors = file.descriptors; records = file.records } };

    ghost invariant = { λ file. KeepsKinds file.descriptors file.records };
}
