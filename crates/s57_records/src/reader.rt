//! The subfields of one data record.
//!
//! Of a record that deletes no list is looked at, whatever the file has in it. A field is found by its tag, wherever it
//! stands in the record.

ghost use Rattle.std.specs.Prelude.{◌≡◌, codes, MatchResult};
ghost use Rattle.s57_subfields.specs.Columns.{once_in};
ghost use Rattle.s57_subfields.specs.Number.{number_up_to, ONE_BYTE};
ghost use Rattle.s57_subfields.specs.RowValues.{fields_in};
ghost use Rattle.s57_records.specs.Answers.{Gives};
ghost use Rattle.s57_records.specs.LayoutReadings.{or_dataset_fault, has_field};
ghost use Rattle.s57_records.specs.Rows.{reads_as, unless_deleted};

use crate::fault::DatasetFault;
use crate::rows::Rows;
use chart_model::codes::DELETE;
use chart_model::{AttrList, Coords, Foid, Pointers, RelatedList};
use iso8211_records::RawField;
use s57_subfields::tags::{ATTF, ATTV, FFPT, FOID, FSPT, SG2D, SG3D, VRPT};
use s57_subfields::{FieldFault, OneByte, RowFields, Single};
use std::alloc::Global;

/// One data record of a file.
#[derive(Clone, Copy)]
pub(crate) struct DataRecord<'a> {
    pub rows: &'a Rows<'a>,
    /// The record's number, from 1.
    pub number: usize,
    pub fields: &'a [RawField],
}

/// Whether a number of one byte is this one.
pub(crate) fn reads_as(
    alloc: Global,
    values: &RowFields<'_>,
    single: &Single<OneByte>,
    number: u8,
) -> Result<bool, DatasetFault>
    ensures { MatchResult result
        (λ is. is ≡ reads_as (or_dataset_fault (once_in (number_up_to ONE_BYTE) values.now single.now.subfield)) number)
        (λ fault. fault ≡ DatasetFault.NoMemory) }
{
    match single.read(alloc, values) {
        Ok(read) => Ok(read == number),
        Err(FieldFault::NoMemory) => Err(DatasetFault::NoMemory),
        Err(_) => Ok(false),
    }
}

/// Whether a record has a field of this tag.
fn has_tag(fields: &[RawField], tag: [u8; 4]) -> bool
    ensures { result ≡ has_field fields.now tag }
{
    fields.iter().any(|field| field.tag == tag)
}

/// A list of a record: what its row reads in the fields of a tag, and the empty list where the record
/// deletes.
macro_rules! read_list {
    ($record:expr, $alloc:expr, $ruin:expr, $row:expr, $tag:expr, $list:ident) => {{
        if $ruin == DELETE {
            return Ok($list::new($alloc));
        }
        let read = $row.read($alloc, &$record.values($tag))?;
        Ok(read)
    }};
}

impl<'a> DataRecord<'a> {
    ghost use Rattle.s57_records.specs.RecordReading.{subfields_in};

    /// Whether the record has a field of this tag.
    pub fn has(&self, tag: [u8; 4]) -> bool
        ensures { result ≡ has_field self.now.fields.now tag }
    {
        has_tag(self.fields, tag)
    }

    /// The record's fields of this tag.
    pub fn values(&self, tag: [u8; 4]) -> RowFields<'a>
        ensures { result ≡ fields_in self.now.number tag self.now.fields.now }
    {
        RowFields::new(self.number, tag, self.fields)
    }

    /// The attributes in ATTV. None where the record deletes.
    pub fn vector_attrs(&self, alloc: Global, ruin: u8) -> Result<AttrList, DatasetFault>
        ensures { Gives result (unless_deleted ruin ((subfields_in self.now).attrs (codes "ATTV"))) }
    {
        read_list!(self, alloc, ruin, self.rows.vector().attv, ATTV, AttrList)
    }

    /// The attributes in ATTF. None where the record deletes.
    pub fn feature_attrs(&self, alloc: Global, ruin: u8) -> Result<AttrList, DatasetFault>
        ensures { Gives result (unless_deleted ruin ((subfields_in self.now).attrs (codes "ATTF"))) }
    {
        read_list!(self, alloc, ruin, self.rows.feature().attf, ATTF, AttrList)
    }

    /// The pointers in VRPT. None where the record deletes.
    pub fn vector_pointers(&self, alloc: Global, ruin: u8) -> Result<Pointers, DatasetFault>
        ensures { Gives result (unless_deleted ruin ((subfields_in self.now).pointers (codes "VRPT"))) }
    {
        read_list!(self, alloc, ruin, self.rows.vector().vrpt, VRPT, Pointers)
    }

    /// The pointers in FSPT. None where the record deletes.
    pub fn feature_pointers(&self, alloc: Global, ruin: u8) -> Result<Pointers, DatasetFault>
        ensures { Gives result (unless_deleted ruin ((subfields_in self.now).pointers (codes "FSPT"))) }
    {
        read_list!(self, alloc, ruin, self.rows.feature().fspt, FSPT, Pointers)
    }

    /// The coordinates in SG2D. None where the record deletes.
    pub fn coordinates(&self, alloc: Global, ruin: u8) -> Result<Coords, DatasetFault>
        ensures { Gives result (unless_deleted ruin ((subfields_in self.now).coords (codes "SG2D"))) }
    {
        read_list!(self, alloc, ruin, self.rows.vector().sg2d, SG2D, Coords)
    }

    /// The soundings in SG3D. None where the record deletes.
    pub fn soundings(&self, alloc: Global, ruin: u8) -> Result<Coords, DatasetFault>
        ensures { Gives result (unless_deleted ruin ((subfields_in self.now).coords (codes "SG3D"))) }
    {
        read_list!(self, alloc, ruin, self.rows.vector().sg3d, SG3D, Coords)
    }

    /// The related objects in FFPT. None where the record deletes.
    pub fn related(&self, alloc: Global, ruin: u8) -> Result<RelatedList, DatasetFault>
        ensures { Gives result (unless_deleted ruin ((subfields_in self.now).related (codes "FFPT"))) }
    {
        read_list!(
            self,
            alloc,
            ruin,
            self.rows.feature().ffpt,
            FFPT,
            RelatedList
        )
    }

    /// The identifier in FOID.
    pub fn foid(&self, alloc: Global) -> Result<Foid, DatasetFault>
        ensures { Gives result ((subfields_in self.now).foid) }
    {
        let row = &self.rows.feature().foid;
        let read = row.read(alloc, &self.values(FOID))?;
        Ok(read)
    }
}
