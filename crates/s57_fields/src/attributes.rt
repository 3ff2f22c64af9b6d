//! Attributes of vector records (ATTV) and of features (ATTF).
//!
//! The rows of the two are the same, under two tags.

ghost use Rattle.std.specs.Option.{option_copied};
ghost use Rattle.std.specs.Prelude.{◌≡◌, IfOk, All};
ghost use Rattle.chart_model.specs.Record.{IsPlainText};
ghost use Rattle.s57_subfields.specs.Answers.{Gives};
ghost use Rattle.s57_fields.specs.Attributes.{attv_at, attf_at};

use crate::faults::first_fault;
use crate::file::record_at;
use chart_model::{Attr, AttrList};
use iso8211_formats::Descriptor;
use iso8211_records::{RecordFile, Value};
use s57_subfields::labels::{ATTL, ATVL};
use s57_subfields::{FieldFault, Group, Groups, PlainText, RowFields, Subfield, TwoBytes, tags};
use std::alloc::{AllocError, Global};

/// A row ATTV or ATTF as it stands in a file's descriptor.
#[derive(Clone, Copy, Debug)]
pub struct AttributeRow {
    pub groups: Groups,
    pub attl: Subfield,
    pub atvl: Subfield,
}

impl Group for AttributeRow {
    ghost use Rattle.s57_fields.specs.Attributes.{attribute_in, attribute_columns};
    ghost use Rattle.s57_fields.specs.Unread.{attribute-unread};

    type Output = Attr;

    ghost reads = { attribute_in };

    ghost columns = { attribute_columns };

    ghost holds = { λ _ attr. IsPlainText attr.value };

    fn read(&self, alloc: Global, group: &[Value]) -> Result<Option<Attr>, AllocError> {
        let Some(code) = self.attl.in_group(alloc, group, &TwoBytes)? else {
            return Ok(None);
        };
        let Some(value) = self.atvl.in_group(alloc, group, &PlainText)? else {
            return Ok(None);
        };
        Ok(Some(Attr { code, value }))
    }

    fn first_fault(&self, groups: &Groups, values: &RowFields<'_>) -> Option<FieldFault> {
        first_fault!(
            self.attl.fault(groups, values, &TwoBytes),
            self.atvl.fault(groups, values, &PlainText),
        )
    }

    ghost unread = { attribute-unread };
}

impl AttributeRow {
    ghost use Rattle.s57_fields.specs.Attributes.{attribute_row, attributes_in};

    /// Finds the row in the descriptor of the file's field. It takes no memory.
    pub fn find(descriptor: Option<&Descriptor>) -> AttributeRow
        ensures { result ≡ attribute_row (option_copied descriptor.entry) }
    {
        AttributeRow {
            groups: Groups::find(descriptor),
            attl: Subfield::find(descriptor, ATTL),
            atvl: Subfield::find(descriptor, ATVL),
        }
    }

    /// Reads attributes: the empty list where the record has no such field.
    ///
    /// # Errors
    ///
    /// The first `MissingField` or `Value` by subfield in the order of the row, over all groups of all
    /// fields of the tag; `NoMemory`.
    pub fn read(&self, alloc: Global, values: &RowFields<'_>) -> Result<AttrList, FieldFault>
        ensures found { Gives result (attributes_in self.now values.now) }
        ensures plain { IfOk result (λ attrs. All (λ attr. IsPlainText attr.value) attrs) }
    {
        Ok(AttrList::from_vec(self.groups.read_list(alloc, values, self)?))
    }
}

/// Reads the attributes of a vector record: the row ATTV of this data record, counted from 1.
/// The empty list where the record has no such field.
///
/// # Errors
///
/// The first `MissingField` or `Value` in the order of the row; `NoMemory`.
pub fn read_attv(alloc: Global, file: &RecordFile, number: usize) -> Result<AttrList, FieldFault>
    ensures found { Gives result (attv_at file.now number) }
    ensures plain { IfOk result (λ attrs. All (λ attr. IsPlainText attr.value) attrs) }
{
    let row = AttributeRow::find(file.descriptors.get(&tags::ATTV));
    let values = RowFields::new(number, tags::ATTV, record_at(file, number));
    row.read(alloc, &values)
}

/// Reads the attributes of a feature record: the row ATTF of this data record, counted from 1.
/// The empty list where the record has no such field.
///
/// # Errors
///
/// The first `MissingField` or `Value` in the order of the row; `NoMemory`.
pub fn read_attf(alloc: Global, file: &RecordFile, number: usize) -> Result<AttrList, FieldFault>
    ensures found { Gives result (attf_at file.now number) }
    ensures plain { IfOk result (λ attrs. All (λ attr. IsPlainText attr.value) attrs) }
{
    let row = AttributeRow::find(file.descriptors.get(&tags::ATTF));
    let values = RowFields::new(number, tags::ATTF, record_at(file, number));
    row.read(alloc, &values)
}
