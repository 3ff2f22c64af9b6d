//! Data records as they are read.
//!
//! A file has many short fields. The values of all of them stand in one list, and the fields of all records in another,
//! so that no field and no record takes memory of its own.

ghost use Rattle.std.specs.Prelude.{◌≡◌, ◌++◌, ◌∷◌, ◌<◌, ◌^◌, [], length, map, IfOk, OnOk};
ghost use Rattle.iso8211_records.specs.Draft.{AreFieldExtents, AreExtents, fields_in, part};
ghost use Rattle.iso8211_records.specs.Values.{Finds, before_all, values_of};

use crate::fault::ValuesFault;
use crate::record::{RawField, RawList, RawRecord};
use crate::value::{Value, ValueList};
use crate::values::read_values;
use iso8211_formats::Format;
use std::alloc::{AllocError, Global};
use std::marker::Model;
use std::rc::Rc;

/// Where a part of a list begins, and where it ends.
#[derive(Clone, Copy, Debug)]
pub(crate) struct Extent {
    from: usize,
    to: usize,
}

/// Data records as they are read. Contracts see the records that are ended, the fields of the one that isn't yet, and
/// the values of the field that isn't yet.
#[derive(Debug, Drop)]
pub(crate) struct RecordsDraft {
    /// The values of the fields.
    values: Vec<Value>,
    /// Each field's tag, and where its values stand.
    fields: Vec<([u8; 4], Extent)>,
    /// Where the fields of each record stand.
    records: Vec<Extent>,
    /// Where the fields of the record begin that isn't ended yet.
    fields_from: usize,
    /// Where the values of the field begin that isn't ended yet.
    values_from: usize,
}

impl Model for RecordsDraft {
    ghost use Rattle.std.specs.Prelude.{◌≤◌, length};
    ghost use Rattle.iso8211_records.specs.Draft.{AreFieldExtents, AreExtents, DraftValue, draft_value, fields_in};

    ghost Value = { DraftValue };

    ghost view = { λ draft. draft_value draft.records.items draft.fields_from
        (fields_in draft.fields.items draft.values.items) draft.values_from draft.values.items };

    ghost invariant = { λ draft. AreFieldExtents (length draft.values.items) draft.fields.items
        × AreExtents (length draft.fields.items) draft.records.items
        × (draft.fields_from ≤ length draft.fields.items)
        × (draft.values_from ≤ length draft.values.items) };
}

impl RecordsDraft {
    /// No record. It takes no memory.
    pub(crate) fn new(alloc: Global) -> RecordsDraft
        ensures records { result.records ≡ [] }
        ensures begun { result.begun ≡ [] }
        ensures values { result.values ≡ [] }
    {
        RecordsDraft {
            values: Vec::new(alloc),
            fields: Vec::new(alloc),
            records: Vec::new(alloc),
            fields_from: 0,
            values_from: 0,
        }
    }

    /// How many records are ended.
    pub(crate) fn len(&self) -> usize
        ensures count { result ≡ length self.now.records }
        ensures few { result < 2 ^ 63 }
    {
        self.records.len()
    }

    /// Reads the values of a field's text, and puts them behind those of the field that isn't ended yet: one by each of
    /// the formats `once`, and then whole groups of values by the formats `group` up to the text's end.
    ///
    /// # Errors
    ///
    /// `Unspelled` exactly where the text has no such reading; `NoMemory`.
    pub(crate) fn read_values(
        &mut self,
        alloc: Global,
        text: &[u8],
        once: &[Format],
        group: &[Format],
    ) -> Result<(), ValuesFault>
        ensures read { Finds (λ _. self.new.values) result
            (before_all self.old.values (values_of (record { once = once.now; group = group.now }) text.now)) }
        ensures records { OnOk result (self.new.records ≡ self.old.records) }
        ensures begun { OnOk result (self.new.begun ≡ self.old.begun) }
    {
        read_values(alloc, text, once, group, &mut self.values)
    }

    /// Ends the field, which has this tag.
    pub(crate) fn end_field(&mut self, tag: [u8; 4]) -> Result<(), AllocError>
        ensures records { OnOk result (self.new.records ≡ self.old.records) }
        ensures begun { OnOk result (self.new.begun
            ≡ self.old.begun ++ record { tag = tag; values = self.old.values } ∷ []) }
        ensures values { OnOk result (self.new.values ≡ []) }
    {
        let to = self.values.len();
        let extent = Extent {
            from: self.values_from,
            to,
        };
        self.fields.push((tag, extent))?;
        self.values_from = to;
        Ok(())
    }

    /// Ends the record.
    pub(crate) fn end_record(&mut self) -> Result<(), AllocError>
        ensures records { OnOk result (self.new.records ≡ self.old.records ++ self.old.begun ∷ []) }
        ensures begun { OnOk result (self.new.begun ≡ []) }
        ensures values { OnOk result (self.new.values ≡ self.old.values) }
    {
        let to = self.fields.len();
        self.records.push(Extent {
            from: self.fields_from,
            to,
        })?;
        self.fields_from = to;
        Ok(())
    }

    /// The records that are ended.
    pub(crate) fn finish(self, alloc: Global) -> Result<RawList, AllocError>
        ensures { IfOk result (λ records. records ≡ self.records) }
    {
        let extents = self.fields;
        let fields = fields_of(alloc, extents.as_slice(), self.values)?;
        records_of(alloc, self.records.as_slice(), fields)
    }
}

/// The fields whose values stand there.
fn fields_of(
    alloc: Global,
    extents: &[([u8; 4], Extent)],
    values: Vec<Value>,
) -> Result<Vec<RawField>, AllocError>
    requires { AreFieldExtents (length values.items) extents.now }
    ensures { IfOk result (λ fields. fields.items ≡ fields_in extents.now values.items) }
{
    let mut fields = Vec::with_capacity(alloc, extents.len())?;
    let values = Rc::new(alloc, values)?;
    for (tag, extent) in extents {
        fields.push(RawField {
            tag: *tag,
            values: ValueList::of(&values, extent.from, extent.to)?,
        })?;
    }
    Ok(fields)
}

/// The records whose fields stand there.
fn records_of(
    alloc: Global,
    extents: &[Extent],
    fields: Vec<RawField>,
) -> Result<RawList, AllocError>
    requires { AreExtents (length fields.items) extents.now }
    ensures { IfOk result (λ records. records ≡ map (part fields.items) extents.now) }
{
    let mut records = Vec::with_capacity(alloc, extents.len())?;
    let fields = Rc::new(alloc, fields)?;
    for extent in extents {
        records.push(RawRecord::of(&fields, extent.from, extent.to)?)?;
    }
    Ok(RawList::from_vec(records))
}
