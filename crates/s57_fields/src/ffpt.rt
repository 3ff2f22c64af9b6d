//! Feature record to feature object pointers (FFPT).
//!
//! A feature points to others by their identifiers, which stay the same in all cells.

ghost use Rattle.std.specs.Option.{option_copied};
ghost use Rattle.std.specs.Prelude.{◌≡◌, IfOk};
ghost use Rattle.s57_subfields.specs.Answers.{Gives};
ghost use Rattle.s57_fields.specs.Ffpt.{ffpt_at};

use crate::faults::first_fault;
use crate::file::record_at;
use chart_model::{Related, RelatedList};
use iso8211_formats::Descriptor;
use iso8211_records::{RecordFile, Value};
use s57_subfields::labels::{LNAM, RIND};
use s57_subfields::{FieldFault, Group, Groups, ObjectName, OneByte, RowFields, Subfield, tags};
use std::alloc::{AllocError, Global};

/// The row FFPT as it stands in a file's descriptor.
#[derive(Clone, Copy, Debug)]
pub struct RelatedRow {
    pub groups: Groups,
    pub lnam: Subfield,
    pub rind: Subfield,
}

impl Group for RelatedRow {
    ghost use Rattle.s57_fields.specs.Ffpt.{related_object_in, related_object_columns};
    ghost use Rattle.s57_fields.specs.Unread.{related_object-unread};

    type Output = Related;

    ghost reads = { related_object_in };

    ghost columns = { related_object_columns };

    ghost holds = { λ _ _. Unit {0} };

    fn read(&self, alloc: Global, group: &[Value]) -> Result<Option<Related>, AllocError> {
        let Some(foid) = self.lnam.in_group(alloc, group, &ObjectName)? else {
            return Ok(None);
        };
        let Some(rind) = self.rind.in_group(alloc, group, &OneByte)? else {
            return Ok(None);
        };
        Ok(Some(Related { foid, rind }))
    }

    fn first_fault(&self, groups: &Groups, values: &RowFields<'_>) -> Option<FieldFault> {
        first_fault!(
            self.lnam.fault(groups, values, &ObjectName),
            self.rind.fault(groups, values, &OneByte),
        )
    }

    ghost unread = { related_object-unread };
}

impl RelatedRow {
    ghost use Rattle.s57_fields.specs.Ffpt.{ffpt_row, related_in};

    /// Finds the row in the descriptor of the file's field. It takes no memory.
    pub fn find(descriptor: Option<&Descriptor>) -> RelatedRow
        ensures { result ≡ ffpt_row (option_copied descriptor.entry) }
    {
        RelatedRow {
            groups: Groups::find(descriptor),
            lnam: Subfield::find(descriptor, LNAM),
            rind: Subfield::find(descriptor, RIND),
        }
    }

    /// Reads related feature objects: the empty list where the record has no such field.
    ///
    /// # Errors
    ///
    /// The first `MissingField` or `Value` by subfield in the order of the row, over all groups of all
    /// fields of the tag; `NoMemory`.
    pub fn read(&self, alloc: Global, values: &RowFields<'_>) -> Result<RelatedList, FieldFault>
        ensures found { Gives result (related_in self.now values.now) }
    {
        Ok(RelatedList::from_vec(self.groups.read_list(alloc, values, self)?))
    }
}

/// Reads the related objects of a feature: the row FFPT of this data record, counted from 1.
/// The empty list where the record has no such field.
///
/// # Errors
///
/// The first `MissingField` or `Value` in the order of the row; `NoMemory`.
pub fn read_ffpt(alloc: Global, file: &RecordFile, number: usize) -> Result<RelatedList, FieldFault>
    ensures { Gives result (ffpt_at file.now number) }
{
    let row = RelatedRow::find(file.descriptors.get(&tags::FFPT));
    let values = RowFields::new(number, tags::FFPT, record_at(file, number));
    row.read(alloc, &values)
}
