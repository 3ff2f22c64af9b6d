//! Pointers of vector records (VRPT), and of features to vector records (FSPT).
//!
//! The rows of the two differ in the topology indicator alone.

ghost use Rattle.std.specs.Option.{option_copied};
ghost use Rattle.std.specs.Prelude.{◌≡◌, IfOk, All};
ghost use Rattle.s57_subfields.specs.Answers.{Gives};
ghost use Rattle.s57_fields.specs.Pointers.{vrpt_at, fspt_at};

use crate::faults::first_fault;
use crate::file::record_at;
use chart_model::codes::NULL;
use chart_model::{Pointer, Pointers};
use iso8211_formats::Descriptor;
use iso8211_records::{RecordFile, Value};
use s57_subfields::labels::{MASK, NAME, ORNT, TOPI, USAG};
use s57_subfields::{FieldFault, Group, Groups, OneByte, RecordName, RowFields, Subfield, tags};
use std::alloc::{AllocError, Global};

/// A row VRPT or FSPT as it stands in a file's descriptor.
#[derive(Clone, Copy, Debug)]
pub struct PointerRow {
    pub groups: Groups,
    pub name: Subfield,
    pub ornt: Subfield,
    pub usag: Subfield,
    /// The topology indicator, which VRPT alone has.
    pub topi: Option<Subfield>,
    pub mask: Subfield,
}

impl Group for PointerRow {
    ghost use Rattle.s57_fields.specs.Pointers.{pointer_in, pointer_columns, IsTopiUnder};
    ghost use Rattle.s57_fields.specs.Unread.{pointer-unread};

    type Output = Pointer;

    ghost reads = { pointer_in };

    ghost columns = { pointer_columns };

    ghost holds = { λ row pointer. IsTopiUnder row.topi pointer.topi };

    fn read(&self, alloc: Global, group: &[Value]) -> Result<Option<Pointer>, AllocError> {
        let Some(target) = self.name.in_group(alloc, group, &RecordName)? else {
            return Ok(None);
        };
        let Some(ornt) = self.ornt.in_group(alloc, group, &OneByte)? else {
            return Ok(None);
        };
        let Some(usag) = self.usag.in_group(alloc, group, &OneByte)? else {
            return Ok(None);
        };
        let Some(topi) = self.read_topi(alloc, group)? else {
            return Ok(None);
        };
        let Some(mask) = self.mask.in_group(alloc, group, &OneByte)? else {
            return Ok(None);
        };
        Ok(Some(Pointer {
            target,
            ornt,
            usag,
            topi,
            mask,
        }))
    }

    fn first_fault(&self, groups: &Groups, values: &RowFields<'_>) -> Option<FieldFault> {
        match &self.topi {
            None => first_fault!(
                self.name.fault(groups, values, &RecordName),
                self.ornt.fault(groups, values, &OneByte),
                self.usag.fault(groups, values, &OneByte),
                self.mask.fault(groups, values, &OneByte),
            ),
            Some(topi) => first_fault!(
                self.name.fault(groups, values, &RecordName),
                self.ornt.fault(groups, values, &OneByte),
                self.usag.fault(groups, values, &OneByte),
                topi.fault(groups, values, &OneByte),
                self.mask.fault(groups, values, &OneByte),
            ),
        }
    }

    ghost unread = { pointer-unread };
}

impl PointerRow {
    ghost use Rattle.s57_fields.specs.Pointers.{vrpt_row, fspt_row, topi_in, pointers_in, IsTopiUnder};

    /// Finds the row VRPT in the descriptor of the file's field. It takes no memory.
    pub fn find_vrpt(descriptor: Option<&Descriptor>) -> PointerRow
        ensures { result ≡ vrpt_row (option_copied descriptor.entry) }
    {
        PointerRow {
            topi: Some(Subfield::find(descriptor, TOPI)),
            ..PointerRow::find_fspt(descriptor)
        }
    }

    /// Finds the row FSPT in the descriptor of the file's field. It takes no memory.
    pub fn find_fspt(descriptor: Option<&Descriptor>) -> PointerRow
        ensures { result ≡ fspt_row (option_copied descriptor.entry) }
    {
        PointerRow {
            groups: Groups::find(descriptor),
            name: Subfield::find(descriptor, NAME),
            ornt: Subfield::find(descriptor, ORNT),
            usag: Subfield::find(descriptor, USAG),
            topi: None,
            mask: Subfield::find(descriptor, MASK),
        }
    }

    /// Reads the topology of a group, which is null where the row has none.
    fn read_topi(&self, alloc: Global, group: &[Value]) -> Result<Option<u8>, AllocError>
        ensures { IfOk result (λ found. found ≡ topi_in self.now.topi group.now) }
    {
        match &self.topi {
            Some(topi) => topi.in_group(alloc, group, &OneByte),
            None => Ok(Some(NULL)),
        }
    }

    /// Reads pointers, without topology by the row FSPT: the empty list where the record has no such field.
    ///
    /// # Errors
    ///
    /// The first `MissingField` or `Value` by subfield in the order of the row, over all groups of all
    /// fields of the tag; `NoMemory`.
    pub fn read(&self, alloc: Global, values: &RowFields<'_>) -> Result<Pointers, FieldFault>
        ensures found { Gives result (pointers_in self.now values.now) }
        ensures topi { IfOk result (λ pointers. All (λ pointer. IsTopiUnder self.now.topi pointer.topi) pointers) }
    {
        Ok(Pointers::from_vec(self.groups.read_list(alloc, values, self)?))
    }
}

/// Reads the pointers of a vector record: the row VRPT of this data record, counted from 1.
/// The empty list where the record has no such field.
///
/// # Errors
///
/// The first `MissingField` or `Value` in the order of the row; `NoMemory`.
pub fn read_vrpt(alloc: Global, file: &RecordFile, number: usize) -> Result<Pointers, FieldFault>
    ensures { Gives result (vrpt_at file.now number) }
{
    let row = PointerRow::find_vrpt(file.descriptors.get(&tags::VRPT));
    let values = RowFields::new(number, tags::VRPT, record_at(file, number));
    row.read(alloc, &values)
}

/// Reads the pointers of a feature: the row FSPT of this data record, counted from 1. They have no topology.
/// The empty list where the record has no such field.
///
/// # Errors
///
/// The first `MissingField` or `Value` in the order of the row; `NoMemory`.
pub fn read_fspt(alloc: Global, file: &RecordFile, number: usize) -> Result<Pointers, FieldFault>
    ensures found { Gives result (fspt_at file.now number) }
    ensures topi { IfOk result (λ pointers. All (λ pointer. pointer.topi ≡ 255) pointers) }
{
    let row = PointerRow::find_fspt(file.descriptors.get(&tags::FSPT));
    let values = RowFields::new(number, tags::FSPT, record_at(file, number));
    row.read(alloc, &values)
}
