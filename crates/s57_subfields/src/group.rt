//! The groups of a record's fields, read one behind the other.
//!
//! A list is read in one go, which ends at the first group that isn't right. Only then is the fault looked for,
//! subfield by subfield over all groups: so which one is told goes by the order of the standard's row, and not by the
//! file's.

ghost use Rattle.std.specs.Option.{option_copied};
ghost use Rattle.std.specs.Prelude.{◌≡◌, ◌+◌, ◌++◌, All, IfOk, IfSome, IfNone, Some, map};
ghost use Rattle.iso8211_records.specs.declared.value.Value.{Value as RawValue};
ghost use Rattle.s57_subfields.specs.Tails.{HasNone, tails, tails_of};
ghost use Rattle.s57_subfields.specs.Answers.{GivesBy};
ghost use Rattle.s57_subfields.specs.Lists.{list_in};

use crate::fault::FieldFault;
use crate::row_fields::RowFields;
use crate::subfield::group_start;
use iso8211_formats::Descriptor;
use iso8211_records::Value;
use std::alloc::{AllocError, Global};

/// A row of subfields that repeat, as it stands in a file's descriptor: what each group is read as.
pub trait Group {
    /// What a group is read as.
    type Output: Drop;

    ghost use Rattle.std.specs.Prelude.{◌≡◌, is_none, List, Option, IfOk, IfSome};
    ghost use Rattle.std.specs.List.{list_any};
    ghost use Rattle.s57_subfields.specs.Lists.{Column, list_fault, groups_in_fields};

    /// What the values from a group's first one on are read as, and nothing where one is missing or isn't
    /// what it has to be.
    ghost reads: { Self → List RawValue → Option Self.Output };

    /// The subfields, in the order of the row.
    ghost columns: { Self → List Column };

    /// What holds of each group that is read.
    ghost holds: { Self → Self.Output → Type 0 };

    /// Reads a group.
    fn read(&self, alloc: Global, group: &[Value]) -> Result<Option<Self::Output>, AllocError>
        ensures found { IfOk result (λ found. found ≡ reads self.now group.now) }
        ensures holds { IfOk result (λ found. IfSome found (holds self.now)) };

    /// What is wrong with a list of such groups: the fault of the first subfield of the row that has one. It
    /// takes no memory.
    fn first_fault(&self, groups: &Groups, values: &RowFields<'_>) -> Option<FieldFault>
        ensures { result ≡ list_fault values.now (groups_in_fields groups.now values.now) (columns self.now) };

    /// A group isn't read where one of its subfields isn't.
    ghost unread: { (row : Self) (group : List RawValue) →
        is_none (reads row group) ≡ list_any (λ column. column.is_unread group) (columns row) };
}

/// Where the groups of a field stand.
#[derive(Clone, Copy, Debug)]
pub struct Groups {
    /// The place of the first value of the first group.
    pub at: u8,
    /// How many values lie between the first value of one group and that of the next.
    pub between: u8,
}

impl Groups {
    ghost use Rattle.s57_subfields.specs.Lists.{groups_of};

    /// Where the groups of a field with this descriptor stand.
    pub fn find(descriptor: Option<&Descriptor>) -> Groups
        ensures { result ≡ groups_of (option_copied descriptor.entry) }
    {
        let Some(descriptor) = descriptor else {
            return Groups { at: 0, between: 0 };
        };
        let start = group_start(descriptor);
        let size = descriptor.labels.as_slice().len() - start;
        Groups {
            at: start as u8,
            between: size.saturating_sub(1) as u8,
        }
    }

    /// Reads the groups of a field, behind those of the fields before; nothing where one isn't what it has
    /// to be.
    fn read_field<G: Group>(
        &self,
        alloc: Global,
        group: &G,
        values: &[Value],
        mut read: Vec<G::Output>,
    ) -> Result<Option<Vec<G::Output>>, AllocError>
        requires { All (G.holds group.now) read.items }
        ensures found { IfOk result (λ found. IfSome found (λ all. map (λ item. Some item) all.items
            ≡ map (λ item. Some item) read.items
            ++ map (G.reads group.now) (tails self.now.between self.now.at values.now))) }
        ensures none { IfOk result (λ found. IfNone found
            (HasNone (map (G.reads group.now) (tails self.now.between self.now.at values.now)))) }
        ensures holds { IfOk result (λ found. IfSome found (λ all. All (G.holds group.now) all.items)) }
    {
        let mut at = self.at as usize;
        while at < values.len() {
            match group.read(alloc, &values[at..]) {
                Ok(Some(item)) => read.push(item)?,
                Ok(None) => return Ok(None),
                Err(fault) => return Err(fault),
            }
            at += self.between as usize + 1;
        }
        Ok(Some(read))
    }

    /// Reads the groups of all fields; nothing where one isn't what it has to be.
    pub(crate) fn read<G: Group>(
        &self,
        alloc: Global,
        values: &RowFields<'_>,
        group: &G,
    ) -> Result<Option<Vec<G::Output>>, AllocError>
        ensures found { IfOk result (λ found. IfSome found (λ all. map (λ item. Some item) all.items
            ≡ map (G.reads group.now) (tails_of self.now.at self.now.between values.now.fields))) }
        ensures none { IfOk result (λ found. IfNone found
            (HasNone (map (G.reads group.now) (tails_of self.now.at self.now.between values.now.fields)))) }
        ensures holds { IfOk result (λ found. IfSome found (λ all. All (G.holds group.now) all.items)) }
    {
        let tag = values.tag();
        let mut read = Vec::new(alloc);
        for field in values.record() {
            if field.tag != tag {
                continue;
            }
            match self.read_field(alloc, group, field.values.as_slice(), read) {
                Ok(Some(all)) => read = all,
                Ok(None) => return Ok(None),
                Err(fault) => return Err(fault),
            }
        }
        Ok(Some(read))
    }

    /// Reads the list that a record's fields of a tag have: the empty one where there is no such field.
    ///
    /// # Errors
    ///
    /// The first `MissingField` or `Value` by subfield in the order of the row, over all groups of all
    /// fields of the tag; `NoMemory`.
    pub fn read_list<G: Group>(
        &self,
        alloc: Global,
        values: &RowFields<'_>,
        row: &G,
    ) -> Result<Vec<G::Output>, FieldFault>
        ensures found { GivesBy (λ all. all.items) result
            (list_in (G.reads row.now) (G.columns row.now) self.now values.now) }
        ensures holds { IfOk result (λ all. All (G.holds row.now) all.items) }
    {
        if values.is_empty() {
            return Ok(Vec::new(alloc));
        }
        match self.read(alloc, values, row)? {
            Some(items) if !items.is_empty() => Ok(items),
            // Without a group the labels are looked at all the same.
            _ => match row.first_fault(self, values) {
                Some(fault) => Err(fault),
                None => Ok(Vec::new(alloc)),
            },
        }
    }
}
