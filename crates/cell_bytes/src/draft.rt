//! Records in the making.
//!
//! The text of a field is written before its length is known, which its directory entry has. So it stands apart until
//! the field ends. One draft serves all records of a file, so that its memory is taken once.

ghost use Rattle.std.specs.Prelude.{◌≡◌, [], OnOk};
ghost use Rattle.cell_bytes.specs.Record.{only_fields, field, list_field, no_fields, with_fields};
ghost use Rattle.cell_bytes.specs.Vector.{record_identifier};

use crate::fields::Fields;
use chart_model::Octets;
use std::alloc::{AllocError, Global};

/// A record in the making: its fields so far, and the text of the field that comes next.
#[derive(Debug, Drop)]
pub(crate) struct RecordDraft {
    pub(crate) fields: Fields,
    pub(crate) text: Octets,
}

impl RecordDraft {
    /// A record without a field. It takes no memory.
    pub(crate) fn new(alloc: Global) -> RecordDraft
        ensures fields { result.fields ≡ no_fields }
        ensures text { result.text ≡ [] }
    {
        RecordDraft {
            fields: Fields::new(alloc),
            text: Octets::from_vec(Vec::new(alloc)),
        }
    }

    /// Begins a record anew, with its number.
    pub(crate) fn begin(&mut self, number: u16) -> Result<(), AllocError>
        ensures fields { OnOk result (self.new.fields ≡ only_fields (record_identifier number)) }
        ensures text { OnOk result (self.new.text ≡ []) }
    {
        self.text.clear();
        self.fields.begin(number)
    }

    /// Ends the field whose text was written.
    pub(crate) fn end_field(&mut self, tag: [u8; 4]) -> Result<(), AllocError>
        ensures fields { OnOk result (self.new.fields ≡ with_fields self.old.fields (field tag self.old.text)) }
        ensures text { OnOk result (self.new.text ≡ []) }
    {
        self.fields.add(tag, self.text.as_slice())?;
        self.text.clear();
        Ok(())
    }

    /// Ends the field of a list whose items were written. A list without an item gets no field.
    #[tactic(auto, unfolding(crate::specs::Record::list_field))]
    pub(crate) fn end_list(&mut self, tag: [u8; 4]) -> Result<(), AllocError>
        ensures fields { OnOk result (self.new.fields ≡ with_fields self.old.fields (list_field tag self.old.text)) }
        ensures text { OnOk result (self.new.text ≡ []) }
    {
        if self.text.as_slice().is_empty() {
            return Ok(());
        }
        self.end_field(tag)
    }
}
