//! A subfield that stands once, with what its value may be.
//!
//! The kind is part of the row, so that a row says of itself how it is read.

ghost use Rattle.std.specs.Prelude.{◌≡◌, IfOk};
ghost use Rattle.std.specs.Option.{option_copied};
ghost use Rattle.s57_subfields.specs.Answers.{Gives};
ghost use Rattle.s57_subfields.specs.Columns.{once_in};

use crate::fault::FieldFault;
use crate::kind::Kind;
use crate::row_fields::RowFields;
use crate::subfield::Subfield;
use iso8211_formats::Descriptor;
use std::alloc::Global;

/// A subfield that stands once, as it was found in the descriptor of a file's field, and the kind of its
/// value.
#[derive(Clone, Copy, Debug)]
pub struct Single<K> {
    pub subfield: Subfield,
    pub kind: K,
}

impl<K: Kind> Single<K> {
    ghost use Rattle.s57_subfields.specs.Singles.{single_of};

    /// The subfield of this label in a field's descriptor, where it has one.
    pub fn find(descriptor: Option<&Descriptor>, label: [u8; 4], kind: K) -> Single<K>
        ensures { result ≡ single_of (option_copied descriptor.entry) label kind }
    {
        Single {
            subfield: Subfield::find(descriptor, label),
            kind,
        }
    }

    /// What the subfield is read as: in the record's first field of the tag.
    ///
    /// # Errors
    ///
    /// `MissingField` where the descriptor or the record doesn't have it; `Value`; `NoMemory`.
    pub fn read(&self, alloc: Global, values: &RowFields<'_>) -> Result<K::Output, FieldFault>
        ensures found { Gives result (once_in (K.reads self.now.kind) values.now self.now.subfield) }
        ensures holds { IfOk result (K.holds self.now.kind) }
    {
        self.subfield.once(alloc, values, &self.kind)
    }
}
