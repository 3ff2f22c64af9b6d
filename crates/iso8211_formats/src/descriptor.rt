//! What a descriptor says of its field.
//!
//! Labels and formats lie in place, so that reading a descriptor takes no memory.

ghost use Rattle.std.specs.Prelude.{◌≡◌, length};
ghost use Rattle.iso8211_formats.specs.Layout.{IsLayout};

use crate::format::FormatList;
use arrayvec::ArrayVec;
use std::marker::Model;

/// The most subfields that a field has.
pub const MOST_SUBFIELDS: usize = 64;

/// Labels of four bytes, in the order of their subfields.
pub type LabelList = ArrayVec<[u8; 4], MOST_SUBFIELDS>;

/// The subfields of a field (ISO/IEC 8211, data descriptive field).
///
/// There are 1 to 64 labels and as many formats, which lie in the descriptor itself. Contracts see it as
/// the record of its fields.
#[derive(Debug, Drop)]
pub struct Descriptor {
    /// The label of each subfield.
    pub labels: LabelList,
    /// How each subfield is spelled.
    pub formats: FormatList,
    /// The place, from 1, of the label from which on the labels repeat as a group.
    pub repeats_from: Option<u32>,
}

impl Model for Descriptor {
    ghost use Rattle.iso8211_formats.specs.Layout.{Layout, IsLayout};

    ghost Value = { Layout };

    ghost view = { λ descriptor.
        record {
          labels = descriptor.labels.items;
          formats = descriptor.formats.items;
          repeats_from = descriptor.repeats_from;
        } };

    ghost invariant = { λ descriptor. IsLayout
        (record {
          labels = descriptor.labels.items;
          formats = descriptor.formats.items;
          repeats_from = descriptor.repeats_from;
        }) };
}

impl Descriptor {
    /// How many subfields there are, 1 to 64.
    pub fn subfield_count(&self) -> usize
        ensures count { result ≡ length self.now.labels }
        // What every descriptor keeps.
        ensures layout { IsLayout self.now }
    {
        self.labels.len()
    }
}
