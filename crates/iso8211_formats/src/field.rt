//! A data descriptive field.
//!
//! It is cut at its unit terminators here; `labels` and `format_controls` read the parts.

ghost use Rattle.std.specs.Prelude.{◌≡◌, ◌↔◌, List, ℕ, option_map, IfOk, Some, Ok, Err};
ghost use Rattle.std.specs.Option.{ok_or};
ghost use Rattle.iso8211_formats.specs.Layout.{Layout, IsLayout};
ghost use Rattle.iso8211_formats.specs.Grammar.{Spells};
ghost use Rattle.iso8211_formats.specs.Reading.{parts_of, descriptor_of};

use crate::descriptor::{Descriptor, MOST_SUBFIELDS};
use crate::fault::DescriptorFault;
use crate::format_controls::read_formats;
use crate::labels::read_labels;
use crate::text::cut;

/// Stands between the parts of a field.
const UNIT_TERMINATOR: u8 = 0x1F;

/// The bytes of the field controls, which aren't looked at.
const FIELD_CONTROLS: usize = 9;

/// The bytes of an array descriptor with a mark and the most labels.
const LONGEST_ARRAY: usize = 5 * MOST_SUBFIELDS;

/// The array descriptor, and the format controls with the field terminator behind them.
#[tactic(auto, unfolding(crate::specs::Reading::parts_of))]
fn parts(field: &[u8]) -> Option<(&[u8], &[u8])>
    ensures { option_map (λ parts. (parts.0.now, parts.1.now)) result ≡ parts_of field.now }
{
    if field.len() < FIELD_CONTROLS {
        return None;
    }
    match cut(&field[FIELD_CONTROLS..], UNIT_TERMINATOR) {
        Some((_name, rest)) => cut(rest, UNIT_TERMINATOR),
        None => None,
    }
}

/// The descriptor of a field, as the function on lists has it.
fn read(field: &[u8]) -> Option<Descriptor>
    ensures { result ≡ descriptor_of field.now }
{
    let Some((array, controls)) = parts(field) else {
        return None;
    };
    if array.len() > LONGEST_ARRAY {
        return None;
    }
    let Some((labels, repeats_from)) = read_labels(array) else {
        return None;
    };
    let count = labels.len();
    let Some(formats) = read_formats(controls) else {
        return None;
    };
    if formats.len() != count {
        return None;
    }
    Some(Descriptor {
        labels,
        formats,
        repeats_from,
    })
}

/// The descriptor that a data descriptive field spells (ISO/IEC 8211), of all its bytes.
///
/// The field has nine bytes of field controls, which aren't looked at, a name, the array descriptor
/// and the format controls, with a unit terminator (0x1F) behind the name and behind the array
/// descriptor, and a field terminator (0x1E) at the end. The array descriptor joins 1 to 64 labels
/// of four bytes by `!`; one of them may have `*` before it. The format controls are a list of items
/// in parentheses, joined by commas, that gives each label a format.
///
/// It looks at each byte of the field a bounded number of times, and takes no memory.
///
/// # Errors
///
/// `Bad` where the field spells no descriptor.
pub fn read_descriptor(field: &[u8]) -> Result<Descriptor, DescriptorFault>
    // What is read is what the field spells.
    ensures read { (layout : Layout) → (result ≡ Ok layout) ↔ Spells layout field.now }
    // A field is refused where it spells no descriptor.
    ensures bad { (result ≡ Err DescriptorFault.Bad) ↔ ((layout : Layout) → Spells layout field.now → ⊥) }
    // What every descriptor keeps.
    ensures layout { IfOk result IsLayout }
    ensures exact { result ≡ ok_or (descriptor_of field.now) DescriptorFault.Bad }
{
    read(field).ok_or(DescriptorFault::Bad)
}

/// A field spells one descriptor at most.
pub fn one_descriptor()
    ensures { (field : List ℕ) (a b : Layout) → Spells a field → Spells b field → a ≡ b }
{}

/// The function that definitions cite gives what a field spells.
pub fn reading_is_spelling()
    ensures { (field : List ℕ) (layout : Layout) →
        (descriptor_of field ≡ Some layout) ↔ Spells layout field }
{}
