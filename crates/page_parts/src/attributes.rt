//! Attributes in the order of their codes.
//!
//! No record keeps the text that removes an attribute, nor one with a terminator in it, which ATVL can't hold (S-57
//! Part 3), so both are refused. The codes rise, so that none stands twice.

ghost use Rattle.std.specs.Prelude.{◌≡◌, ◌++◌, length, OnOk};
ghost use Rattle.std.specs.List.{AllByRecursion, flat_map};
ghost use Rattle.std.specs.Ordering.{nat_cmp};
ghost use Rattle.std.specs.FinMap as map;
ghost use Rattle.page_parts.specs.Reader.{Finds};
ghost use Rattle.page_parts.specs.Lists.{AreInRange, entries_at};
ghost use Rattle.page_parts.specs.Attributes.{IsEntryInRange, attribute, attribute_at, attributes, attributes_at};
ghost use Rattle.page_parts.specs.Attributes.{is_kept_text, is_plain_text};

use crate::fault::PageFault;
use crate::numbers::{put_eight_bytes, read_eight_bytes, read_two_bytes};
use crate::order::is_behind;
use crate::texts::read_span;
use chart_model::codes::{FIELD_TERMINATOR, UNIT_TERMINATOR};
use chart_model::{Attr, AttrMap, Octets};
use std::alloc::{AllocError, Global};

/// The text that removes an attribute, and that no record keeps: the delete character alone (S-57 Part 3).
const DELETED: [u8; 1] = [0x7F];

/// Whether no byte of a text ends a field or a unit.
fn is_plain_text(text: &[u8]) -> bool
    ensures { result ≡ is_plain_text text.now }
{
    text.iter().all(|byte| *byte != FIELD_TERMINATOR && *byte != UNIT_TERMINATOR)
}

/// Whether a record may keep a text: it is plain, and it removes no attribute.
fn is_kept_text(text: &[u8]) -> bool
    ensures { result ≡ is_kept_text text.now }
{
    is_plain_text(text) && text != DELETED.as_slice()
}

/// Adds an attribute.
#[tactic(auto, unfolding(crate::specs::Attributes::attribute, crate::specs::Texts::text))]
fn put_attribute(out: &mut Octets, code: u16, text: &[u8]) -> Result<(), AllocError>
    ensures bytes { OnOk result (out.new ≡ out.old ++ attribute (code, text.now)) }
    ensures in_range { OnOk result (IsEntryInRange (code, text.now)) }
{
    let [c0, c1] = code.to_be_bytes();
    let [l0, l1, l2, l3, l4, l5, l6, l7] = text.len().to_be_bytes();
    out.extend_from_slice(&[c0, c1, l0, l1, l2, l3, l4, l5, l6, l7])?;
    out.extend_from_slice(text)
}

/// Adds attributes one behind the other.
fn put_each(out: &mut Octets, attrs: &AttrMap) -> Result<(), AllocError>
    ensures bytes { OnOk result (out.new ≡ out.old ++ flat_map attribute (map.entries attrs.now)) }
    ensures in_range { OnOk result (AllByRecursion IsEntryInRange (map.entries attrs.now)) }
{
    for attr in attrs.as_slice() {
        put_attribute(out, attr.code, attr.value.as_slice())?;
    }
    Ok(())
}

/// Adds attributes in the order of their codes.
#[tactic(auto, using(crate::proofs::RisingRead::len_is), unfolding(crate::specs::Attributes::attributes, crate::specs::Lists::rising_entries, crate::specs::Lists::counted_list))]
pub fn put_attributes(out: &mut Octets, attrs: &AttrMap) -> Result<(), AllocError>
    ensures bytes { OnOk result (out.new ≡ out.old ++ attributes attrs.now) }
    ensures in_range { OnOk result (AreInRange IsEntryInRange (map.entries attrs.now)) }
{
    put_eight_bytes(out, attrs.len())?;
    put_each(out, attrs)
}

/// Reads an attribute.
#[tactic(auto, unfolding(crate::specs::Attributes::attribute_at))]
fn read_attribute(alloc: Global, bytes: &[u8]) -> Result<(Attr, &[u8]), PageFault>
    ensures { Finds (λ read. ((read.0.code, read.0.value), read.1.now)) result (attribute_at bytes.now) }
{
    let (code, rest) = read_two_bytes(bytes)?;
    let (text, rest) = read_span(rest)?;
    if !is_kept_text(text) {
        return Err(PageFault::Unspelled);
    }
    let value = Octets::from_slice(alloc, text)?;
    Ok((Attr { code, value }, rest))
}

/// Reads so many attributes, in the order of their codes.
fn read_each(alloc: Global, count: usize, bytes: &[u8]) -> Result<(AttrMap, &[u8]), PageFault>
    ensures { Finds (λ read. (read.0, read.1.now)) result (entries_at nat_cmp attribute_at count bytes.now) }
{
    let mut attrs = AttrMap::new(alloc);
    let mut last = None;
    let mut rest = bytes;
    for _ in 0..count {
        let (attr, after) = read_attribute(alloc, rest)?;
        if !is_behind(&last, &attr.code) {
            return Err(PageFault::Unspelled);
        }
        last = Some(attr.code);
        attrs.set(attr.code, attr.value)?;
        rest = after;
    }
    Ok((attrs, rest))
}

/// Reads attributes in the order of their codes.
#[tactic(auto, unfolding(crate::specs::Attributes::attributes_at, crate::specs::Lists::rising_entries_at))]
pub fn read_attributes(alloc: Global, bytes: &[u8]) -> Result<(AttrMap, &[u8]), PageFault>
    ensures { Finds (λ read. (read.0, read.1.now)) result (attributes_at bytes.now) }
{
    let (count, rest) = read_eight_bytes(bytes)?;
    read_each(alloc, count, rest)
}
