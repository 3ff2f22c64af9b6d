//! Lists: a count of eight bytes, and that many parts one behind the other.
//!
//! No memory is taken for a count: a list grows with the parts that are there.

ghost use Rattle.std.specs.Prelude.{◌≡◌, ◌++◌, OnOk};
ghost use Rattle.std.specs.List.{AllByRecursion, flat_map};
ghost use Rattle.page_parts.specs.Reader.{Finds};
ghost use Rattle.page_parts.specs.Lists.{AreInRange, counted_list, counted_list_at, items_at};

use crate::fault::PageFault;
use crate::numbers::{put_eight_bytes, read_eight_bytes};
use chart_model::{Octets, Sequence};
use std::alloc::{AllocError, Global};

/// A part that stands in lists.
pub trait Part: Drop {
    ghost use Rattle.std.specs.Prelude.{List, ℕ};
    ghost use Rattle.page_parts.specs.Reader.{Reader};

    /// The part that bytes begin with.
    ghost part_at: { Reader Self };

    /// Its bytes.
    ghost spelling: { Self → List ℕ };

    /// Its numbers are within their widths.
    ghost is_in_range: { Self → Type 0 };

    /// Reads the part at the front of bytes.
    fn read(alloc: Global, bytes: &[u8]) -> Result<(Self, &[u8]), PageFault>
        ensures { Finds (λ read. (read.0, read.1.now)) result (part_at bytes.now) };

    /// Adds the part behind other bytes.
    fn put(&self, out: &mut Octets) -> Result<(), AllocError>
        ensures bytes { OnOk result (out.new ≡ out.old ++ spelling self.now) }
        ensures in_range { OnOk result (is_in_range self.now) };
}

/// Reads so many parts.
fn read_items<P: Part>(
    alloc: Global,
    count: usize,
    bytes: &[u8],
) -> Result<(Vec<P>, &[u8]), PageFault>
    ensures { Finds (λ read. (read.0.items, read.1.now)) result (items_at P.part_at count bytes.now) }
{
    let mut items = Vec::new(alloc);
    let mut rest = bytes;
    for _ in 0..count {
        let (item, after) = P::read(alloc, rest)?;
        items.push(item)?;
        rest = after;
    }
    Ok((items, rest))
}

/// Reads a list.
#[tactic(auto, unfolding(crate::specs::Lists::counted_list_at))]
pub fn read_list<P: Part>(alloc: Global, bytes: &[u8]) -> Result<(Sequence<P>, &[u8]), PageFault>
    ensures { Finds (λ read. (read.0, read.1.now)) result (counted_list_at P.part_at bytes.now) }
{
    let (count, rest) = read_eight_bytes(bytes)?;
    let (items, rest) = read_items(alloc, count, rest)?;
    Ok((Sequence::from_vec(items), rest))
}

/// Adds parts one behind the other.
fn put_items<P: Part>(out: &mut Octets, items: &[P]) -> Result<(), AllocError>
    ensures bytes { OnOk result (out.new ≡ out.old ++ flat_map P.spelling items.now) }
    ensures in_range { OnOk result (AllByRecursion P.is_in_range items.now) }
{
    for item in items {
        item.put(out)?;
    }
    Ok(())
}

/// Adds a list.
#[tactic(auto, unfolding(crate::specs::Lists::counted_list))]
pub fn put_list<P: Part>(out: &mut Octets, items: &[P]) -> Result<(), AllocError>
    ensures bytes { OnOk result (out.new ≡ out.old ++ counted_list P.spelling items.now) }
    ensures in_range { OnOk result (AreInRange P.is_in_range items.now) }
{
    put_eight_bytes(out, items.len())?;
    put_items(out, items)
}
