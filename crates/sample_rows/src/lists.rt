//! The lists of a record, of the items of rows.
//!
//! Lists have to hold what is true of every chart: texts without terminators, coordinates on the globe. Numbers of rows
//! are small, so that any of them is a coordinate or a depth.

ghost use Rattle.std.specs.Prelude.{◌≡◌, All, IfOk, IfSome, IsNone, IsSome};
ghost use Rattle.chart_model.specs.Record.{AreCoords, IsCoord, IsDepth, IsPlainText};

use crate::rows::{FOID, Item, Mark, Setting};
use chart_model::codes::{FIELD_TERMINATOR, NULL, UNIT_TERMINATOR};
use chart_model::{
    Attr, AttrList, Coord, Coords, Foid, Name, Octets, Pointer, Pointers, Related, RelatedList,
    Sequence,
};
use std::alloc::{AllocError, Global};

/// The text without bytes that end fields and subfields.
fn plain_text(alloc: Global, text: &[u8]) -> Result<Octets, AllocError>
    ensures { IfOk result IsPlainText }
{
    let mut plain = Vec::new(alloc);
    for byte in text {
        if *byte != FIELD_TERMINATOR && *byte != UNIT_TERMINATOR {
            plain.push(*byte)?;
        }
    }
    Ok(Octets::from_vec(plain))
}

/// Attributes of these codes and texts.
pub fn attr_list(alloc: Global, settings: &[Setting]) -> Result<AttrList, AllocError>
    ensures { IfOk result (All (λ attr. IsPlainText attr.value)) }
{
    let mut attrs = Sequence::new(alloc);
    for (code, text) in settings {
        attrs.push(Attr {
            code: *code,
            value: plain_text(alloc, text)?,
        })?;
    }
    Ok(attrs)
}

/// The name of the record that an item names.
fn target(item: Item) -> Name {
    Name {
        rcnm: item.0,
        rcid: u32::from(item.1),
    }
}

/// The pointers of a vector record.
pub fn vector_pointers(alloc: Global, items: &[Item]) -> Result<Pointers, AllocError> {
    let mut pointers = Sequence::new(alloc);
    for item in items {
        pointers.push(Pointer {
            target: target(*item),
            ornt: NULL,
            usag: NULL,
            topi: item.2,
            mask: NULL,
        })?;
    }
    Ok(pointers)
}

/// A pointer of a feature, without a mark where there is none.
fn feature_pointer(item: Item, mark: Option<&Mark>) -> Pointer
    ensures { result.topi ≡ 255 }
{
    let (usag, mask) = match mark {
        Some(mark) => *mark,
        None => (NULL, NULL),
    };
    Pointer {
        target: target(item),
        ornt: item.2,
        usag,
        topi: NULL,
        mask,
    }
}

/// The pointers of a feature.
pub fn feature_pointers(
    alloc: Global,
    items: &[Item],
    marks: &[Mark],
) -> Result<Pointers, AllocError>
    ensures { IfOk result (All (λ pointer. pointer.topi ≡ 255)) }
{
    let mut pointers = Sequence::new(alloc);
    for (at, item) in items.iter().enumerate() {
        pointers.push(feature_pointer(*item, marks.get(at)))?;
    }
    Ok(pointers)
}

/// A coordinate, or a sounding of a depth.
fn coord(item: Item, z: Option<i32>) -> Coord
    requires { IfSome z IsDepth }
    ensures coord { IsCoord result }
    ensures depth { result.z ≡ z }
{
    Coord {
        x: i32::from(item.0),
        y: i32::from(item.1),
        z,
    }
}

/// A sounding of so many decimetres, or of five metres.
fn sounding(item: Item, decimetres: Option<&i16>) -> Coord
    ensures coord { IsCoord result }
    ensures depth { IsSome result.z }
{
    let decimetres = match decimetres {
        Some(decimetres) => i32::from(*decimetres),
        None => 50,
    };
    coord(item, Some(10 * decimetres))
}

/// Coordinates without depths.
pub fn plain_coords(alloc: Global, items: &[Item]) -> Result<Coords, AllocError>
    ensures { IfOk result AreCoords }
{
    let mut coords = Sequence::new(alloc);
    for item in items {
        coords.push(coord(*item, None))?;
    }
    Ok(coords)
}

/// Soundings of these depths in decimetres, and of five metres where there are fewer.
pub fn soundings(alloc: Global, items: &[Item], depths: &[i16]) -> Result<Coords, AllocError>
    ensures { IfOk result AreCoords }
{
    let mut coords = Sequence::new(alloc);
    for (at, item) in items.iter().enumerate() {
        coords.push(sounding(*item, depths.get(at)))?;
    }
    Ok(coords)
}

/// Related objects of these numbers.
pub fn related(alloc: Global, items: &[Item]) -> Result<RelatedList, AllocError> {
    let mut related = Sequence::new(alloc);
    for item in items {
        let foid = Foid {
            fidn: u32::from(item.1),
            ..FOID
        };
        related.push(Related { foid, rind: item.2 })?;
    }
    Ok(related)
}
