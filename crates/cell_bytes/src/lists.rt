//! The lists of vector and feature records as bytes (S-57 Part 3).
//!
//! Each list is the text of one field, group behind group in the order of the list, since pointers and coordinates mean
//! something in their order.

ghost use Rattle.std.specs.Prelude.{◌≡◌, ◌++◌, OnOk};
ghost use Rattle.std.specs.List.{AllByRecursion, flat_map};
ghost use Rattle.std.specs.FinMap as map;
ghost use Rattle.chart_model.specs.Cell.{AreKeptTexts, IsKeptText};
ghost use Rattle.cell_bytes.specs.Vector.{attribute, attributes, name_text, place, point, sounding, vector_pointer};
ghost use Rattle.cell_bytes.specs.Feature.{feature_pointer, object_name, related_object};
ghost use Rattle.cell_bytes.specs.FieldValues.{IsCoordInRange, IsEntryInRange, IsFoidInRange, IsNameInRange};
ghost use Rattle.cell_bytes.specs.FieldValues.{IsPointerInRange, IsRelatedInRange};

use crate::subfields::{put_b11, put_b12, put_b24, put_text};
use chart_model::{AttrMap, Coord, Foid, Name, Octets, Pointer, Related};
use std::alloc::AllocError;

/// Adds the name of a record.
#[tactic(auto, unfolding(crate::specs::Vector::name_text, crate::specs::Subfields::b11, crate::specs::Subfields::b14))]
pub(crate) fn put_name(out: &mut Octets, name: Name) -> Result<(), AllocError>
    ensures bytes { OnOk result (out.new ≡ out.old ++ name_text name) }
    ensures in_range { IsNameInRange name }
{
    let [a, b, c, d] = name.rcid.to_le_bytes();
    out.extend_from_slice(&[name.rcnm, a, b, c, d])
}

/// Adds an attribute.
#[tactic(auto, unfolding(crate::specs::Vector::attribute))]
pub(crate) fn put_attribute(out: &mut Octets, code: u16, value: &[u8]) -> Result<(), AllocError>
    ensures bytes { OnOk result (out.new ≡ out.old ++ attribute code value.now) }
    ensures in_range { IsKeptText value.now → IsEntryInRange (code, value.now) }
{
    put_b12(out, code)?;
    put_text(out, value)
}

/// Adds attributes in the order of their codes.
#[tactic(auto, unfolding(crate::specs::Vector::attributes))]
pub(crate) fn put_attributes(out: &mut Octets, attrs: &AttrMap) -> Result<(), AllocError>
    ensures bytes { OnOk result (out.new ≡ out.old ++ attributes attrs.now) }
    ensures in_range { OnOk result (AreKeptTexts attrs.now → AllByRecursion IsEntryInRange (map.entries attrs.now)) }
{
    for attr in attrs.as_slice() {
        put_attribute(out, attr.code, attr.value.as_slice())?;
    }
    Ok(())
}

/// Adds a pointer of a vector record.
#[tactic(auto, unfolding(crate::specs::Vector::vector_pointer, crate::specs::Vector::name_text, crate::specs::Subfields::b11, crate::specs::Subfields::b14))]
fn put_vector_pointer(out: &mut Octets, pointer: Pointer) -> Result<(), AllocError>
    ensures bytes { OnOk result (out.new ≡ out.old ++ vector_pointer pointer) }
    ensures in_range { IsPointerInRange pointer }
{
    let [a, b, c, d] = pointer.target.rcid.to_le_bytes();
    out.extend_from_slice(&[
        pointer.target.rcnm,
        a,
        b,
        c,
        d,
        pointer.ornt,
        pointer.usag,
        pointer.topi,
        pointer.mask,
    ])
}

/// Adds the pointers of a vector record.
pub(crate) fn put_vector_pointers(out: &mut Octets, pointers: &[Pointer]) -> Result<(), AllocError>
    ensures bytes { OnOk result (out.new ≡ out.old ++ flat_map vector_pointer pointers.now) }
    ensures in_range { OnOk result (AllByRecursion IsPointerInRange pointers.now) }
{
    for pointer in pointers {
        put_vector_pointer(out, *pointer)?;
    }
    Ok(())
}

/// Adds latitude and longitude.
#[tactic(auto, unfolding(crate::specs::Vector::place, crate::specs::Subfields::b24))]
fn put_place(out: &mut Octets, coord: Coord) -> Result<(), AllocError>
    ensures { OnOk result (out.new ≡ out.old ++ place coord) }
{
    let (latitude, longitude) = (coord.y, coord.x);
    let [a, b, c, d] = latitude.to_le_bytes();
    let [e, f, g, h] = longitude.to_le_bytes();
    out.extend_from_slice(&[a, b, c, d, e, f, g, h])
}

/// Adds a coordinate that has no depth.
#[tactic(auto, unfolding(crate::specs::Vector::point))]
fn put_point(out: &mut Octets, coord: Coord) -> Result<(), AllocError>
    ensures { OnOk result (out.new ≡ out.old ++ point coord) }
{
    match coord.z {
        Some(_) => Ok(()),
        None => put_place(out, coord),
    }
}

/// Adds the coordinates that have no depth.
pub(crate) fn put_points(out: &mut Octets, coords: &[Coord]) -> Result<(), AllocError>
    ensures { OnOk result (out.new ≡ out.old ++ flat_map point coords.now) }
{
    for coord in coords {
        put_point(out, *coord)?;
    }
    Ok(())
}

/// Adds a coordinate that has a depth, which is written in decimetres.
#[tactic(auto, unfolding(crate::specs::Vector::sounding))]
fn put_sounding(out: &mut Octets, coord: Coord) -> Result<(), AllocError>
    ensures bytes { OnOk result (out.new ≡ out.old ++ sounding coord) }
    ensures in_range { IsCoordInRange coord }
{
    match coord.z {
        Some(depth) => {
            put_place(out, coord)?;
            put_b24(out, depth / 10)
        }
        None => Ok(()),
    }
}

/// Adds the coordinates that have a depth.
pub(crate) fn put_soundings(out: &mut Octets, coords: &[Coord]) -> Result<(), AllocError>
    ensures bytes { OnOk result (out.new ≡ out.old ++ flat_map sounding coords.now) }
    ensures in_range { OnOk result (AllByRecursion IsCoordInRange coords.now) }
{
    for coord in coords {
        put_sounding(out, *coord)?;
    }
    Ok(())
}

/// Adds the identifier of a feature object.
#[tactic(auto, unfolding(crate::specs::Feature::object_name, crate::specs::Subfields::b12, crate::specs::Subfields::b14))]
pub(crate) fn put_foid(out: &mut Octets, foid: Foid) -> Result<(), AllocError>
    ensures bytes { OnOk result (out.new ≡ out.old ++ object_name foid) }
    ensures in_range { IsFoidInRange foid }
{
    let [a, b] = foid.agen.to_le_bytes();
    let [c, d, e, f] = foid.fidn.to_le_bytes();
    let [g, h] = foid.fids.to_le_bytes();
    out.extend_from_slice(&[a, b, c, d, e, f, g, h])
}

/// Adds a related object, without a comment.
#[tactic(auto, unfolding(crate::specs::Feature::related_object))]
fn put_related_object(out: &mut Octets, related: Related) -> Result<(), AllocError>
    ensures bytes { OnOk result (out.new ≡ out.old ++ related_object related) }
    ensures in_range { IsRelatedInRange related }
{
    put_foid(out, related.foid)?;
    put_b11(out, related.rind)?;
    put_text(out, &[])
}

/// Adds the related objects of a feature.
pub(crate) fn put_related(out: &mut Octets, related: &[Related]) -> Result<(), AllocError>
    ensures bytes { OnOk result (out.new ≡ out.old ++ flat_map related_object related.now) }
    ensures in_range { OnOk result (AllByRecursion IsRelatedInRange related.now) }
{
    for object in related {
        put_related_object(out, *object)?;
    }
    Ok(())
}

/// Adds a pointer of a feature.
#[tactic(auto, unfolding(crate::specs::Feature::feature_pointer, crate::specs::Vector::name_text, crate::specs::Subfields::b11, crate::specs::Subfields::b14))]
fn put_feature_pointer(out: &mut Octets, pointer: Pointer) -> Result<(), AllocError>
    ensures bytes { OnOk result (out.new ≡ out.old ++ feature_pointer pointer) }
    ensures in_range { IsPointerInRange pointer }
{
    let [a, b, c, d] = pointer.target.rcid.to_le_bytes();
    out.extend_from_slice(&[
        pointer.target.rcnm,
        a,
        b,
        c,
        d,
        pointer.ornt,
        pointer.usag,
        pointer.mask,
    ])
}

/// Adds the pointers of a feature.
pub(crate) fn put_feature_pointers(out: &mut Octets, pointers: &[Pointer]) -> Result<(), AllocError>
    ensures bytes { OnOk result (out.new ≡ out.old ++ flat_map feature_pointer pointers.now) }
    ensures in_range { OnOk result (AllByRecursion IsPointerInRange pointers.now) }
{
    for pointer in pointers {
        put_feature_pointer(out, *pointer)?;
    }
    Ok(())
}
