//! Coordinates: longitude and latitude, and for soundings a depth.
//!
//! A place off the globe, a depth that isn't a whole number of decimetres in six digits (VE3D, S-57 Part 3), and
//! soundings among points without a depth are refused, or a checkpoint could say a chart that no files build.

ghost use Rattle.std.specs.Prelude.{◌≡◌, ◌<◌, ◌^◌, ◌++◌, length, is_some, is_none, OnOk};
ghost use Rattle.std.specs.List.{list_all};
ghost use Rattle.page_parts.specs.Reader.{Finds};
ghost use Rattle.page_parts.specs.Coordinates.{are_alike, coords, coords_at, depth_at, is_coord, is_depth};
ghost use Rattle.page_parts.specs.Coordinates.{signed_number, signed_number_at};
ghost use Rattle.page_parts.specs.Numbers.{byte};

use crate::fault::PageFault;
use crate::lists::{Part, put_list, read_list};
use crate::numbers::read_four_bytes;
use chart_model::{Coord, Coords, Octets};
use std::alloc::{AllocError, Global};

/// The bytes of a whole number in two's complement.
#[tactic(auto, unfolding(crate::specs::Coordinates::signed_number))]
fn signed_bytes(value: i32) -> [u8; 4]
    ensures { result ≡ signed_number value }
{
    value.cast_unsigned().to_be_bytes()
}

/// The nine bytes of a place, and of the flag behind it that tells whether a depth follows.
#[tactic(auto, unfolding(crate::specs::Coordinates::signed_number))]
fn place_bytes(value: Coord, flag: u8) -> [u8; 9]
    ensures { result ≡ signed_number value.x ++ signed_number value.y ++ byte flag }
{
    let [x0, x1, x2, x3] = signed_bytes(value.x);
    let [y0, y1, y2, y3] = signed_bytes(value.y);
    [x0, x1, x2, x3, y0, y1, y2, y3, flag]
}

/// Reads a whole number of four bytes in two's complement.
#[tactic(auto, unfolding(crate::specs::Coordinates::signed_number_at))]
fn read_signed(bytes: &[u8]) -> Result<(i32, &[u8]), PageFault>
    ensures { Finds (λ read. (read.0, read.1.now)) result (signed_number_at bytes.now) }
{
    let (value, rest) = read_four_bytes(bytes)?;
    Ok((value.cast_signed(), rest))
}

/// Reads a flag, and the depth where there is one.
#[tactic(auto, unfolding(crate::specs::Coordinates::depth_at))]
fn read_depth(bytes: &[u8]) -> Result<(Option<i32>, &[u8]), PageFault>
    ensures { Finds (λ read. (read.0, read.1.now)) result (depth_at bytes.now) }
{
    match bytes {
        [0, rest @ ..] => Ok((None, rest)),
        [1, rest @ ..] => {
            let (value, rest) = read_signed(rest)?;
            Ok((Some(value), rest))
        }
        _ => Err(PageFault::Unspelled),
    }
}

/// Whether a depth in centimetres is one in decimetres of at most six digits.
fn is_depth(value: i32) -> bool
    ensures { result ≡ is_depth value }
{
    let depth = value.unsigned_abs();
    depth <= 9_999_990 && depth % 10 == 0
}

/// Whether a coordinate is on the globe, and its depth can be one.
fn is_coord(coord: Coord) -> bool
    ensures { result ≡ is_coord coord }
{
    let depth = match coord.z {
        Some(value) => is_depth(value),
        None => true,
    };
    coord.x.unsigned_abs() <= 1_800_000_000 && coord.y.unsigned_abs() <= 900_000_000 && depth
}

impl Part for Coord {
    ghost use Rattle.page_parts.specs.Coordinates.{coord, coord_at};

    ghost part_at = { coord_at };

    ghost spelling = { coord };

    ghost is_in_range = { λ _. Unit {0} };

    #[tactic(auto, unfolding(crate::specs::Coordinates::coord_at))]
    fn read(_alloc: Global, bytes: &[u8]) -> Result<(Coord, &[u8]), PageFault> {
        let (x, rest) = read_signed(bytes)?;
        let (y, rest) = read_signed(rest)?;
        let (z, rest) = read_depth(rest)?;
        let coord = Coord { x, y, z };
        if !is_coord(coord) {
            return Err(PageFault::Unspelled);
        }
        Ok((coord, rest))
    }

    #[tactic(auto, unfolding(crate::specs::Coordinates::coord, crate::specs::Coordinates::depth))]
    fn put(&self, out: &mut Octets) -> Result<(), AllocError> {
        match self.z {
            Some(depth) => {
                out.extend_from_slice(&place_bytes(*self, 1))?;
                out.extend_from_slice(&signed_bytes(depth))
            }
            None => out.extend_from_slice(&place_bytes(*self, 0)),
        }
    }
}

/// Whether all coordinates have a depth.
fn all_have_depth(values: &[Coord]) -> bool
    ensures { result ≡ list_all (λ value. is_some value.z) values.now }
{
    values.iter().all(|value| value.z.is_some())
}

/// Whether no coordinate has a depth.
fn none_has_depth(values: &[Coord]) -> bool
    ensures { result ≡ list_all (λ value. is_none value.z) values.now }
{
    values.iter().all(|value| value.z.is_none())
}

/// Whether all coordinates have a depth, or none has.
fn are_alike(values: &[Coord]) -> bool
    ensures { result ≡ are_alike values.now }
{
    all_have_depth(values) || none_has_depth(values)
}

/// Adds the coordinates of a record.
#[tactic(auto, unfolding(crate::specs::Coordinates::coords))]
pub fn put_coords(out: &mut Octets, values: &[Coord]) -> Result<(), AllocError>
    ensures bytes { OnOk result (out.new ≡ out.old ++ coords values.now) }
    ensures count { OnOk result (length values.now < 2 ^ 64) }
{
    put_list(out, values)
}

/// Reads the coordinates of a record.
#[tactic(auto, unfolding(crate::specs::Coordinates::coords_at))]
pub fn read_coords(alloc: Global, bytes: &[u8]) -> Result<(Coords, &[u8]), PageFault>
    ensures { Finds (λ read. (read.0, read.1.now)) result (coords_at bytes.now) }
{
    let (values, rest) = read_list(alloc, bytes)?;
    if !are_alike(values.as_slice()) {
        return Err(PageFault::Unspelled);
    }
    Ok((values, rest))
}
