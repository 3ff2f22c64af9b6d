//! One line of a route's file: the box or a point.
//!
//! Words are parted by one space each: two in a row have an empty word between them, which is no number, so such a line
//! is bad. A longitude of up to 180 degrees, in degrees times 10,000,000, fits 32 bits with its sign.

ghost use Rattle.std.specs.Prelude.{◌≡◌, ◌<◌, ◌^◌};
ghost use Rattle.route_check.specs.RouteLine.{half_width_of, coordinate_of, box_with, box_of, point_with, point_of};

use plane_geometry::Pt;
use text_lines::cut_part;
use text_scan::{read_number, read_signed};

/// The largest half-width, in degrees times 10,000,000: 10 degrees.
const MOST_HALF_WIDTH: u64 = 100_000_000;

/// The longitude that lies farthest from 0, in degrees times 10,000,000: 180 degrees.
const MOST_LONGITUDE: u64 = 1_800_000_000;

/// The latitude that lies farthest from 0, in degrees times 10,000,000: 90 degrees.
const MOST_LATITUDE: u64 = 900_000_000;

/// The half-widths of the box that legs are widened by: `w` in longitude and `h` in latitude, in degrees times
/// 10,000,000.
#[derive(Clone, Copy, Debug, PartialEq, Eq)]
pub(crate) struct HalfWidths {
    pub w: u32,
    pub h: u32,
}

/// The half-width that digits write: 0 to 100,000,000.
fn read_half_width(digits: &[u8]) -> Option<u32>
    ensures { result ≡ half_width_of digits.now }
{
    match read_number(digits) {
        Some(number) if number <= MOST_HALF_WIDTH => Some(number as u32),
        _ => None,
    }
}

/// The coordinate that a text is, at most so far from 0.
fn read_coordinate(text: &[u8], most: u64) -> Option<i32>
    requires { most < 2 ^ 31 }
    ensures { result ≡ coordinate_of most text.now }
{
    match read_signed(text) {
        Some(number) if number.unsigned_abs() <= most => Some(number as i32),
        _ => None,
    }
}

/// The half-widths of three words.
fn read_half_widths(word: &[u8], w: &[u8], h: &[u8]) -> Option<HalfWidths>
    ensures { result ≡ box_with word.now (half_width_of w.now) (half_width_of h.now) }
{
    if word != b"box".as_slice() {
        return None;
    }
    let w = read_half_width(w)?;
    let h = read_half_width(h)?;
    Some(HalfWidths { w, h })
}

/// The half-widths that a line `box W H` has. It takes no memory.
#[tactic(auto, unfolding(crate::specs::RouteLine::box_in))]
pub(crate) fn read_box(line: &[u8]) -> Option<HalfWidths>
    ensures { result ≡ box_of line.now }
{
    let (word, rest) = cut_part(line, b' ');
    let (w, rest) = cut_part(rest?, b' ');
    let (h, rest) = cut_part(rest?, b' ');
    match rest {
        Some(_) => None,
        None => read_half_widths(word, w, h),
    }
}

/// The point of two words.
fn read_words(x: &[u8], y: &[u8]) -> Option<Pt>
    ensures { result ≡ point_with (coordinate_of 1800000000 x.now) (coordinate_of 900000000 y.now) }
{
    let x = read_coordinate(x, MOST_LONGITUDE)?;
    let y = read_coordinate(y, MOST_LATITUDE)?;
    Some(Pt { x, y })
}

/// The point that a line `X Y` is: a longitude and a latitude. It takes no memory.
#[tactic(auto, unfolding(crate::specs::RouteLine::point_in))]
pub(crate) fn read_point(line: &[u8]) -> Option<Pt>
    ensures { result ≡ point_of line.now }
{
    let (x, rest) = cut_part(line, b' ');
    let (y, rest) = cut_part(rest?, b' ');
    match rest {
        Some(_) => None,
        None => read_words(x, y),
    }
}
