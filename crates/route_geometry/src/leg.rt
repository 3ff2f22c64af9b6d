//! Legs of a route, and whether one meets a segment.
//!
//! A leg is widened by a box and not by a circle, so that the test is exact in whole numbers.

ghost use Rattle.std.specs.Prelude.{◌↔◌, IsTrue};
ghost use Rattle.route_geometry.specs.Leg.{MeetsSegment, MeetsPoint};

use crate::band::{Band, Way};
use crate::meeting::bands_meet;
use plane_geometry::Pt;

/// A leg of a route from `a` to `b`, widened by `w` in x and by `h` in y, in degrees times 10,000,000: all
/// that differs by at most so much from a point of the segment from `a` to `b`.
///
/// A leg is straight in longitude and latitude, neither a rhumb line nor a great circle, and doesn't cross the meridian
/// of 180 degrees.
#[derive(Clone, Copy, Debug, PartialEq, Eq)]
pub struct Leg {
    pub a: Pt,
    pub b: Pt,
    pub w: u32,
    pub h: u32,
}

/// Whether a point of the leg and a point of the segment from `c` to `e` differ by at most the leg's `w`
/// in x and at most its `h` in y. The leg and the segment may be single points. It takes no memory.
pub fn leg_meets_segment(leg: &Leg, c: Pt, e: Pt) -> bool
    ensures { IsTrue result ↔ MeetsSegment leg.now c e }
{
    let x = Band::new(leg.w, Way::of_x(leg.a, leg.b), Way::of_x(c, e));
    let y = Band::new(leg.h, Way::of_y(leg.a, leg.b), Way::of_y(c, e));
    bands_meet(x, y)
}

/// Whether a point of the leg differs from `p` by at most the leg's `w` in x and at most its `h` in y.
/// It takes no memory.
pub fn leg_meets_point(leg: &Leg, p: Pt) -> bool
    ensures { IsTrue result ↔ MeetsPoint leg.now p }
{
    leg_meets_segment(leg, p, p)
}
