//! The bands in which a leg and a segment are near on an axis: between two sides, one for each direction in which they
//! may differ.
//!
//! "At most so far apart" is no linear condition, but "at most so far" each way is one. The two sides of a band add up
//! to the same number everywhere, twice the reach, so a place can't be outside both.

ghost use Rattle.std.specs.Prelude.{◌≡◌, ◌-ℤ◌, ◌<◌, ◌^◌, unsigned_abs};
ghost use Rattle.route_geometry.specs.Side.{IsOpposite};

use crate::side::Side;
use plane_geometry::Pt;

/// A way on an axis, by the coordinates of its two ends.
#[derive(Clone, Copy)]
pub(crate) struct Way {
    from: i32,
    to: i32,
}

impl Way {
    /// The longitudes of two points.
    pub(crate) fn of_x(from: Pt, to: Pt) -> Way
        ensures from { result.from ≡ from.x }
        ensures to { result.to ≡ to.x }
    {
        Way {
            from: from.x,
            to: to.x,
        }
    }

    /// The latitudes of two points.
    pub(crate) fn of_y(from: Pt, to: Pt) -> Way
        ensures from { result.from ≡ from.y }
        ensures to { result.to ≡ to.y }
    {
        Way {
            from: from.y,
            to: to.y,
        }
    }
}

/// How far the coordinate `to` is above `from`.
fn difference(from: i32, to: i32) -> i64
    ensures value { result ≡ to -ℤ from }
    ensures bounded { unsigned_abs result < 2 ^ 32 }
{
    i64::from(to) - i64::from(from)
}

/// Two sides between which a leg and a segment are near on an axis.
#[derive(Clone, Copy)]
pub(crate) struct Band {
    pub(crate) low: Side,
    pub(crate) high: Side,
    ghost opposite: { IsOpposite low high },
}

impl Band {
    ghost use Rattle.std.specs.Prelude.{◌↔◌, ◌≤◌, ◌*◌};
    ghost use Rattle.route_geometry.specs.Leg.{apart};
    ghost use Rattle.route_geometry.specs.Side.{Place};
    ghost use Rattle.route_geometry.specs.Band.{IsInBand};

    /// The band in which a leg and a segment differ by at most `reach` on an axis.
    pub(crate) fn new(reach: u32, leg: Way, segment: Way) -> Band
        ensures { (p : Place) →
            (apart p.d p.t p.s leg.from leg.to segment.from segment.to ≤ p.d * reach) ↔ IsInBand p result }
    {
        let reach = i64::from(reach);
        let apart = difference(segment.from, leg.from);
        let leg_way = difference(leg.from, leg.to);
        let segment_way = difference(segment.from, segment.to);
        Band {
            low: Side {
                start: reach + apart,
                leg: leg_way,
                segment: -segment_way,
            },
            high: Side {
                start: reach - apart,
                leg: -leg_way,
                segment: segment_way,
            },
        }
    }
}
