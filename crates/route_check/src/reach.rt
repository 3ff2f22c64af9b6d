//! How far a widened leg reaches.
//!
//! A grid is asked with this box, and so is the box of each object, before anything is tried exactly: whatever the leg
//! meets has a point in it. It has 64 bits, so that any leg and any half-widths have one.

ghost use Rattle.std.specs.Prelude.{◌≡◌, ◌-ℤ◌, ◌+ℤ◌, pos};
ghost use Rattle.std.specs.Int.{int_min, int_max};
ghost use Rattle.route_check.specs.Reach.{reach_of};

use plane_bounds::Bounds;
use route_geometry::Leg;

/// The least coordinate that is at most `half` from one of two, in degrees times 10,000,000.
fn lowest(from: i32, to: i32, half: u32) -> i64
    ensures { result ≡ int_min from to -ℤ pos half }
{
    i64::from(from.min(to)) - i64::from(half)
}

/// The greatest such coordinate.
fn highest(from: i32, to: i32, half: u32) -> i64
    ensures { result ≡ int_max from to +ℤ pos half }
{
    i64::from(from.max(to)) + i64::from(half)
}

/// The box that a leg is in when it is widened: a leg near the end of 32 bits reaches past it. It takes no memory.
pub(crate) fn reach_of(leg: Leg) -> Bounds
    ensures { result ≡ reach_of leg }
{
    Bounds {
        x0: lowest(leg.a.x, leg.b.x, leg.w),
        y0: lowest(leg.a.y, leg.b.y, leg.h),
        x1: highest(leg.a.x, leg.b.x, leg.w),
        y1: highest(leg.a.y, leg.b.y, leg.h),
    }
}
