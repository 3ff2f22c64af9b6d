//! Whether a leg meets an area.
//!
//! A leg that meets no segment of the boundary lies inside with all of it or with nothing, so one of its points tells.

ghost use Rattle.std.specs.Prelude.{◌↔◌, IsTrue};
ghost use Rattle.plane_geometry.specs.EvenOdd.{segments, all_segments};
ghost use Rattle.route_geometry.specs.Area.{MeetsSome, MeetsArea};
ghost use Rattle.route_geometry.specs.Points.{ReachesInside};

use crate::leg::{Leg, leg_meets_segment};
use plane_geometry::{Pt, Ring, inside_even_odd};

/// Whether the leg meets a segment of a ring.
fn meets_ring(leg: &Leg, ring: &[Pt]) -> bool
    ensures { IsTrue result ↔ MeetsSome leg.now (segments ring.now) }
{
    let Some(last) = ring.last() else {
        return false;
    };
    let mut from = *last;
    for to in ring {
        if leg_meets_segment(leg, from, *to) {
            return true;
        }
        from = *to;
    }
    false
}

/// Whether the leg meets a segment of the rings. It takes no memory.
pub fn leg_meets_boundary(leg: &Leg, rings: &[Ring]) -> bool
    ensures { IsTrue result ↔ MeetsSome leg.now (all_segments rings.now) }
{
    for ring in rings {
        if meets_ring(leg, ring.as_slice()) {
            return true;
        }
    }
    false
}

/// Whether the leg meets an area: a segment of its rings, or with the leg's first point inside them by
/// the even-odd rule or on one. It takes no memory.
pub fn leg_meets_area(leg: &Leg, rings: &[Ring]) -> bool
    ensures segments { IsTrue result ↔ MeetsArea leg.now rings.now }
    // That is so exactly where a point of the widened leg is inside the rings or on one, of all rational points.
    ensures points { IsTrue result ↔ ReachesInside leg.now rings.now }
{
    inside_even_odd(leg.a, rings) || leg_meets_boundary(leg, rings)
}
