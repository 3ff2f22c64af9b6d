//! Whether an area covers a leg.
//!
//! A widened leg has more points than can be tried. But where no segment of the rings reaches it, all of its points are
//! inside them or none is, and so its first point tells.

ghost use Rattle.std.specs.Prelude.{◌≡◌, ◌↔◌, IsTrue};
ghost use Rattle.coverage_points.specs.Cover.{IsCovered, is_covered};

use plane_geometry::{Ring, inside_even_odd};
use route_geometry::{Leg, leg_meets_boundary};

/// Whether all points of the widened leg are inside the rings by the even-odd rule, and none is on one of them. It
/// takes no memory.
pub fn covers(leg: &Leg, rings: &[Ring]) -> bool
    ensures points { IsTrue result ↔ IsCovered leg.now rings.now }
    // That is so exactly where the leg's first point is inside and the leg meets no segment of the rings.
    ensures tested { result ≡ is_covered leg.now rings.now }
{
    inside_even_odd(leg.a, rings) && !leg_meets_boundary(leg, rings)
}
