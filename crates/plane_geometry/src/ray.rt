//! Segments that cross a ray to greater x: the even-odd rule counts them.
//!
//! A ray that goes through a corner meets two segments of the ring there. Of each segment the lower end counts to it
//! and the upper one doesn't, and a level segment is never crossed: so inside and outside don't change places at a
//! corner.

ghost use Rattle.std.specs.Prelude.{◌≡◌};
ghost use Rattle.plane_geometry.specs.EvenOdd.{crosses};

use crate::orientation::orient;
use crate::point::Pt;

/// Whether the segment from `a` to `b` crosses the ray from `p` to greater x. An end at the height of
/// `p` counts as below it, so that a ray through a corner of a ring crosses one of its two segments or
/// both or none, as the ring goes on. It takes no memory.
pub fn crosses_ray(p: Pt, a: Pt, b: Pt) -> bool
    ensures { result ≡ crosses p (a, b) }
{
    if a.y <= p.y {
        p.y < b.y && orient(a, b, p) > 0
    } else {
        b.y <= p.y && orient(a, b, p) < 0
    }
}
