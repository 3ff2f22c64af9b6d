//! Whether a point is inside rings, by the even-odd rule.
//!
//! The rings of an area are its outer and its inner ones in one list: a place in a hole is inside two of them, and so
//! outside of the area, and nobody has to say which ring is a hole.

ghost use Rattle.std.specs.Prelude.{◌≡◌, ◌%◌, ◌↔◌, IsTrue, IsNone, IfSome};
ghost use Rattle.std.specs.List.{Any, count_by};
ghost use Rattle.plane_geometry.specs.Segment.{LiesOnSegment};
ghost use Rattle.plane_geometry.specs.EvenOdd.{segments, crosses, IsInside};

use crate::point::{Pt, Ring};
use crate::ray::crosses_ray;
use crate::segment::on_segment;

/// Whether an odd number of a ring's segments cross the ray from `p` to greater x; `None` where `p` is
/// on one of them.
fn crosses_odd(p: Pt, ring: &[Pt]) -> Option<bool>
    ensures on { IsNone result ↔ Any (λ s. LiesOnSegment p s.0 s.1) (segments ring.now) }
    ensures odd { IfSome result (λ odd. IsTrue odd ↔ (count_by (crosses p) (segments ring.now) % 2 ≡ 1)) }
{
    let Some(last) = ring.last() else {
        return Some(false);
    };
    let mut from = *last;
    let mut odd = false;
    for to in ring {
        if on_segment(p, from, *to) {
            return None;
        }
        odd ^= crosses_ray(p, from, *to);
        from = *to;
    }
    Some(odd)
}

/// Whether `p` is inside rings: on a segment of one of them, or where an odd number of their segments cross the ray
/// from `p` to greater x (the even-odd rule). It takes no memory.
pub fn inside_even_odd(p: Pt, rings: &[Ring]) -> bool
    ensures { IsTrue result ↔ IsInside p rings.now }
{
    let mut odd = false;
    for ring in rings {
        match crosses_odd(p, ring.as_slice()) {
            None => return true,
            Some(crossed) => odd ^= crossed,
        }
    }
    odd
}
