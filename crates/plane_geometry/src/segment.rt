//! Points on a segment: a place on the boundary of an area belongs to it, and no ray is asked for it.
//!
//! It takes both tests: the line goes on beyond the ends of its segment, and most of the box isn't on the line. A
//! segment of no length is its one point, since then every point is on the line and the box alone tells.

ghost use Rattle.std.specs.Prelude.{◌↔◌, IsTrue};
ghost use Rattle.plane_geometry.specs.Segment.{LiesOnSegment, IsBetween, IsInBox};

use crate::orientation::orient;
use crate::point::Pt;

/// Whether a coordinate is one of two or lies between them.
fn is_between(c: i32, a: i32, b: i32) -> bool
    ensures { IsTrue result ↔ IsBetween c a b }
{
    (a <= c && c <= b) || (b <= c && c <= a)
}

/// Whether `p` lies in the box of which `a` and `b` are opposite corners.
fn is_in_box(p: Pt, a: Pt, b: Pt) -> bool
    ensures { IsTrue result ↔ IsInBox p a b }
{
    is_between(p.x, a.x, b.x) && is_between(p.y, a.y, b.y)
}

/// Whether `p` lies on the segment from `a` to `b`, its ends among it. It takes no memory.
pub fn on_segment(p: Pt, a: Pt, b: Pt) -> bool
    ensures { IsTrue result ↔ LiesOnSegment p a b }
{
    is_in_box(p, a, b) && orient(a, b, p) == 0
}
