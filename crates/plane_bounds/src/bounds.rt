//! Boxes, and the box round rings.
//!
//! The bounds of no point reach from the greatest number to the least. So any point that is put to them is their only
//! one, no box meets them, and a box is made of points without a case for the first.

ghost use Rattle.std.specs.Prelude.{◌≡◌, ◌↔◌, ◌≤ℤ◌, IsTrue};
ghost use Rattle.std.specs.Int.{int_min, int_max};
ghost use Rattle.plane_bounds.specs.declared.bounds.Bounds.{Bounds};
ghost use Rattle.plane_bounds.specs.Bounds.{HasGrown, HaveCommon, Holds, IsBox, RingsIn};

use plane_geometry::{Pt, Ring, inside_even_odd};

/// A box: all points from one longitude to another and from one latitude to another, both ends included, in degrees
/// times 10,000,000. It has 64 bits, since a box that is widened reaches past the coordinates of points.
#[derive(Clone, Copy, Debug, PartialEq, Eq)]
pub struct Bounds {
    /// The west border.
    pub x0: i64,
    /// The south border.
    pub y0: i64,
    /// The east border.
    pub x1: i64,
    /// The north border.
    pub y1: i64,
}

/// Whether a number lies from one to another.
fn is_from_to(low: i64, n: i32, high: i64) -> bool
    ensures { IsTrue result ↔ ((low ≤ℤ n) × (n ≤ℤ high)) }
{
    low <= i64::from(n) && i64::from(n) <= high
}

/// Whether two numbers are at most two others.
fn are_in_order(a: i64, b: i64, c: i64, d: i64) -> bool
    ensures { IsTrue result ↔ ((a ≤ℤ b) × (c ≤ℤ d)) }
{
    a <= b && c <= d
}

/// Whether a number is from one to another and from a third to a fourth.
fn have_common(low: i64, high: i64, from: i64, to: i64) -> bool
    ensures { IsTrue result ↔ HaveCommon low high from to }
{
    are_in_order(low, high, from, to) && are_in_order(low, to, from, high)
}

/// The lesser of a border and a coordinate.
fn lesser(border: i64, n: i32) -> i64
    ensures { result ≡ int_min border n }
{
    border.min(i64::from(n))
}

/// The greater of a border and a coordinate.
fn greater(border: i64, n: i32) -> i64
    ensures { result ≡ int_max border n }
{
    border.max(i64::from(n))
}

impl Bounds {
    ghost use Rattle.std.specs.Prelude.{◌≡◌, ◌↔◌, IsTrue};
    ghost use Rattle.plane_bounds.specs.Bounds.{IsIn, Holds, Meets, RingsIn, around, box_at, with_point};
    ghost use Rattle.plane_bounds.specs.Inside.{is_inside};

    /// The bounds of no point.
    pub const NOTHING: Bounds = Bounds {
        x0: i64::MAX,
        y0: i64::MAX,
        x1: i64::MIN,
        y1: i64::MIN,
    };

    /// The box of a point alone. It takes no memory.
    pub fn at(p: Pt) -> Bounds
        ensures { result ≡ box_at p }
    {
        let x = i64::from(p.x);
        let y = i64::from(p.y);
        Bounds {
            x0: x,
            y0: y,
            x1: x,
            y1: y,
        }
    }

    /// Whether a point is in the box. It takes no memory.
    pub fn holds(self, p: Pt) -> bool
        ensures { IsTrue result ↔ IsIn self p }
    {
        is_from_to(self.x0, p.x, self.x1) && is_from_to(self.y0, p.y, self.y1)
    }

    /// Whether the box has a point in common with another: boxes that touch meet. It takes no memory.
    pub fn meets(self, other: Bounds) -> bool
        ensures { IsTrue result ↔ Meets self other }
    {
        have_common(self.x0, self.x1, other.x0, other.x1)
            && have_common(self.y0, self.y1, other.y0, other.y1)
    }

    /// Whether a point is inside rings, by the even-odd rule, whose points are all in the box: the box is asked first.
    /// It takes no memory.
    pub fn holds_inside(self, p: Pt, rings: &[Ring]) -> bool
        requires { RingsIn self rings.now }
        ensures { result ≡ is_inside p rings.now }
    {
        self.holds(p) && inside_even_odd(p, rings)
    }

    /// The box with one more point. It takes no memory.
    pub fn with(self, p: Pt) -> Bounds
        ensures value { result ≡ with_point self p }
        ensures kept { Holds result self }
        ensures there { IsIn result p }
        ensures least { (other : Bounds) → Holds other self → IsIn other p → Holds other result }
    {
        Bounds {
            x0: lesser(self.x0, p.x),
            y0: lesser(self.y0, p.y),
            x1: greater(self.x1, p.x),
            y1: greater(self.y1, p.y),
        }
    }

    /// The least box round this one and another. It takes no memory.
    pub fn around(self, other: Bounds) -> Bounds
        ensures value { result ≡ around self other }
        ensures one { Holds result self }
        ensures other { Holds result other }
        ensures least { (grown : Bounds) → Holds grown self → Holds grown other → Holds grown result }
    {
        Bounds {
            x0: self.x0.min(other.x0),
            y0: self.y0.min(other.y0),
            x1: self.x1.max(other.x1),
            y1: self.y1.max(other.y1),
        }
    }
}

/// The box with the points of a ring.
fn with_ring(bounds: Bounds, ring: &[Pt]) -> Bounds
    ensures { HasGrown bounds result ring.now }
{
    let mut grown = bounds;
    for p in ring {
        grown = grown.with(*p);
    }
    grown
}

/// The least box round all points of rings: of none, one that no point is in. It takes no memory.
pub fn bounds_of(rings: &[Ring]) -> Bounds
    ensures all { RingsIn result rings.now }
    ensures least { (other : Bounds) → IsBox other → RingsIn other rings.now → Holds other result }
{
    let mut bounds = Bounds::NOTHING;
    for ring in rings {
        bounds = with_ring(bounds, ring.as_slice());
    }
    bounds
}
