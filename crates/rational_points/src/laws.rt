//! What holds of the definitions.
//!
//! The even-odd rule asks along one ray from a point, and says nothing of other points. That it gives one answer to all
//! points between which no ring passes is what makes "inside" a word for a region, and it is said here. A point may be
//! written over many denominators, and whole numbers over 1: that nothing hangs on this is said too.

ghost use Rattle.std.specs.Prelude.{◌↔◌, List};
ghost use Rattle.plane_geometry.specs.declared.point.Pt.{Pt};
ghost use Rattle.plane_geometry.specs.EvenOdd.{IsInside};
ghost use Rattle.rational_points.specs.RationalPoint.{RationalPoint, whole, IsSamePoint};
ghost use Rattle.rational_points.specs.RationalPoint.{LiesInside, LiesOnRings, MeetsRings};

/// Two rational points are both inside rings or both outside, where the segment that joins them has no
/// point in common with a segment of the rings.
pub fn joined_points_are_alike()
    ensures { (p q : RationalPoint) (rings : List (List Pt)) → ¬ MeetsRings p q rings →
        (LiesInside p rings ↔ LiesInside q rings) }
{}

/// A point is on rings, or inside them, whatever denominator it is written over.
pub fn same_points_are_alike()
    ensures on_rings { (p q : RationalPoint) (rings : List (List Pt)) → IsSamePoint p q →
        LiesOnRings p rings → LiesOnRings q rings }
    ensures inside { (p q : RationalPoint) (rings : List (List Pt)) → IsSamePoint p q →
        LiesInside p rings → LiesInside q rings }
{}

/// A point of whole numbers is inside rings as a rational point where it is as a point of the plane.
pub fn whole_points_are_alike()
    ensures { (p : Pt) (rings : List (List Pt)) → LiesInside (whole p) rings ↔ IsInside p rings }
{}
