//! What holds of the definitions.
//!
//! The even-odd rule counts by signs alone which segments cross a ray. What is counted is said here as a place: one
//! that the segment and the ray have in common.

ghost use Rattle.std.specs.Prelude.{◌↔◌, IsTrue};
ghost use Rattle.plane_geometry.specs.declared.point.Pt.{Pt};
ghost use Rattle.plane_geometry.specs.EvenOdd.{crosses, CrossesRay};

/// A segment crosses a ray exactly where one of its ends is at most as high as the ray's end, the other
/// is higher, and the segment has a place on the ray.
pub fn crossing_is_a_place()
    ensures { (p a b : Pt) → IsTrue (crosses p (a, b)) ↔ CrossesRay p a b }
{}
