//! What holds of the definitions.
//!
//! That two are near speaks of all places on a leg and on a segment. Definitions above cite tests, which ask in a few
//! directions whether a line parts the two; that both come to the same is said here.

ghost use Rattle.std.specs.Prelude.{◌↔◌, List, IsTrue};
ghost use Rattle.plane_geometry.specs.declared.point.Pt.{Pt};
ghost use Rattle.route_geometry.specs.declared.leg.Leg.{Leg};
ghost use Rattle.route_geometry.specs.Leg.{MeetsSegment, IsWider};
ghost use Rattle.route_geometry.specs.Area.{MeetsArea};
ghost use Rattle.route_geometry.specs.Parted.{meets_segment, meets_area};

/// A leg of the same way that is at least as wide meets all that the narrower one meets.
pub fn wider_legs_meet_more()
    ensures segment { (leg wide : Leg) (c e : Pt) → IsWider leg wide →
        MeetsSegment leg c e → MeetsSegment wide c e }
    ensures area { (leg wide : Leg) (rings : List (List Pt)) → IsWider leg wide →
        MeetsArea leg rings → MeetsArea wide rings }
{}

/// A leg and a segment meet exactly where no line parts them, of those along an axis, along the leg and
/// along the segment. So the tests `meets_segment` and `meets_area` say the same as the relations.
pub fn meetings_are_tested()
    ensures segment { (leg : Leg) (c e : Pt) → IsTrue (meets_segment leg c e) ↔ MeetsSegment leg c e }
    ensures area { (leg : Leg) (rings : List (List Pt)) →
        IsTrue (meets_area leg rings) ↔ MeetsArea leg rings }
{}
