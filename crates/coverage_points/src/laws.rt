//! What holds of the definitions.
//!
//! Which legs are covered is said by all points of a leg, and by looking up charts and features. What cites it asks
//! tests and goes over lists; that both come to the same is said here.

ghost use Rattle.std.specs.Prelude.{◌↔◌, List, IsTrue, Contains};
ghost use Rattle.plane_geometry.specs.declared.point.Pt.{Pt};
ghost use Rattle.chart_model.specs.State.{StateValue};
ghost use Rattle.route_geometry.specs.declared.leg.Leg.{Leg};
ghost use Rattle.coverage_points.specs.Cover.{IsCovered, is_covered};
ghost use Rattle.coverage_points.specs.Coverage.{IsCharted, coverage_in};
ghost use Rattle.coverage_points.specs.Uncovered.{AreUncovered, uncovered_of};

/// All points of a widened leg are inside rings, and none is on one, exactly where its first point is inside and it
/// meets no segment of the rings.
pub fn covered_legs_are_tested()
    ensures { (leg : Leg) (rings : List (List Pt)) → IsTrue (is_covered leg rings) ↔ IsCovered leg rings }
{}

/// The list of areas has exactly the rings of the areas of coverage of the charts that are held.
pub fn areas_are_told()
    ensures { (state : StateValue) (rings : List (List Pt)) →
        Contains (coverage_in state) rings ↔ IsCharted state rings }
{}

/// What holding every leg against every area gives are the numbers of the legs that none covers: all of them and no
/// others, in order, each once.
pub fn uncovered_legs_are_exact()
    ensures { (state : StateValue) (legs : List Leg) → AreUncovered state legs (uncovered_of state legs) }
{}
