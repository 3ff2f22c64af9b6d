//! What holds of the definitions.
//!
//! Testing a point against rings costs every segment, and asking a box costs four comparisons. That a point outside the
//! box is outside the rings too, so that the box may be asked first, is said here.

ghost use Rattle.std.specs.Prelude.{◌↔◌, List, IsTrue};
ghost use Rattle.plane_geometry.specs.declared.point.Pt.{Pt};
ghost use Rattle.plane_geometry.specs.EvenOdd.{IsInside};
ghost use Rattle.plane_bounds.specs.declared.bounds.Bounds.{Bounds};
ghost use Rattle.plane_bounds.specs.Bounds.{IsIn, RingsIn};
ghost use Rattle.plane_bounds.specs.Inside.{is_inside};

/// The test that definitions cite says whether a point is inside rings by the even-odd rule.
pub fn points_are_inside()
    ensures { (p : Pt) (rings : List (List Pt)) → IsTrue (is_inside p rings) ↔ IsInside p rings }
{}

/// What is inside rings is in each box that all their points are in.
pub fn insides_are_in_bounds()
    ensures { (bounds : Bounds) (p : Pt) (rings : List (List Pt)) → RingsIn bounds rings →
        IsInside p rings → IsIn bounds p }
{}
