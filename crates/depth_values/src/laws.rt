//! What holds of the definitions.
//!
//! The code keeps the least of the depths as it goes, and cuts digits off by division. What the least is, and which
//! depth some cells write, is said here without either.

ghost use Rattle.std.specs.Prelude.{◌≡◌, ◌↔◌, List, ℤ, Some};
ghost use Rattle.chart_model.specs.Record.{IsWithin};
ghost use Rattle.depth_values.specs.Under.{least};
ghost use Rattle.depth_values.specs.Hazard.{IsLeast};
ghost use Rattle.depth_values.specs.Digits.{cells_of, WritesDepth};

/// The least of the numbers is one of them, and none of them is less.
pub fn least_is_least()
    ensures { (numbers : List ℤ) (n : ℤ) → (least numbers ≡ Some n) ↔ IsLeast numbers n }
{}

/// The cells write the depth: behind the sign the digits of the whole metres, and then the tenths.
pub fn digits_write_depths()
    ensures { (depth : ℤ) → IsWithin 9999999 depth → WritesDepth depth (cells_of depth) }
{}
