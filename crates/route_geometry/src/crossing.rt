//! Whether a part of one way leads to within two sides.
//!
//! Where one side is entered on the way and the other left, it matters which comes first. The fractions are compared by
//! products, so that nothing is rounded.

ghost use Rattle.std.specs.Prelude.{◌≡◌, ◌↔◌, ◌+ℤ◌, ◌*ℤ◌, ◌≤ℤ◌, ◌<ℤ◌, pos, IsTrue};
ghost use Rattle.route_geometry.specs.Slope.{BothReached};

use crate::slope::Slope;

/// Whether some part of a way on which `f` doesn't fall leads to within both sides.
pub(crate) fn both_reached(f: Slope, g: Slope) -> bool
    requires { pos 0 ≤ℤ f.step }
    ensures { IsTrue result ↔ BothReached f g }
{
    f.start + f.step >= 0 && second_reached(f, g)
}

/// The same, where `f` is reached at the end.
fn second_reached(f: Slope, g: Slope) -> bool
    requires rises { pos 0 ≤ℤ f.step }
    requires reached { pos 0 ≤ℤ (f.start +ℤ f.step) }
    ensures { IsTrue result ↔ BothReached f g }
{
    if g.step < 0 {
        falling_reached(f, g)
    } else {
        g.start + g.step >= 0
    }
}

/// The same, where `g` falls: it is highest where `f` is first reached.
fn falling_reached(f: Slope, g: Slope) -> bool
    requires rises { pos 0 ≤ℤ f.step }
    requires reached { pos 0 ≤ℤ (f.start +ℤ f.step) }
    requires falls { g.step <ℤ pos 0 }
    ensures { IsTrue result ↔ BothReached f g }
{
    if f.start >= 0 {
        g.start >= 0
    } else {
        wide_product(f.start, g.step) <= wide_product(f.step, g.start)
    }
}

/// The product of two numbers, which always fits.
pub(crate) fn wide_product(a: i64, b: i64) -> i128
    ensures { result ≡ a *ℤ b }
{
    i128::from(a) * i128::from(b)
}
