//! On which side of a line a point lies.
//!
//! Coordinates have 32 bits, so a difference of two has 33 and a product of two differences 66: it is exact in 128.

ghost use Rattle.std.specs.Prelude.{◌≡◌, ◌-ℤ◌, ◌*ℤ◌, ◌<◌, ◌^◌, unsigned_abs};
ghost use Rattle.std.specs.Int.{int_signum};
ghost use Rattle.plane_geometry.specs.Orientation.{turn};

use crate::point::Pt;

/// How far the coordinate `to` is above `from`.
fn span(from: i32, to: i32) -> i64
    ensures value { result ≡ to -ℤ from }
    ensures bounded { unsigned_abs result < 2 ^ 32 }
{
    i64::from(to) - i64::from(from)
}

/// The product of two spans.
fn product(a: i64, b: i64) -> i128
    requires first { unsigned_abs a < 2 ^ 32 }
    requires second { unsigned_abs b < 2 ^ 32 }
    ensures value { result ≡ a *ℤ b }
    ensures bounded { unsigned_abs result < 2 ^ 64 }
{
    i128::from(a) * i128::from(b)
}

/// On which side of the line from `a` to `b` the point `c` lies: 1 on its left, -1 on its right, 0 on
/// the line itself, and 0 where `a` and `b` are one point. It takes no memory.
pub fn orient(a: Pt, b: Pt, c: Pt) -> i8
    ensures { result ≡ int_signum (turn a b c) }
{
    let ahead = product(span(a.x, b.x), span(a.y, c.y));
    let back = product(span(a.y, b.y), span(a.x, c.x));
    (ahead - back).signum() as i8
}
