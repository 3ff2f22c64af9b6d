//! The two axes, each cut into up to 64 parts of one width.
//!
//! What lies outside the axis counts to its first or its last part, so that any area can be asked, also one far from
//! the chart. How wide parts are says how fast an answer is found, and never which it is.

ghost use Rattle.std.specs.Prelude.{◌≡◌, ◌≤◌, ◌<◌, ◌-ℤ◌, unsigned_abs};
ghost use Rattle.std.specs.Int.{int_min, int_max};

/// How many parts an axis has at most.
const PARTS: u64 = 64;

/// From where to where the boxes of a chart reach on an axis, in degrees times 10,000,000, and how wide one of its
/// parts is.
#[derive(Clone, Copy, Debug)]
pub struct Axis {
    pub(crate) low: i64,
    pub(crate) high: i64,
    pub(crate) width: u64,
}

/// The parts of an axis from one up to another.
#[derive(Clone, Copy)]
pub(crate) struct Span {
    pub(crate) first: u16,
    pub(crate) last: u16,
    ghost first_in: { first < 64 },
    ghost last_in: { last < 64 },
}

impl Span {
    /// How many parts there are.
    pub(crate) fn count(self) -> u16
        ensures { result ≤ 64 }
    {
        (self.last + 1).saturating_sub(self.first)
    }
}

/// The nearest number from one to another.
fn clamped(low: i64, high: i64, n: i64) -> i64
    ensures { result ≡ int_max (int_min n high) low }
{
    n.min(high).max(low)
}

/// How far two numbers are apart.
pub(crate) fn distance(a: i64, b: i64) -> u64
    ensures { result ≡ unsigned_abs (a -ℤ b) }
{
    a.abs_diff(b)
}

impl Axis {
    ghost use Rattle.std.specs.Prelude.{◌≡◌, ◌<◌};
    ghost use Rattle.spatial_grid.specs.Buckets.{index_on};

    /// The axis from one number to another, for boxes that are so wide on average. A part is at least as wide as that,
    /// so that most boxes stand in two parts at most.
    pub(crate) fn over(low: i64, high: i64, average: u64) -> Axis {
        Axis {
            low,
            high,
            width: (distance(high, low) / PARTS + 1).max(average),
        }
    }

    /// The part in which a number lies. What lies before all parts counts to the first, and what lies behind them to
    /// the last.
    fn index(self, n: i64) -> u16
        ensures is { result ≡ index_on self n }
        ensures within { result < 64 }
    {
        let place = distance(clamped(self.low, self.high, n), self.low) / self.width.max(1);
        place.min(63) as u16
    }

    /// The parts from that of one number up to that of another. It takes no memory.
    pub(crate) fn span(self, low: i64, high: i64) -> Span
        ensures first { result.first ≡ index_on self low }
        ensures last { result.last ≡ index_on self high }
    {
        Span {
            first: self.index(low),
            last: self.index(high),
        }
    }
}
