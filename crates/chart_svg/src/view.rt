//! The map of a chart onto a picture.
//!
//! Longitudes and latitudes are mapped straight, so that what is straight on the chart is straight in the picture. A
//! degree of longitude is shorter than one of latitude, by the cosine of the latitude: so latitudes are stretched, by
//! that of the middle latitude for the whole picture.

ghost use Rattle.std.specs.Prelude.{◌≡◌, ◌*◌, ◌≤◌, ◌^◌, ◌*ℤ◌, ◌<ℤ◌, pos, unsigned_abs, int_div};
ghost use Rattle.std.specs.Int.{IsInRange};
ghost use Rattle.chart_svg.specs.Extent.{IsView, cosine_of, cosine_between};

use plane_geometry::Pt;

/// From this latitude on the cosine stays as it is, in hundredths of a degree: at a pole it would be 0.
const MOST_LATITUDE: u32 = 8_900;

/// A place of a picture, in units: `x` to the east and `y` to the south of its north-west corner.
#[derive(Clone, Copy, Debug, PartialEq, Eq)]
pub struct Spot {
    pub x: i64,
    pub y: i64,
}

/// The part of the globe that a picture shows, from `west` to `east` and from `south` to `north` in degrees times
/// 10,000,000, and how many units it is wide.
#[derive(Clone, Copy, Debug)]
pub struct View {
    pub west: i32,
    pub south: i32,
    pub east: i32,
    pub north: i32,
    pub width: u16,
    /// The cosine of the middle latitude, in ten-thousandths.
    cosine: u16,
    pub ghost shown: { IsView west south east north width },
    pub ghost stretched: { cosine ≡ cosine_between south north },
    pub ghost stretched_in: { IsInRange 1 10000 cosine },
}

/// The square of a number of hundredths of a degree.
fn square(hundredths: u32) -> u32
    requires { hundredths ≤ 8900 }
    ensures value { result ≡ hundredths * hundredths }
    ensures bounded { result ≤ 79210000 }
{
    hundredths * hundredths
}

/// The cosine of so many hundredths of a degree, in ten-thousandths, rounded down: by Bhaskara's rule it is
/// (32,400 - 4d²) / (32,400 + d²) for d degrees, which is at most 2 thousandths off.
fn cosine_of(hundredths: u32) -> u16
    ensures value { result ≡ cosine_of hundredths }
    ensures range { IsInRange 1 10000 result }
{
    let square = square(hundredths.min(MOST_LATITUDE));
    let above = 10_000 * u64::from(324_000_000 - 4 * square);
    (above / u64::from(324_000_000 + square)) as u16
}

/// The cosine of the latitude in the middle between two.
fn cosine_between(south: i32, north: i32) -> u16
    ensures value { result ≡ cosine_between south north }
    ensures range { IsInRange 1 10000 result }
{
    let sum = i64::from(south) + i64::from(north);
    cosine_of((sum.unsigned_abs() / 200_000) as u32)
}

/// A number of units: a distance on the chart times a factor, divided by a divisor and rounded toward 0.
fn scaled(distance: i64, factor: u32, divisor: i64) -> i64
    requires near { unsigned_abs distance ≤ 2 ^ 33 }
    requires small { factor ≤ 655350000 }
    requires positive { pos 0 <ℤ divisor }
    ensures { result ≡ int_div (distance *ℤ pos factor) divisor }
{
    distance * i64::from(factor) / divisor
}

/// How wide a view is, times the cosine in ten-thousandths.
fn shortened(width: i64, cosine: u16) -> i64
    requires wide { pos 0 <ℤ width }
    requires narrow { unsigned_abs width ≤ 2 ^ 32 }
    requires some { 1 ≤ cosine }
    ensures value { result ≡ width *ℤ pos cosine }
    ensures positive { pos 0 <ℤ result }
{
    width * i64::from(cosine)
}

impl View {
    ghost use Rattle.std.specs.Prelude.{◌≡◌, ◌↔◌, ◌+◌, ◌≤◌, ◌^◌, unsigned_abs, IsSome, IfSome};
    ghost use Rattle.chart_svg.specs.Extent.{IsView};
    ghost use Rattle.chart_svg.specs.View.{across, down, spot_at, spot_of, height_of};

    /// A view from one longitude to another and from one latitude to another, and so many units wide; none where it has
    /// no width or no height.
    pub fn new(west: i32, south: i32, east: i32, north: i32, width: u16) -> Option<View>
        ensures exact { IsSome result ↔ IsView west south east north width }
        ensures borders { IfSome result (λ view.
            (view.west ≡ west) × (view.south ≡ south) × (view.east ≡ east) × (view.north ≡ north)) }
        ensures width { IfSome result (λ view. view.width ≡ width) }
    {
        if west >= east || south >= north || width == 0 {
            return None;
        }
        let cosine = cosine_between(south, north);
        Some(View {
            west,
            south,
            east,
            north,
            width,
            cosine,
        })
    }

    /// How far a longitude is to the east of the west border, in units.
    #[tactic(auto, unfolding(crate::specs::View::across))]
    fn across(&self, x: i64) -> i64
        requires { unsigned_abs x ≤ 2 ^ 32 + 2 ^ 31 }
        ensures { result ≡ across self.now x }
    {
        let View {
            west,
            east,
            width,
            ..
        } = *self;
        let west = i64::from(west);
        scaled(x - west, u32::from(width), i64::from(east) - west)
    }

    /// How far a latitude is below the north border, in units.
    #[tactic(auto, unfolding(crate::specs::View::down))]
    fn down(&self, y: i64) -> i64
        requires { unsigned_abs y ≤ 2 ^ 32 + 2 ^ 31 }
        ensures { result ≡ down self.now y }
    {
        let View {
            west,
            east,
            north,
            width,
            cosine,
            ..
        } = *self;
        let breadth = shortened(i64::from(east) - i64::from(west), cosine);
        scaled(i64::from(north) - y, u32::from(width) * 10_000, breadth)
    }

    /// Where a longitude and a latitude stand in the picture.
    pub(crate) fn spot_at(&self, x: i64, y: i64) -> Spot
        requires east { unsigned_abs x ≤ 2 ^ 32 + 2 ^ 31 }
        requires north { unsigned_abs y ≤ 2 ^ 32 + 2 ^ 31 }
        ensures { result ≡ spot_at self.now x y }
    {
        Spot {
            x: self.across(x),
            y: self.down(y),
        }
    }

    /// Where a point of the chart stands in the picture: as far to the east of the west border as the picture is wide
    /// for the whole view, and as far below the north border, divided by the cosine of the middle latitude; rounded
    /// toward the borders. It takes no memory.
    pub fn spot(&self, p: Pt) -> Spot
        ensures { result ≡ spot_of self.now p }
    {
        self.spot_at(i64::from(p.x), i64::from(p.y))
    }

    /// How many units the picture is high. It takes no memory.
    pub fn height(&self) -> i64
        ensures { result ≡ height_of self.now }
    {
        self.down(i64::from(self.south))
    }
}
