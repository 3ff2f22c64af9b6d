//! Whether a leg and a segment are near on both axes at one place of each: near on each axis somewhere isn't enough.
//!
//! No such place is looked for. It is enough that each side of the one band has a place together with each side of the
//! other, which is four tests of two sides each.

ghost use Rattle.std.specs.Prelude.{◌↔◌, IsTrue};
ghost use Rattle.route_geometry.specs.Band.{SideMeetsBand, BandsMeet, IsInBand};
ghost use Rattle.route_geometry.specs.Side.{Place};

use crate::band::Band;
use crate::corner::both_met;
use crate::side::Side;

/// Whether each side of a band is reached somewhere. Most segments are far from a leg on an axis, and end here.
fn is_reached(band: Band) -> bool
    ensures { (p : Place) → IsInBand p band → IsTrue result }
{
    band.low.is_reached() && band.high.is_reached()
}

/// Whether some place is in both bands.
pub(crate) fn bands_meet(x: Band, y: Band) -> bool
    ensures { IsTrue result ↔ BandsMeet x y }
{
    is_reached(x) && is_reached(y) && sides_meet(x, y)
}

/// The same. Where one place is within the lower side of a band and one within its upper side, both in the other band,
/// so is a place between these two that is in both.
fn sides_meet(x: Band, y: Band) -> bool
    ensures { IsTrue result ↔ BandsMeet x y }
{
    side_meets_band(x.low, y) && side_meets_band(x.high, y)
}

/// Whether some place is within a side and in a band.
fn side_meets_band(side: Side, band: Band) -> bool
    ensures { IsTrue result ↔ SideMeetsBand side band }
{
    both_met(side, band.low) && both_met(side, band.high)
}
