//! Whether a place is within two sides.
//!
//! By turning a way round, or exchanging the two, all signs of the sides become those of three cases, each with a
//! corner or an edge of the square of fractions that tells.

ghost use Rattle.std.specs.Prelude.{◌↔◌, ◌*ℤ◌, ◌≤ℤ◌, ◌<ℤ◌, pos, IsTrue};
ghost use Rattle.route_geometry.specs.Side.{BothMet};

use crate::crossing::{both_reached, wide_product};
use crate::side::Side;

/// Whether some place is within both sides.
pub(crate) fn both_met(f: Side, g: Side) -> bool
    ensures { IsTrue result ↔ BothMet f g }
{
    if f.leg >= 0 {
        leg_rising_met(f, g)
    } else {
        leg_rising_met(f.leg_turned(), g.leg_turned())
    }
}

/// The same, where the leg leads into `f`.
fn leg_rising_met(f: Side, g: Side) -> bool
    requires { pos 0 ≤ℤ f.leg }
    ensures { IsTrue result ↔ BothMet f g }
{
    if f.segment >= 0 {
        rising_met(f, g)
    } else {
        rising_met(f.segment_turned(), g.segment_turned())
    }
}

/// The same, where both ways lead into `f`.
fn rising_met(f: Side, g: Side) -> bool
    requires leg { pos 0 ≤ℤ f.leg }
    requires segment { pos 0 ≤ℤ f.segment }
    ensures { IsTrue result ↔ BothMet f g }
{
    if g.leg >= 0 {
        leg_gone_met(f, g)
    } else if g.segment >= 0 {
        leg_gone_met(f.exchanged(), g.exchanged())
    } else {
        opposed_met(f, g)
    }
}

/// The same, where the leg leads into both.
fn leg_gone_met(f: Side, g: Side) -> bool
    requires leg { pos 0 ≤ℤ f.leg }
    requires segment { pos 0 ≤ℤ f.segment }
    requires leg_rises { pos 0 ≤ℤ g.leg }
    ensures { IsTrue result ↔ BothMet f g }
{
    both_reached(f.along_segment(), g.along_segment())
}

/// The same, where both ways lead out of `g`.
fn opposed_met(f: Side, g: Side) -> bool
    requires leg { pos 0 ≤ℤ f.leg }
    requires segment { pos 0 ≤ℤ f.segment }
    requires leg_falls { g.leg <ℤ pos 0 }
    requires segment_falls { g.segment <ℤ pos 0 }
    ensures { IsTrue result ↔ BothMet f g }
{
    if wide_product(f.leg, g.segment) <= wide_product(f.segment, g.leg) {
        leg_first_met(f, g)
    } else {
        leg_first_met(f.exchanged(), g.exchanged())
    }
}

/// The same, where for what it adds to `f` the leg takes no more from `g` than the segment does: then the
/// leg is gone first, and the segment from the leg's end.
fn leg_first_met(f: Side, g: Side) -> bool
    requires leg { pos 0 ≤ℤ f.leg }
    requires segment { pos 0 ≤ℤ f.segment }
    requires leg_falls { g.leg <ℤ pos 0 }
    requires segment_falls { g.segment <ℤ pos 0 }
    requires cheaper { (f.leg *ℤ g.segment) ≤ℤ (f.segment *ℤ g.leg) }
    ensures { IsTrue result ↔ BothMet f g }
{
    if f.start + f.leg >= 0 {
        both_reached(f.along_leg(), g.along_leg())
    } else {
        both_reached(f.along_segment(), g.along_segment())
    }
}
