//! The sides within which a leg and a segment are near.
//!
//! How far two points differ on an axis is linear in where each is on its way, so "by at most so much" is two linear
//! conditions, one for each direction.

ghost use Rattle.std.specs.Prelude.{◌≡◌, ◌+ℤ◌};
ghost use Rattle.route_geometry.specs.Bound.{IsBoundedSide};

use crate::slope::Slope;

/// A linear condition on a point of the leg and a point of the segment, at the fractions t and s (0 to 1) of their
/// lengths: it holds where `start + t * leg + s * segment` is 0 or more (degrees times 10,000,000).
#[derive(Clone, Copy)]
pub(crate) struct Side {
    pub(crate) start: i64,
    pub(crate) leg: i64,
    pub(crate) segment: i64,
    ghost bounded: { IsBoundedSide start leg segment },
}

impl Side {
    ghost use Rattle.std.specs.Prelude.{◌≡◌, ◌+ℤ◌, pos, IsTrue};
    ghost use Rattle.std.specs.Int.{int_max};
    ghost use Rattle.route_geometry.specs.Side.{IsLegTurned, IsSegmentTurned, IsExchanged, IsWithin, Place};

    /// How far within the side the segment leads at most, at the leg's beginning.
    fn most_along_segment(self) -> i64
        ensures { result ≡ self.start +ℤ int_max self.segment (pos 0) }
    {
        if self.segment >= 0 {
            self.segment_turned().start
        } else {
            self.start
        }
    }

    /// How far within the side both ways lead at most.
    fn most(self) -> i64
        ensures { result ≡ (self.start +ℤ int_max self.leg (pos 0)) +ℤ int_max self.segment (pos 0) }
    {
        if self.leg >= 0 {
            self.leg_turned().most_along_segment()
        } else {
            self.most_along_segment()
        }
    }

    /// Whether some place may be within the side: there is none where it isn't.
    pub(crate) fn is_reached(self) -> bool
        ensures { (p : Place) → IsWithin p self → IsTrue result }
    {
        self.most() >= 0
    }

    /// The side where the leg is gone from its end.
    pub(crate) fn leg_turned(self) -> Side
        ensures { IsLegTurned self result }
    {
        Side {
            start: self.start + self.leg,
            leg: -self.leg,
            segment: self.segment,
        }
    }

    /// The side where the segment is gone from its end.
    pub(crate) fn segment_turned(self) -> Side
        ensures { IsSegmentTurned self result }
    {
        self.exchanged().leg_turned().exchanged()
    }

    /// The side with leg and segment exchanged.
    pub(crate) fn exchanged(self) -> Side
        ensures { IsExchanged self result }
    {
        Side {
            start: self.start,
            leg: self.segment,
            segment: self.leg,
        }
    }

    /// The side along the leg, at the segment's beginning.
    pub(crate) fn along_leg(self) -> Slope
        ensures start { result.start ≡ self.start }
        ensures step { result.step ≡ self.leg }
    {
        Slope {
            start: self.start,
            step: self.leg,
        }
    }

    /// The side along the segment, at the leg's end.
    pub(crate) fn along_segment(self) -> Slope
        ensures start { result.start ≡ self.start +ℤ self.leg }
        ensures step { result.step ≡ self.segment }
    {
        Slope {
            start: self.start + self.leg,
            step: self.segment,
        }
    }
}
