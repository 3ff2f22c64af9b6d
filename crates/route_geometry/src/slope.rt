//! A side along one way, where the place on the other way is settled.
//!
//! Where one way is held at one of its ends, a side changes along the other way alone, and evenly: so its values at
//! both ends of that way tell all of it.

ghost use Rattle.route_geometry.specs.Bound.{IsBoundedSlope};

/// A side along one way: `start` where the way begins, and `step` more where it ends.
#[derive(Clone, Copy)]
pub(crate) struct Slope {
    pub(crate) start: i64,
    pub(crate) step: i64,
    ghost bounded: { IsBoundedSlope start step },
}
