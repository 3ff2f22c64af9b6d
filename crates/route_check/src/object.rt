//! A dangerous object of a chart.
//!
//! Its box and the number of its points are made with it, since each leg that is tried asks for both: for the box, to
//! leave out what is far away, and for the number, to know what trying costs before it is done.

use crate::danger::Danger;
use crate::reach::reach_of;
use crate::target::{Target, bounds_of_target, meets_target, size_of_target};
use chart_model::Key;
use plane_bounds::Bounds;
use route_geometry::Leg;
use std::marker::Model;

/// What it costs to test a leg against a segment, in tests of a point against one.
const COST_OF_SEGMENT: usize = 2;

/// A dangerous object of a chart, with a box round it.
#[derive(Debug, Drop)]
pub(crate) struct Object {
    key: Key,
    rcid: u32,
    place: u64,
    target: Target,
    bounds: Bounds,
    /// How many points it has.
    size: usize,
}

impl Model for Object {
    ghost use Rattle.route_check.specs.Object.{ObjectValue, ShapeIn};
    ghost use Rattle.route_check.specs.Target.{shape_in};

    ghost Value = { ObjectValue };

    ghost view = { λ object. record {
      key = object.key;
      rcid = object.rcid;
      place = object.place;
      shape = shape_in object.target;
    } };

    ghost invariant = { λ object. ShapeIn object.bounds (shape_in object.target) };
}

impl Object {
    ghost use Rattle.std.specs.Prelude.{◌≡◌};
    ghost use Rattle.route_check.specs.Meeting.{meets_shape};
    ghost use Rattle.route_check.specs.Reach.{reach_of};
    ghost use Rattle.route_check.specs.Report.{row_of};
    ghost use Rattle.route_check.specs.Target.{shape_in};

    /// The object of a feature of a chart at a place. It takes no memory.
    pub(crate) fn new(key: Key, rcid: u32, place: u64, target: Target) -> Object
        ensures { result ≡ record { key = key; rcid = rcid; place = place; shape = shape_in target } }
    {
        let bounds = bounds_of_target(&target);
        let size = size_of_target(&target);
        Object {
            key,
            rcid,
            place,
            target,
            bounds,
            size,
        }
    }

    /// The row of a leg that meets the object.
    pub(crate) fn row(&self, leg: u32) -> Danger
        ensures { result ≡ row_of leg self.now }
    {
        Danger {
            leg,
            key: self.key,
            rcid: self.rcid,
            place: self.place,
        }
    }

    /// What it costs to ask whether a leg meets the object, in tests of a point against a segment. Nothing that is
    /// answered hangs on it, but whether there is an answer. It takes no memory.
    pub(crate) fn cost(&self, reach: Bounds) -> usize {
        if self.bounds.meets(reach) {
            self.size.saturating_mul(COST_OF_SEGMENT)
        } else {
            1
        }
    }

    /// Whether a leg meets the object. The box that the leg reaches is asked first: most objects are far from most
    /// legs. It takes no memory.
    pub(crate) fn is_met(&self, leg: &Leg, reach: Bounds) -> bool
        requires { reach ≡ reach_of leg.now }
        ensures { result ≡ meets_shape leg.now self.now.shape }
    {
        self.bounds.meets(reach) && meets_target(leg, &self.target)
    }
}
