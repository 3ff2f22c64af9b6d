//! An area of coverage, of which it is asked whether it covers a leg.
//!
//! Every leg is held against every area. Its box is made with it: most legs begin or end outside of most areas, and of
//! these no segment is tested.

use crate::cover::covers;
use area_rings::RingList;
use plane_bounds::{Bounds, bounds_of};
use route_geometry::Leg;
use std::marker::Model;

/// The rings of an area of coverage, with a box round them. Contracts see the rings.
#[derive(Drop)]
pub(crate) struct Area {
    rings: RingList,
    bounds: Bounds,
}

impl Model for Area {
    ghost use Rattle.std.specs.Prelude.{List};
    ghost use Rattle.plane_geometry.specs.declared.point.Pt.{Pt};
    ghost use Rattle.plane_bounds.specs.Bounds.{RingsIn};

    ghost Value = { List (List Pt) };

    ghost view = { λ area. area.rings };

    ghost invariant = { λ area. RingsIn area.bounds area.rings };
}

impl Area {
    ghost use Rattle.std.specs.Prelude.{◌≡◌};
    ghost use Rattle.coverage_points.specs.Cover.{is_covered};

    /// The area of these rings. It takes no memory.
    pub(crate) fn new(rings: RingList) -> Area
        ensures { result ≡ rings }
    {
        let bounds = bounds_of(rings.as_slice());
        Area { rings, bounds }
    }

    /// Whether the area covers the leg. The box is asked for the leg's ends before the rings are. It takes no memory.
    pub(crate) fn covers(&self, leg: &Leg) -> bool
        ensures { result ≡ is_covered leg.now self.now }
    {
        self.bounds.holds(leg.a) && self.bounds.holds(leg.b) && covers(leg, self.rings.as_slice())
    }
}
