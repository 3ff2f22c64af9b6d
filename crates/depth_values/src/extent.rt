//! What depth areas cover.
//!
//! Thousands of areas may point to the very same edges. Their rings are made once, and tested once for all of them: an
//! extent has the places of all areas that cover just this.
//!
//! It keeps a box round the rings, since most points that are asked lie outside of it. Rings with many points are cut
//! into strips, and a point in the box is held against the segments of one strip; else it is tested against every
//! segment.

ghost use Rattle.std.specs.Prelude.{IfOk};
ghost use Rattle.ring_strips.specs.Strips.{AreStrips};

use crate::effort::Effort;
use area_rings::RingList;
use plane_bounds::{Bounds, bounds_of};
use plane_geometry::{Pt, Ring};
use ring_strips::{FEWEST_POINTS, Strip, Strips, most_segments, strips_of};
use std::alloc::{AllocError, Global};
use std::marker::Model;

/// The rings of depth areas, and which areas those are. Contracts see the rings and the places.
#[derive(Debug, Drop)]
pub struct Extent {
    rings: RingList,
    bounds: Bounds,
    /// How many points the rings have.
    size: usize,
    strips: Strips,
    /// The places of the areas, among the areas of the chart: the first, since most extents have no other, and the
    /// others.
    first: usize,
    others: Vec<usize>,
}

impl Model for Extent {
    ghost use Rattle.std.specs.Prelude.{◌∷◌};
    ghost use Rattle.depth_values.specs.DepthArea.{ExtentValue};
    ghost use Rattle.depth_values.specs.Extent.{IsCut};

    ghost Value = { ExtentValue };

    ghost view = { λ extent. record { rings = extent.rings; places = extent.first ∷ extent.others.items } };

    ghost invariant = { λ extent. IsCut extent.rings extent.bounds extent.strips };
}

/// How many points rings have. Nothing that is answered hangs on it, but whether there is an answer.
fn size_of(rings: &[Ring]) -> usize {
    let mut size: usize = 0;
    for ring in rings {
        size = size.saturating_add(ring.as_slice().len());
    }
    size
}

/// The strips of rings that have this box and so many points. They take room by the number of their segments: where
/// there is none for them, the rings aren't cut, nor where they have few points.
fn strips_within(
    alloc: Global,
    room: &mut Effort,
    rings: &[Ring],
    bounds: Bounds,
    size: usize,
) -> Result<Strips, AllocError>
    ensures { IfOk result (AreStrips rings.now) }
{
    if size < FEWEST_POINTS || room.spend(most_segments(size)).is_err() {
        return Ok(Strips::none(alloc));
    }
    strips_of(alloc, rings, bounds, size)
}

impl Extent {
    ghost use Rattle.std.specs.Prelude.{◌≡◌, ◌++◌, ◌∷◌, [], IfOk, IfSome, OnOk, OnErr};
    ghost use Rattle.std.specs.List.{list_any};
    ghost use Rattle.plane_bounds.specs.Bounds.{RingsIn};
    ghost use Rattle.plane_bounds.specs.Inside.{is_inside};
    ghost use Rattle.ring_strips.specs.Strips.{is_among};

    /// Rings that the area at a place covers, as the first. Their strips take room.
    pub(crate) fn new(
        alloc: Global,
        room: &mut Effort,
        rings: RingList,
        place: usize,
    ) -> Result<Extent, AllocError>
        ensures { IfOk result (λ extent. extent ≡ record { rings = rings; places = place ∷ [] }) }
    {
        let bounds = bounds_of(rings.as_slice());
        let size = size_of(rings.as_slice());
        let strips = strips_within(alloc, room, rings.as_slice(), bounds, size)?;
        Ok(Extent {
            rings,
            bounds,
            size,
            strips,
            first: place,
            others: Vec::new(alloc),
        })
    }

    /// Adds the place of one more area that covers this. Where there is no memory nothing changes.
    pub(crate) fn add(&mut self, place: usize) -> Result<(), AllocError>
        ensures ok { OnOk result (self.new ≡ record self.old { places = self.old.places ++ place ∷ [] }) }
        ensures err { OnErr result (self.new ≡ self.old) }
    {
        self.others.push(place)?;
        Ok(())
    }

    /// The rings.
    pub(crate) fn rings(&self) -> &[Ring]
        ensures { result.now ≡ self.now.rings }
    {
        self.rings.as_slice()
    }

    /// How many areas cover this. Nothing that is answered hangs on it, but whether there is an answer.
    pub(crate) fn count(&self) -> usize {
        self.others.len().saturating_add(1)
    }

    /// Adds the places of the areas that cover this.
    pub(crate) fn push_places(&self, held: &mut Vec<usize>) -> Result<(), AllocError>
        ensures { OnOk result (held.new.items ≡ held.old.items ++ self.now.places) }
    {
        held.push(self.first)?;
        held.extend_from_slice(self.others.as_slice())
    }

    /// The box round the rings.
    pub(crate) fn bounds(&self) -> Bounds
        ensures { RingsIn result self.now.rings }
    {
        self.bounds
    }

    /// Whether a point lies in or on the rings, by every segment. The box round them is asked first.
    fn holds_by_all(&self, effort: &mut Effort, p: Pt) -> Result<bool, AllocError>
        ensures { IfOk result (λ holds. holds ≡ is_inside p self.now.rings) }
    {
        if self.bounds.holds(p) {
            effort.spend(self.size)?;
        }
        Ok(self.bounds.holds_inside(p, self.rings.as_slice()))
    }

    /// The strip that is asked whether a point lies in or on the rings, where the point is in the box round them.
    fn strip_for(&self, p: Pt) -> Option<&Strip>
        ensures { IfSome result (λ strip. is_among p strip.now.segments ≡ is_inside p self.now.rings) }
    {
        if !self.bounds.holds(p) {
            return None;
        }
        self.strips.at(p)
    }

    /// Whether a point lies in or on the rings.
    fn holds(&self, effort: &mut Effort, p: Pt) -> Result<bool, AllocError>
        ensures { IfOk result (λ holds. holds ≡ is_inside p self.now.rings) }
    {
        match self.strip_for(p) {
            Some(strip) => {
                effort.spend(strip.len().saturating_add(1))?;
                Ok(strip.holds(p))
            }
            None => self.holds_by_all(effort, p),
        }
    }

    /// Whether one of the points lies in or on the rings.
    pub(crate) fn holds_any(&self, effort: &mut Effort, points: &[Pt]) -> Result<bool, AllocError>
        ensures { IfOk result (λ holds. holds ≡ list_any (λ p. is_inside p self.now.rings) points.now) }
    {
        effort.spend(points.len())?;
        for p in points {
            let holds = self.holds(effort, *p)?;
            if holds {
                return Ok(true);
            }
        }
        Ok(false)
    }
}
