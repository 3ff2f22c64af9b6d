//! The depth areas of a chart, and the list of them in the making.
//!
//! A drawing and a report ask them for one hazard after another. So they are made once, and what they cover is put into
//! groups as it is made.

use crate::area::least_depth;
use crate::depth_area::{AreaMark, DepthArea};
use crate::effort::Effort;
use crate::extent::Extent;
use crate::extents::Extents;
use crate::same::are_same_rings;
use crate::twins::{LikelyTwins, number_of_pointers, number_of_rings};
use area_rings::RingList;
use chart_model::{Feature, Name};
use plane_geometry::Ring;
use std::alloc::{AllocError, Global};
use std::marker::Model;

/// The depth areas of a chart, in the order of their names, and what they cover. Contracts see the list of the areas
/// with their rings.
#[derive(Debug, Drop)]
pub struct DepthAreas {
    areas: Vec<DepthArea>,
    extents: Extents,
}

impl Model for DepthAreas {
    ghost use Rattle.std.specs.Prelude.{List};
    ghost use Rattle.depth_values.specs.DepthArea.{AreaValue};
    ghost use Rattle.depth_values.specs.Covering.{values_of, AreCovering};

    ghost Value = { List AreaValue };

    ghost view = { λ areas. values_of areas.extents areas.areas.items };

    ghost invariant = { λ areas. AreCovering areas.extents areas.areas.items };
}

impl DepthAreas {
    ghost use Rattle.std.specs.Prelude.{◌≡◌};
    ghost use Rattle.depth_values.specs.Marks.{mark_at};
    ghost use Rattle.depth_values.specs.Covering.{AreShared};

    /// What the areas cover. It takes no memory.
    pub(crate) fn extents(&self) -> &Extents
        ensures { AreShared self.now result.now }
    {
        &self.extents
    }

    /// What is told of the area at a place. It takes no memory.
    pub(crate) fn mark_at(&self, place: usize) -> Option<AreaMark>
        ensures { result ≡ mark_at self.now place }
    {
        let area = self.areas.get(place)?;
        Some(AreaMark {
            name: area.name,
            d1: area.d1,
        })
    }
}

/// Depth areas and what they cover, in the making. Contracts see the list of the areas with their rings.
#[derive(Debug, Drop)]
pub(crate) struct AreaList {
    areas: Vec<DepthArea>,
    extents: Vec<Extent>,
    /// Where areas with such pointers may be.
    by_pointers: LikelyTwins,
    /// Where areas with such rings may be.
    by_rings: LikelyTwins,
    /// How many more segments the strips of the extents may have.
    room: Effort,
}

impl Model for AreaList {
    ghost use Rattle.std.specs.Prelude.{List};
    ghost use Rattle.depth_values.specs.DepthArea.{AreaValue};
    ghost use Rattle.depth_values.specs.Covering.{values_of, AreCovering};

    ghost Value = { List AreaValue };

    ghost view = { λ list. values_of list.extents.items list.areas.items };

    ghost invariant = { λ list. AreCovering list.extents.items list.areas.items };
}

impl AreaList {
    ghost use Rattle.std.specs.Prelude.{◌≡◌, ◌<◌, ◌++◌, ◌∷◌, [], length, slice_get, option_map, Some, IfOk, IfSome};
    ghost use Rattle.depth_values.specs.Area.{d1_of};

    /// No area, of a chart with so many features.
    pub(crate) fn new(alloc: Global, features: usize) -> Result<AreaList, AllocError>
        ensures { IfOk result (λ list. list ≡ []) }
    {
        let by_pointers = LikelyTwins::new(alloc, features)?;
        let by_rings = LikelyTwins::new(alloc, features)?;
        Ok(AreaList {
            areas: Vec::new(alloc),
            extents: Vec::new(alloc),
            by_pointers,
            by_rings,
            room: Effort::of_strips(),
        })
    }

    /// The name of the area at a place.
    pub(crate) fn name_at(&self, place: usize) -> Option<Name>
        ensures { result ≡ option_map (λ area. area.name) (slice_get self.now place) }
    {
        let area = self.areas.get(place)?;
        Some(area.name)
    }

    /// The place of an area that may have the pointers of a feature. Nothing that is answered hangs on it, but how
    /// fast.
    pub(crate) fn likely_twin(&self, feature: &Feature) -> Option<usize> {
        self.by_pointers.place_for(number_of_pointers(feature))
    }

    /// The place of an area that has just these rings, where one is found.
    pub(crate) fn place_of(&self, rings: &[Ring]) -> Option<usize>
        ensures { IfSome result (λ place. option_map (λ area. area.rings) (slice_get self.now place) ≡ Some rings.now) }
    {
        let place = self.by_rings.place_for(number_of_rings(rings))?;
        let area = self.areas.get(place)?;
        let extent = self.extents.get(area.extent)?;
        if are_same_rings(extent.rings(), rings) {
            Some(place)
        } else {
            None
        }
    }

    /// The list with an area more, whose rings were made for it.
    pub(crate) fn with_rings(
        self,
        alloc: Global,
        name: Name,
        feature: &Feature,
        rings: RingList,
    ) -> Result<AreaList, AllocError>
        ensures { IfOk result (λ list.
            list ≡ self ++ record { name = name; d1 = d1_of feature.now; rings = rings } ∷ []) }
    {
        let mut areas = self.areas;
        let mut extents = self.extents;
        let mut by_pointers = self.by_pointers;
        let mut by_rings = self.by_rings;
        let mut room = self.room;
        let place = areas.len();
        by_pointers.keep(number_of_pointers(feature), place);
        by_rings.keep(number_of_rings(rings.as_slice()), place);
        let area = DepthArea {
            name,
            d1: least_depth(feature),
            extent: extents.len(),
        };
        let extent = Extent::new(alloc, &mut room, rings, place)?;
        areas.push(area)?;
        extents.push(extent)?;
        Ok(AreaList {
            areas,
            extents,
            by_pointers,
            by_rings,
            room,
        })
    }

    /// The list with an area more, that covers what the area at a place covers.
    pub(crate) fn with_twin(
        self,
        place: usize,
        name: Name,
        feature: &Feature,
    ) -> Result<AreaList, AllocError>
        requires { place < length self }
        ensures { IfOk result (λ list. IfSome (slice_get self place) (λ twin.
            list ≡ self ++ record { name = name; d1 = d1_of feature.now; rings = twin.rings } ∷ [])) }
    {
        let mut areas = self.areas;
        let mut extents = self.extents;
        let area = DepthArea {
            name,
            d1: least_depth(feature),
            extent: areas[place].extent,
        };
        let extent = &mut extents[area.extent];
        extent.add(areas.len())?;
        areas.push(area)?;
        Ok(AreaList {
            areas,
            extents,
            by_pointers: self.by_pointers,
            by_rings: self.by_rings,
            room: self.room,
        })
    }

    /// The same areas, with what they cover in groups.
    pub(crate) fn grouped(self, alloc: Global) -> Result<DepthAreas, AllocError>
        ensures { IfOk result (λ areas. areas ≡ self) }
    {
        let extents = Extents::of_each(alloc, self.extents)?;
        Ok(DepthAreas {
            areas: self.areas,
            extents,
        })
    }
}
