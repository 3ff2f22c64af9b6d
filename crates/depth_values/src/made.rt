//! How the depth areas of a chart are made.
//!
//! An area whose pointers are those of another covers what the other covers, so that no rings are made for it; nor are
//! rings kept twice that come out the same. How many points rings have at most is taken of the effort before they are
//! made, since a feature may point to one edge many times.

ghost use Rattle.std.specs.Prelude.{◌≡◌, true, IfOk, IfSome};
ghost use Rattle.depth_values.specs.Made.{AreMade, IsTwin, with_feature};
ghost use Rattle.depth_values.specs.Under.{areas_of, is_depth_area};

use crate::areas::{AreaList, DepthAreas};
use crate::bounded::most_points;
use crate::depth_area::is_depth_area;
use crate::effort::Effort;
use crate::same::have_same_pointers;
use area_rings::rings;
use chart_model::{Cell, Feature, Name};
use std::alloc::{AllocError, Global};

/// The place of an area that has the rings of a feature, where one is found.
fn twin_of(cell: &Cell, list: &AreaList, feature: &Feature) -> Option<usize>
    requires { AreMade cell.now list.now }
    ensures { IfSome result (IsTwin cell.now list.now feature.now) }
{
    let place = list.likely_twin(feature)?;
    let twin = cell.features.get(list.name_at(place)?)?;
    if have_same_pointers(twin, feature) {
        Some(place)
    } else {
        None
    }
}

/// The list with the area that a feature is, whose rings are made; without it, where it has none.
fn with_rings(
    alloc: Global,
    effort: &mut Effort,
    cell: &Cell,
    list: AreaList,
    name: Name,
    feature: &Feature,
) -> Result<AreaList, AllocError>
    requires { is_depth_area feature.now ≡ true }
    ensures { IfOk result (λ longer. longer ≡ with_feature cell.now list (name, feature.now)) }
{
    effort.spend(most_points(cell, feature))?;
    let Some(rings) = rings(alloc, cell, feature)? else {
        return Ok(list);
    };
    match list.place_of(rings.as_slice()) {
        Some(place) => list.with_twin(place, name, feature),
        None => list.with_rings(alloc, name, feature, rings),
    }
}

/// The list with the area that a feature is; without it, where it is none or has no rings.
fn with_feature(
    alloc: Global,
    effort: &mut Effort,
    cell: &Cell,
    list: AreaList,
    name: Name,
    feature: &Feature,
) -> Result<AreaList, AllocError>
    requires { AreMade cell.now list }
    ensures { IfOk result (λ longer. longer ≡ with_feature cell.now list (name, feature.now)) }
{
    if !is_depth_area(feature) {
        return Ok(list);
    }
    match twin_of(cell, &list, feature) {
        Some(place) => list.with_twin(place, name, feature),
        None => with_rings(alloc, effort, cell, list, name, feature),
    }
}

/// The depth areas and dredged areas of a chart, in the order of their names.
pub fn depth_areas(alloc: Global, cell: &Cell) -> Result<DepthAreas, AllocError>
    ensures { IfOk result (λ areas. areas ≡ areas_of cell.now) }
{
    let mut list = AreaList::new(alloc, cell.features.len())?;
    let mut effort = Effort::of_rings();
    for (name, feature) in cell.features.iter() {
        list = with_feature(alloc, &mut effort, cell, list, *name, feature)?;
    }
    list.grouped(alloc)
}
