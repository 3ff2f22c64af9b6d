//! The procedures for hazards.
//!
//! They are one procedure: what is drawn goes by the geometry and by whether the depth makes the hazard a danger.

ghost use Rattle.std.specs.Prelude.{◌≡◌, ◌++◌, OnOk, IfOk};
ghost use Rattle.depth_values.specs.Under.{areas_of};
ghost use Rattle.hazard_symbology.specs.Hazard.{is_danger, hazard_items, hazard_items_at};

use crate::edges::{push_area, push_line};
use crate::point::push_point;
use chart_model::codes::{AREA, LINE, POINT};
use chart_model::{Cell, Feature, ItemList, Name, Settings};
use depth_values::{DepthAreas, Effort, depth_areas, hazard_depth_among};
use std::alloc::{AllocError, Global};

/// Whether a hazard is a danger: its depth is at most the safety contour.
fn is_danger(
    alloc: Global,
    effort: &mut Effort,
    areas: &DepthAreas,
    cell: &Cell,
    settings: &Settings,
    feature: &Feature,
) -> Result<bool, AllocError>
    requires { areas.now ≡ areas_of cell.now }
    ensures { IfOk result (λ danger. danger ≡ is_danger cell.now settings.now feature.now) }
{
    let depth = hazard_depth_among(alloc, effort, areas, cell, feature)?;
    Ok(depth <= settings.safety_contour)
}

/// Adds what is drawn of a hazard, by its geometry and its depth: a hazard no deeper than the safety contour is a
/// danger. Nothing is drawn of what has no geometry. It needs the depth areas of the cell, and takes of the effort what
/// it asks of them.
pub fn push_hazard(
    alloc: Global,
    effort: &mut Effort,
    items: &mut ItemList,
    areas: &DepthAreas,
    cell: &Cell,
    settings: &Settings,
    feature: &Feature,
) -> Result<(), AllocError>
    requires { areas.now ≡ areas_of cell.now }
    ensures { OnOk result (items.new ≡ items.old ++ hazard_items cell.now settings.now feature.now) }
{
    match feature.prim {
        POINT => push_point(alloc, effort, items, areas, cell, settings, feature),
        LINE => {
            let danger = is_danger(alloc, effort, areas, cell, settings, feature)?;
            push_line(alloc, items, feature, danger)
        }
        AREA => {
            let danger = is_danger(alloc, effort, areas, cell, settings, feature)?;
            push_area(alloc, items, feature, danger)
        }
        _ => Ok(()),
    }
}

/// What is drawn of the hazard with a name. Nothing is drawn where the cell has no such feature.
fn hazard_at(
    alloc: Global,
    cell: &Cell,
    settings: &Settings,
    name: Name,
) -> Result<ItemList, AllocError>
    ensures { IfOk result (λ items. items ≡ hazard_items_at cell.now settings.now name) }
{
    let mut items = ItemList::new(alloc);
    if let Some(feature) = cell.features.get(name) {
        let areas = depth_areas(alloc, cell)?;
        push_hazard(
            alloc,
            &mut Effort::whole(),
            &mut items,
            &areas,
            cell,
            settings,
            feature,
        )?;
    }
    Ok(items)
}

/// What is drawn of the obstruction or underwater rock with a name, as `push_hazard` has it. Nothing is drawn where the
/// cell has no such feature.
pub fn obstrn04(
    alloc: Global,
    cell: &Cell,
    settings: &Settings,
    name: Name,
) -> Result<ItemList, AllocError>
    ensures { IfOk result (λ items. items ≡ hazard_items_at cell.now settings.now name) }
{
    hazard_at(alloc, cell, settings, name)
}

/// What is drawn of the wreck with a name, as `push_hazard` has it. Nothing is drawn where the cell has no such
/// feature.
pub fn wrecks02(
    alloc: Global,
    cell: &Cell,
    settings: &Settings,
    name: Name,
) -> Result<ItemList, AllocError>
    ensures { IfOk result (λ items. items ≡ hazard_items_at cell.now settings.now name) }
{
    hazard_at(alloc, cell, settings, name)
}
