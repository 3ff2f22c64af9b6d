//! Hazards at points.
//!
//! A danger in water that is safe otherwise is the one that a mariner could miss, so its mark stands in place of all
//! else.

ghost use Rattle.std.specs.Prelude.{◌≡◌, ◌++◌, OnOk, IfOk};
ghost use Rattle.chart_model.specs.Record.{IsWithin};
ghost use Rattle.depth_values.specs.Under.{areas_of};
ghost use Rattle.depth_values.specs.Hazard.{sounding_of};
ghost use Rattle.hazard_symbology.specs.Point.{danger_symbol, depth_items, is_isolated, items_by, point_items};

use crate::symbol::symbol_of;
use area_rings::Shape;
use chart_model::{Cell, Feature, ItemList, Settings, Target};
use depth_values::{
    DepthAreas, Effort, is_danger_over_safe_area, push_digits, shape_within, sounding,
};
use draw_items::push_item;
use std::alloc::{AllocError, Global};

/// The symbol of a hazard of a known depth: that of a danger up to the safety depth, or of a deeper one.
fn danger_symbol(depth: i32, safety_depth: i32) -> &'static [u8]
    ensures { result.now ≡ danger_symbol depth safety_depth }
{
    if depth <= safety_depth {
        b"SY(DANGER01)"
    } else {
        b"SY(DANGER02)"
    }
}

/// Adds the symbol of a hazard of a known depth, and the digits of the depth.
fn push_depth(
    alloc: Global,
    items: &mut ItemList,
    depth: i32,
    safety_depth: i32,
) -> Result<(), AllocError>
    requires { IsWithin 9999999 depth }
    ensures { OnOk result (items.new ≡ items.old ++ depth_items depth safety_depth) }
{
    push_item(
        alloc,
        items,
        Target::Whole,
        danger_symbol(depth, safety_depth),
    )?;
    push_digits(alloc, items, Target::Whole, depth, safety_depth)
}

/// Takes the places of a hazard at a point of the effort: many hazards may be at the many places of one node.
fn spend_places(effort: &mut Effort, shape: &Shape) -> Result<(), AllocError> {
    match shape {
        Shape::Points(coords) => effort.spend(coords.as_slice().len()),
        _ => Ok(()),
    }
}

/// Whether a hazard at a point is an isolated danger: no deeper than the safety contour, in water that is safe. Its
/// shape is made once, and the areas under it are asked once.
fn is_isolated(
    alloc: Global,
    effort: &mut Effort,
    areas: &DepthAreas,
    cell: &Cell,
    safety_contour: i32,
    feature: &Feature,
) -> Result<bool, AllocError>
    requires { areas.now ≡ areas_of cell.now }
    ensures { IfOk result (λ isolated. isolated ≡ is_isolated cell.now safety_contour feature.now) }
{
    let Some(shape) = shape_within(alloc, effort, cell, feature)? else {
        return Ok(false);
    };
    spend_places(effort, &shape)?;
    is_danger_over_safe_area(alloc, effort, areas, safety_contour, feature, &shape)
}

/// Adds the symbol and the digits of a hazard's own depth, where that is known, or else the symbol of its class.
fn push_by_depth(
    alloc: Global,
    items: &mut ItemList,
    settings: &Settings,
    feature: &Feature,
) -> Result<(), AllocError>
    ensures { OnOk result
        (items.new ≡ items.old ++ items_by settings.now feature.now (sounding_of feature.now)) }
{
    match sounding(feature) {
        Some(depth) => push_depth(alloc, items, depth, settings.safety_depth),
        None => push_item(alloc, items, Target::Whole, symbol_of(feature)),
    }
}

/// Adds what is drawn of a hazard at a point: the mark of an isolated danger alone; or else the symbol and the digits
/// of its own depth, where that is known; or else the symbol of its class.
pub fn push_point(
    alloc: Global,
    effort: &mut Effort,
    items: &mut ItemList,
    areas: &DepthAreas,
    cell: &Cell,
    settings: &Settings,
    feature: &Feature,
) -> Result<(), AllocError>
    requires { areas.now ≡ areas_of cell.now }
    ensures { OnOk result (items.new ≡ items.old ++ point_items cell.now settings.now feature.now) }
{
    if is_isolated(alloc, effort, areas, cell, settings.safety_contour, feature)? {
        return push_item(alloc, items, Target::Whole, b"SY(ISODGR01)");
    }
    push_by_depth(alloc, items, settings, feature)
}
