//! The depth over a wreck, a rock or an obstruction.
//!
//! A hazard may have no depth of its own in a chart. So rules stand in an order, from what the chart knows to what it
//! doesn't: the depth, the areas in which the hazard lies, its category, the water level. A hazard of which nothing is
//! said dries 15 metres, so that what nobody knows counts as shallow.

ghost use Rattle.std.specs.Prelude.{◌≡◌, ◌&&◌, if◌then◌else◌, int_le, map, true, false, None, Some, IfOk, IfSome};
ghost use Rattle.chart_model.specs.Record.{IsWithin};
ghost use Rattle.depth_values.specs.Under.{areas_of, is_safe_among, least};
ghost use Rattle.depth_values.specs.Hazard.{sounding_of, is_wreck, is_obstruction, lies_at_bottom};
ghost use Rattle.depth_values.specs.Hazard.{asks_areas, depth_among, assumed_depth, first_depth};
ghost use Rattle.depth_values.specs.Hazard.{hazard_depth, hazard_depth_by};

use crate::areas::DepthAreas;
use crate::attributes::{depth_at, has_value};
use crate::bounded::shape_within;
use crate::codes::{
    ALWAYS_UNDER_WATER, AWASH, CATOBS, CATWRK, DANGEROUS_WRECK, DEEPER_THAN_AROUND, EXPSOU,
    FOUL_AREA, NON_DANGEROUS_WRECK, OBSTRN, VALSOU, WATLEV, WITHIN_DEPTHS_AROUND, WRECK_WITH_HULL,
    WRECK_WITH_MAST, WRECKS,
};
use crate::depth_area::AreaMark;
use crate::effort::Effort;
use crate::made::depth_areas;
use crate::under::{is_any_safe, least_among, least_of, marks_under};
use area_rings::Shape;
use chart_model::{Cell, Feature};
use std::alloc::{AllocError, Global};

/// The most that a sounding may lie below or above the datum, in centimetres: five digits of metres are drawn.
const MOST_SOUNDING: u32 = 9_999_999;

/// The depth of a wreck that is known to be no danger, in centimetres.
const NON_DANGEROUS_DEPTH: i32 = 2_010;

/// The depth of a hazard of which nothing is known: it dries 15 metres.
const DRIES: i32 = -1_500;

/// VALSOU in centimetres; `None` where it is unknown: absent, empty, no depth, or more than 9,999,999 either way. It
/// takes no memory.
pub fn sounding(feature: &Feature) -> Option<i32>
    ensures depth { result ≡ sounding_of feature.now }
    ensures within { IfSome result (IsWithin 9999999) }
{
    let depth = depth_at(feature, VALSOU)?;
    if depth.unsigned_abs() <= MOST_SOUNDING {
        Some(depth)
    } else {
        None
    }
}

/// Whether the feature is a wreck of a category.
fn is_wreck(feature: &Feature, category: &[u8]) -> bool
    ensures { result ≡ is_wreck category.now feature.now }
{
    feature.class == WRECKS && has_value(feature, CATWRK, category)
}

/// Whether the feature is an obstruction of a category.
fn is_obstruction(feature: &Feature, category: &[u8]) -> bool
    ensures { result ≡ is_obstruction category.now feature.now }
{
    feature.class == OBSTRN && has_value(feature, CATOBS, category)
}

/// Whether the hazard is always under water, and not less deep than the depths around it.
fn lies_at_bottom(feature: &Feature) -> bool
    ensures { result ≡ lies_at_bottom feature.now }
{
    has_value(feature, WATLEV, ALWAYS_UNDER_WATER)
        && (has_value(feature, EXPSOU, WITHIN_DEPTHS_AROUND)
            || has_value(feature, EXPSOU, DEEPER_THAN_AROUND))
}

/// The depth that is taken of a hazard of no known depth, in centimetres.
fn assumed_depth(feature: &Feature) -> i32
    ensures { result ≡ assumed_depth feature.now }
{
    if is_wreck(feature, NON_DANGEROUS_WRECK) {
        NON_DANGEROUS_DEPTH
    } else if is_wreck(feature, DANGEROUS_WRECK) {
        0
    } else if is_wreck(feature, WRECK_WITH_MAST) || is_wreck(feature, WRECK_WITH_HULL) {
        DRIES
    } else if is_obstruction(feature, FOUL_AREA) || has_value(feature, WATLEV, ALWAYS_UNDER_WATER) {
        1
    } else if has_value(feature, WATLEV, AWASH) {
        0
    } else {
        DRIES
    }
}

/// The least depth of those areas that are under the feature; `None` where there is none.
fn depth_among(
    alloc: Global,
    effort: &mut Effort,
    areas: &DepthAreas,
    cell: &Cell,
    feature: &Feature,
) -> Result<Option<i32>, AllocError>
    ensures { IfOk result (λ depth. depth ≡ depth_among areas.now cell.now feature.now) }
{
    match shape_within(alloc, effort, cell, feature)? {
        Some(shape) => least_among(alloc, effort, areas, &shape),
        None => Ok(None),
    }
}

/// Whether the areas under a hazard are asked for its depth: it has none of its own, and lies at their bottom.
fn asks_areas(feature: &Feature) -> bool
    ensures { result ≡ asks_areas feature.now }
{
    sounding(feature).is_none() && lies_at_bottom(feature)
}

/// The first depth of a hazard that there is: its own, that of the areas under it, or the one that its category or the
/// water level make of it.
fn first_depth(feature: &Feature, below: Option<i32>) -> i32
    ensures { result ≡ first_depth feature.now below }
{
    sounding(feature)
        .or(below)
        .unwrap_or_else(|| assumed_depth(feature))
}

/// The depth over a hazard in centimetres: its own, that is VALSOU; or, where it is always under water and not less
/// deep than the depths around it, the least of the depth areas under it; or else what its category or the water
/// level make of it, which where nothing is known is that it dries 15 metres.
///
/// The depth areas of the cell are made only where they are asked.
pub fn hazard_depth(alloc: Global, cell: &Cell, feature: &Feature) -> Result<i32, AllocError>
    ensures { IfOk result (λ depth. depth ≡ hazard_depth cell.now feature.now) }
{
    if !asks_areas(feature) {
        return Ok(first_depth(feature, None));
    }
    let areas = depth_areas(alloc, cell)?;
    hazard_depth_among(alloc, &mut Effort::whole(), &areas, cell, feature)
}

/// The same by the depth areas of the cell, which a drawing makes once. The shape of the feature is made only where the
/// areas are asked.
pub fn hazard_depth_among(
    alloc: Global,
    effort: &mut Effort,
    areas: &DepthAreas,
    cell: &Cell,
    feature: &Feature,
) -> Result<i32, AllocError>
    requires { areas.now ≡ areas_of cell.now }
    ensures { IfOk result (λ depth. depth ≡ hazard_depth cell.now feature.now) }
{
    if !asks_areas(feature) {
        return Ok(first_depth(feature, None));
    }
    let below = depth_among(alloc, effort, areas, cell, feature)?;
    Ok(first_depth(feature, below))
}

/// The same of a feature whose shape was made already.
pub fn hazard_depth_at(
    alloc: Global,
    effort: &mut Effort,
    areas: &DepthAreas,
    feature: &Feature,
    shape: &Shape,
) -> Result<i32, AllocError>
    ensures { IfOk result (λ depth. depth ≡ hazard_depth_by areas.now (Some shape.now) feature.now) }
{
    if !asks_areas(feature) {
        return Ok(first_depth(feature, None));
    }
    let below = least_among(alloc, effort, areas, shape)?;
    Ok(first_depth(feature, below))
}

/// The depth over a hazard, by what is told of the areas under it.
fn depth_over(feature: &Feature, under: &[AreaMark]) -> i32
    ensures { result ≡ first_depth feature.now
        (if asks_areas feature.now then least (map (λ mark. mark.d1) under.now) else None) }
{
    if asks_areas(feature) {
        first_depth(feature, least_of(under))
    } else {
        first_depth(feature, None)
    }
}

/// Whether a hazard is deeper than the safety contour, whatever areas are under it. Where it isn't said to be, the areas
/// are asked: nothing that is answered hangs on it, but how fast.
fn is_deep_anywhere(feature: &Feature, safety_contour: i32) -> bool
    ensures { result ≡ true →
        (asks_areas feature.now ≡ false) × (int_le (first_depth feature.now None) safety_contour ≡ false) }
{
    !asks_areas(feature) && safety_contour < first_depth(feature, None)
}

/// Whether a hazard of such a shape is no deeper than the safety contour, in centimetres, and over a safe area: one of
/// those in or on which a point of the shape lies. The areas are asked once, for the depth and for this.
pub fn is_danger_over_safe_area(
    alloc: Global,
    effort: &mut Effort,
    areas: &DepthAreas,
    safety_contour: i32,
    feature: &Feature,
    shape: &Shape,
) -> Result<bool, AllocError>
    ensures { IfOk result (λ danger. danger
        ≡ (int_le (hazard_depth_by areas.now (Some shape.now) feature.now) safety_contour
        && is_safe_among areas.now safety_contour shape.now)) }
{
    if is_deep_anywhere(feature, safety_contour) {
        return Ok(false);
    }
    let under = marks_under(alloc, effort, areas, shape)?;
    if safety_contour < depth_over(feature, under.as_slice()) {
        return Ok(false);
    }
    Ok(is_any_safe(under.as_slice(), safety_contour))
}
