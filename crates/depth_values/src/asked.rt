//! Which depth areas hold one of some points.
//!
//! Only what areas cover is asked, and of that only the groups whose box meets the box round the points.

ghost use Rattle.std.specs.Prelude.{◌≡◌, All, Contains, OnOk, IfOk};
ghost use Rattle.std.specs.List.Sorted.{IsStrictlyIncreasing};
ghost use Rattle.plane_bounds.specs.Bounds.{IsIn};
ghost use Rattle.depth_values.specs.Groups.{IsGroup, AreGrouped, StandsIn};
ghost use Rattle.depth_values.specs.Asked.{AreAsked, AreHolding};

use crate::areas::DepthAreas;
use crate::effort::Effort;
use crate::extent::Extent;
use crate::groups::Group;
use plane_bounds::{Bounds, insides_are_in_bounds, points_are_inside};
use plane_geometry::Pt;
use std::alloc::{AllocError, Global};

/// A box round points: of none, one that no point is in.
fn bounds_round(points: &[Pt]) -> Bounds
    ensures { All (IsIn result) points.now }
{
    let mut bounds = Bounds::NOTHING;
    for p in points {
        bounds = bounds.with(*p);
    }
    bounds
}

/// Adds the places of the areas that cover the extent at a place, where it holds one of the points.
fn push_extent(
    effort: &mut Effort,
    held: &mut Vec<usize>,
    extents: &[Extent],
    points: &[Pt],
    place: usize,
) -> Result<(), AllocError>
    ensures { OnOk result (AreAsked points.now extents.now (λ asked. asked ≡ place) held.old.items held.new.items) }
{
    let Some(extent) = extents.get(place) else {
        return Ok(());
    };
    let holds = extent.holds_any(effort, points)?;
    if holds {
        effort.spend(extent.count())?;
        extent.push_places(held)?;
    }
    Ok(())
}

/// Adds the places of the areas that cover the extents at some places, where these hold one of the points.
fn push_extents(
    effort: &mut Effort,
    held: &mut Vec<usize>,
    extents: &[Extent],
    points: &[Pt],
    places: &[usize],
) -> Result<(), AllocError>
    ensures { OnOk result (AreAsked points.now extents.now (Contains places.now) held.old.items held.new.items) }
{
    for place in places {
        push_extent(effort, held, extents, points, *place)?;
    }
    Ok(())
}

/// Adds the places of the areas that cover the extents of a group, where these hold one of the points, which are all in
/// a box. Where the boxes don't meet there is none.
fn push_group(
    effort: &mut Effort,
    held: &mut Vec<usize>,
    extents: &[Extent],
    points: &[Pt],
    bounds: Bounds,
    group: &Group,
) -> Result<(), AllocError>
    requires round { IsGroup extents.now group.now }
    requires within { All (IsIn bounds) points.now }
    ensures { OnOk result
        (AreAsked points.now extents.now (Contains group.now.places.items) held.old.items held.new.items) }
{
    points_are_inside();
    insides_are_in_bounds();
    if group.bounds.meets(bounds) {
        return push_extents(effort, held, extents, points, group.places.as_slice());
    }
    Ok(())
}

/// Adds the places of the areas that cover the extents of groups, where these hold one of the points.
fn push_groups(
    effort: &mut Effort,
    held: &mut Vec<usize>,
    extents: &[Extent],
    points: &[Pt],
    groups: &[Group],
) -> Result<(), AllocError>
    requires { AreGrouped extents.now groups.now }
    ensures { OnOk result (AreAsked points.now extents.now (StandsIn groups.now) held.old.items held.new.items) }
{
    let bounds = bounds_round(points);
    for group in groups {
        push_group(effort, held, extents, points, bounds, group)?;
    }
    Ok(())
}

/// The places of the areas that hold one of the points, in order, each once.
pub(crate) fn places_holding(
    alloc: Global,
    effort: &mut Effort,
    areas: &DepthAreas,
    points: &[Pt],
) -> Result<Vec<usize>, AllocError>
    ensures held { IfOk result (λ places. AreHolding points.now areas.now places.items) }
    ensures ordered { IfOk result (λ places. IsStrictlyIncreasing places.items) }
{
    let mut held = Vec::new(alloc);
    let extents = areas.extents();
    push_groups(
        effort,
        &mut held,
        extents.as_slice(),
        points,
        extents.groups(),
    )?;
    held.sort()?;
    held.dedup();
    Ok(held)
}
