//! What depth areas cover, in groups of neighbours.
//!
//! Most areas of a chart are far from a point. So what they cover is put into groups of what is near each other, each
//! with a box round all of it: who asks which areas hold a point asks the boxes of the groups first.

ghost use Rattle.std.specs.Prelude.{◌≡◌, ◌<◌, ◌≤◌, ℕ, IfOk, Contains, length};
ghost use Rattle.plane_bounds.specs.Bounds.{Holds};
ghost use Rattle.depth_values.specs.Groups.{IsGroup, IsGroupOf, IsRound, AreGrouped};

use crate::extent::Extent;
use plane_bounds::Bounds;
use std::alloc::{AllocError, Global};

/// How many extents a group has at most.
const MOST_EXTENTS: usize = 64;

/// Extents that are near each other.
#[derive(Debug, Drop)]
pub struct Group {
    /// A box round the rings of all of them.
    pub bounds: Bounds,
    /// Their places among the extents of the chart.
    pub places: Vec<usize>,
}

/// What puts extents that are near each other next to each other: first those of about one size, so that a large one
/// stands in no group of small ones, then those of about one latitude.
#[derive(Clone, Copy, Debug, PartialEq, Eq, PartialOrd, Ord)]
struct GroupOrder {
    /// The power of two that the longer side of the extent's box reaches.
    size: u32,
    /// The row of the box's south border, where a row is some such sides wide.
    row: i64,
    west: i64,
}

/// What orders an extent by its box. Nothing that is answered hangs on it, but how fast.
fn order_of(bounds: Bounds) -> GroupOrder {
    let width = bounds.x0.abs_diff(bounds.x1);
    let height = bounds.y0.abs_diff(bounds.y1);
    let size = width.max(height).max(1).ilog2();
    GroupOrder {
        size,
        row: bounds.y0 >> (size + 3).min(63),
        west: bounds.x0,
    }
}

/// What orders the extent at a place.
fn order_at(extents: &[Extent], place: usize) -> GroupOrder {
    match extents.get(place) {
        Some(extent) => order_of(extent.bounds()),
        None => order_of(Bounds::NOTHING),
    }
}

/// The places of all extents, those of neighbours next to each other.
fn places_of(alloc: Global, extents: &[Extent]) -> Result<Vec<usize>, AllocError>
    ensures { IfOk result (λ places. (place : ℕ) → place < length extents.now → Contains places.items place) }
{
    let mut places = Vec::new(alloc);
    for place in 0..extents.len() {
        places.push(place)?;
    }
    places.sort_by_key(|place| order_at(extents, *place))?;
    Ok(places)
}

/// The box with the rings of the extent at a place.
fn with_extent(bounds: Bounds, extents: &[Extent], place: usize) -> Bounds
    ensures kept { Holds result bounds }
    ensures there { IsRound extents.now result place }
{
    match extents.get(place) {
        Some(extent) => bounds.around(extent.bounds()),
        None => bounds,
    }
}

/// A box round the rings of the extents at some places.
fn bounds_round(extents: &[Extent], places: &[usize]) -> Bounds
    ensures { (place : ℕ) → Contains places.now place → IsRound extents.now result place }
{
    let mut bounds = Bounds::NOTHING;
    for place in places {
        bounds = with_extent(bounds, extents, *place);
    }
    bounds
}

/// The group of the extents at some places.
fn group_of(alloc: Global, extents: &[Extent], places: &[usize]) -> Result<Group, AllocError>
    ensures { IfOk result (IsGroupOf extents.now places.now) }
{
    let bounds = bounds_round(extents, places);
    let places = Vec::from_slice(alloc, places)?;
    Ok(Group { bounds, places })
}

/// The groups of extents: each stands in one.
pub(crate) fn groups_of(alloc: Global, extents: &[Extent]) -> Result<Vec<Group>, AllocError>
    ensures { IfOk result (λ groups. AreGrouped extents.now groups.items) }
{
    let places = places_of(alloc, extents)?;
    let mut groups = Vec::new(alloc);
    let mut rest = places.as_slice();
    while !rest.is_empty() {
        let (neighbours, others) = rest.split_at(rest.len().min(MOST_EXTENTS));
        let group = group_of(alloc, extents, neighbours)?;
        groups.push(group)?;
        rest = others;
    }
    Ok(groups)
}
