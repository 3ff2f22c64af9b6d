//! The rings of areas.
//!
//! A pointer doesn't say where a ring ends (S-57 Part 3): that shows by its nodes alone.

ghost use Rattle.std.specs.Prelude.{◌≡◌, ◌++◌, ◌∷◌, [], if◌then◌else◌, OnOk, IfOk};
ghost use Rattle.area_rings.specs.Shape.{rings_of};

use crate::edge::edge;
use crate::line::push_way;
use crate::trace::follow;
use chart_model::codes::REVERSE;
use chart_model::{Cell, Feature, Sequence};
use plane_geometry::{Pt, Ring};
use std::alloc::{AllocError, Global};
use std::mem;

/// The rings of an area in the order of its pointers.
pub type RingList = Sequence<Ring>;

/// Puts the points of a ring that is closed among the rings.
fn keep_closed(
    alloc: Global,
    closed: bool,
    points: &mut Vec<Pt>,
    rings: &mut RingList,
) -> Result<(), AllocError>
    ensures rings { OnOk result (rings.new ≡ (if closed then rings.old ++ points.old.items ∷ [] else rings.old)) }
    ensures points { OnOk result (points.new.items ≡ (if closed then [] else points.old.items)) }
{
    if !closed {
        return Ok(());
    }
    let ring = mem::replace(points, Vec::new(alloc));
    rings.push(Sequence::from_vec(ring))
}

/// The rings of an area: the first edge begins a ring at its first node, each next edge begins at the
/// node where the one before ended, and where the ring comes back to its first node it is closed and
/// the next edge begins another. `None` where there is no pointer, where a pointer's edge has no line
/// or begins elsewhere, and where the last ring isn't closed.
pub fn rings(alloc: Global, cell: &Cell, feature: &Feature) -> Result<Option<RingList>, AllocError>
    ensures { IfOk result (λ rings. rings ≡ rings_of cell.now feature.now.pointers) }
{
    let pointers = feature.pointers.as_slice();
    if pointers.is_empty() {
        return Ok(None);
    }
    let mut rings = Sequence::new(alloc);
    let mut points = Vec::new(alloc);
    let mut open = None;
    for pointer in pointers {
        let Some(edge) = edge(cell, pointer.target, pointer.ornt == REVERSE) else {
            return Ok(None);
        };
        let Some(next) = follow(open, edge.from, edge.to) else {
            return Ok(None);
        };
        open = next;
        push_way(&mut points, &edge)?;
        keep_closed(alloc, open.is_none(), &mut points, &mut rings)?;
    }
    if open.is_some() {
        return Ok(None);
    }
    Ok(Some(rings))
}
