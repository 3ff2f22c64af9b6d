//! The lines of edges.
//!
//! The points of an edge leave out its nodes (S-57 Part 3), so a line puts these at both ends.

ghost use Rattle.std.specs.Prelude.{◌≡◌, ◌++◌, map, reverse, OnOk, IfOk};
ghost use Rattle.area_rings.specs.Edge.{point_of};
ghost use Rattle.area_rings.specs.Direction.{value_of};
ghost use Rattle.area_rings.specs.Rings.{but_last};
ghost use Rattle.area_rings.specs.Shape.{line_of, lines_of};

use crate::edge::{DirectedEdge, edge, point};
use chart_model::codes::REVERSE;
use chart_model::{Cell, Coord, Name, Pointer, Sequence};
use plane_geometry::Pt;
use std::alloc::{AllocError, Global};

/// The points of an edge from one of its nodes to the other.
pub type Line = Sequence<Pt>;

/// Lines in the order of a feature's pointers.
pub type LineList = Sequence<Line>;

/// Adds the points of coordinates.
fn push_forward(points: &mut Vec<Pt>, coords: &[Coord]) -> Result<(), AllocError>
    ensures { OnOk result (points.new.items ≡ points.old.items ++ map point_of coords.now) }
{
    points.extend(coords.iter().map(point))
}

/// Adds the points of coordinates, the last one first.
fn push_backward(points: &mut Vec<Pt>, coords: &[Coord]) -> Result<(), AllocError>
    ensures { OnOk result (points.new.items ≡ points.old.items ++ map point_of (reverse coords.now)) }
{
    points.extend(coords.iter().rev().map(point))
}

/// Adds the points of an edge without its last, at which the next edge begins.
pub(crate) fn push_way(points: &mut Vec<Pt>, edge: &DirectedEdge<'_>) -> Result<(), AllocError>
    ensures { OnOk result (points.new.items ≡ points.old.items ++ but_last (value_of edge.now).points) }
{
    points.push(edge.start)?;
    if edge.reversed {
        push_backward(points, edge.inner)
    } else {
        push_forward(points, edge.inner)
    }
}

/// The line of an edge: its begin node, its own points and its end node, or in reverse. `None` where
/// there is no edge of that name; where it hasn't exactly one pointer to a begin node and one to an end
/// node, and no other; or where one of these is no node of the cell or has no coordinate.
pub fn edge_line(
    alloc: Global,
    cell: &Cell,
    edge: Name,
    reverse: bool,
) -> Result<Option<Line>, AllocError>
    ensures { IfOk result (λ line. line ≡ line_of cell.now edge reverse) }
{
    let Some(edge) = crate::edge::edge(cell, edge, reverse) else {
        return Ok(None);
    };
    let mut points = Vec::with_capacity(alloc, edge.inner.len().saturating_add(2))?;
    push_way(&mut points, &edge)?;
    points.push(edge.end)?;
    Ok(Some(Sequence::from_vec(points)))
}

/// The lines of edges, in order; `None` where one of them has no line.
pub(crate) fn lines(
    alloc: Global,
    cell: &Cell,
    pointers: &[Pointer],
) -> Result<Option<LineList>, AllocError>
    ensures { IfOk result (λ lines. lines ≡ lines_of cell.now pointers.now) }
{
    let mut lines = Sequence::new(alloc);
    for pointer in pointers {
        let Some(line) = edge_line(alloc, cell, pointer.target, pointer.ornt == REVERSE)? else {
            return Ok(None);
        };
        lines.push(line)?;
    }
    Ok(Some(lines))
}
