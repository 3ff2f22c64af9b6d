//! Whether a feature has a shape.
//!
//! Closure asks this of every feature of a chart, so it takes no memory, as `shape` has to.

ghost use Rattle.std.specs.Prelude.{◌↔◌, IsTrue, IsSome, All, false};
ghost use Rattle.area_rings.specs.Shape.{line_of, rings_of, shape_of};
ghost use Rattle.area_rings.specs.Edge.{node_of, edge_of};

use crate::edge::{edge, node};
use crate::trace::follow;
use chart_model::codes::{AREA, LINE, NO_PRIMITIVE, POINT, REVERSE};
use chart_model::{Cell, Feature, Name, Pointer};

/// Whether each of the pointers is to a node.
fn all_nodes(cell: &Cell, pointers: &[Pointer]) -> bool
    ensures { IsTrue result ↔ All (λ pointer. IsSome (node_of cell.now pointer.target)) pointers.now }
{
    pointers
        .iter()
        .all(|pointer| node(cell, pointer.target).is_some())
}

/// Whether each of the pointers is to an edge with a line.
fn all_lines(cell: &Cell, pointers: &[Pointer]) -> bool
    ensures { IsTrue result ↔ All (λ pointer. IsSome (edge_of cell.now pointer.target)) pointers.now }
{
    pointers
        .iter()
        .all(|pointer| edge(cell, pointer.target, false).is_some())
}

/// Whether the pointers' edges are rings one after the other.
fn all_rings(cell: &Cell, pointers: &[Pointer]) -> bool
    ensures { IsTrue result ↔ IsSome (rings_of cell.now pointers.now) }
{
    if pointers.is_empty() {
        return false;
    }
    let mut open = None;
    for pointer in pointers {
        let Some(edge) = edge(cell, pointer.target, pointer.ornt == REVERSE) else {
            return false;
        };
        let Some(next) = follow(open, edge.from, edge.to) else {
            return false;
        };
        open = next;
    }
    open.is_none()
}

/// Whether `edge_line` gives a line of that edge. It takes no memory.
pub fn has_line(cell: &Cell, name: Name) -> bool
    ensures { IsTrue result ↔ IsSome (line_of cell.now name false) }
{
    edge(cell, name, false).is_some()
}

/// Whether `feature_shape` gives a shape. It takes no memory.
pub fn has_shape(cell: &Cell, feature: &Feature) -> bool
    ensures { IsTrue result ↔ IsSome (shape_of cell.now feature.now) }
{
    let pointers = feature.pointers.as_slice();
    match feature.prim {
        POINT => all_nodes(cell, pointers),
        LINE => all_lines(cell, pointers),
        AREA => all_rings(cell, pointers),
        prim => prim == NO_PRIMITIVE,
    }
}
