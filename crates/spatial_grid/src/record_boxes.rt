//! The boxes of the vector records of a chart, each made once.
//!
//! Features share edges and nodes. So the box of each record is made once, and then found by its name for every feature
//! that points to it. An edge's coordinates leave out those of its nodes (S-57 Part 3), so its box goes by the whole
//! line.

ghost use Rattle.std.specs.Prelude.{◌≡◌, ◌∷◌, ◌++◌, [], T, map, IfOk};
ghost use Rattle.std.specs.FinMap as finite;
ghost use Rattle.chart_model.specs.Names.{name_cmp};
ghost use Rattle.area_rings.specs.Edge.{point_of};
ghost use Rattle.spatial_grid.specs.Boxes.{box_of, record_boxes};
ghost use Rattle.spatial_grid.specs.Edges.{line_between, node_table, record_box, record_table};

use crate::edges::{Ends, ends_at};
use crate::point_box::{box_with, with_coords};
use chart_model::codes::{CONNECTED_NODE, ISOLATED_NODE};
use chart_model::{Cell, Coord, Name, Vector};
use plane_bounds::Bounds;
use plane_geometry::Pt;
use std::alloc::{AllocError, Global};

/// The least box round the line of an edge: round its nodes and the points between them. It takes no memory.
fn line_box(ends: Ends, inner: &[Coord]) -> Option<Bounds>
    ensures { result ≡ box_of (line_between ends inner.now) }
{
    let begun = box_with(None, ends.start);
    let widened = with_coords(begun, inner);
    box_with(widened, ends.end)
}

/// The least box round the coordinates of a node, or round the line of an edge; `None` where it has none.
fn record_box(nodes: &[(Name, Pt)], name: Name, vector: &Vector) -> Option<Bounds>
    requires { T (finite.is_sorted name_cmp nodes.now) }
    ensures { result ≡ record_box nodes.now name vector.now }
{
    let coords = vector.coords.as_slice();
    match name.rcnm {
        ISOLATED_NODE | CONNECTED_NODE => with_coords(None, coords),
        _ => line_box(ends_at(nodes, name, vector)?, coords),
    }
}

/// The boxes of vector records, by the places of nodes.
fn record_table(
    alloc: Global,
    cell: &Cell,
    nodes: &[(Name, Pt)],
) -> Result<Vec<(Name, Bounds)>, AllocError>
    requires { T (finite.is_sorted name_cmp nodes.now) }
    ensures { IfOk result (λ boxes. boxes.items ≡ record_table nodes.now cell.now) }
{
    let mut boxes = Vec::new(alloc);
    for (name, vector) in cell.vectors.iter() {
        if let Some(bounds) = record_box(nodes, *name, vector) {
            boxes.push((*name, bounds))?;
        }
    }
    Ok(boxes)
}

/// The boxes of the vector records of a chart, in the order of their names: of nodes with a coordinate, and of edges
/// with a line. It costs the points of all records, each of them once for itself and, of a node, once for each of its
/// edges.
pub(crate) fn record_boxes(
    alloc: Global,
    cell: &Cell,
    nodes: &[(Name, Pt)],
) -> Result<Vec<(Name, Bounds)>, AllocError>
    requires { nodes.now ≡ node_table cell.now }
    ensures { IfOk result (λ boxes. boxes.items ≡ record_boxes cell.now) }
{
    record_table(alloc, cell, nodes)
}
