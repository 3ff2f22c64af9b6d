//! Where the nodes of a chart are, and by them where its edges begin and end.
//!
//! An edge's own coordinates leave out those of its nodes (S-57 Part 3), and most nodes belong to several edges. So the
//! places of all nodes are gathered in one pass, and an edge looks up two of them, without its line being made.

ghost use Rattle.std.specs.Prelude.{◌≡◌, T, IfOk};
ghost use Rattle.std.specs.FinMap as finite;
ghost use Rattle.chart_model.specs.Names.{name_cmp};
ghost use Rattle.spatial_grid.specs.Edges.{ends_at, node_place, node_table};

use crate::table::find;
use area_rings::{end_names, point};
use chart_model::codes::{CONNECTED_NODE, EDGE, ISOLATED_NODE};
use chart_model::{Cell, Name, Vector};
use plane_geometry::Pt;
use std::alloc::{AllocError, Global};

/// Where the begin node and the end node of an edge are.
#[derive(Clone, Copy)]
pub(crate) struct Ends {
    pub start: Pt,
    pub end: Pt,
}

/// Where a vector record is, if it is a node with a coordinate.
fn node_place(name: Name, vector: &Vector) -> Option<Pt>
    ensures { result ≡ node_place name vector.now }
{
    match name.rcnm {
        ISOLATED_NODE | CONNECTED_NODE => {
            let coord = vector.coords.as_slice().first()?;
            Some(point(coord))
        }
        _ => None,
    }
}

/// The nodes of a chart that have a coordinate, in the order of their names. It costs a pass over the vector records.
pub(crate) fn node_table(alloc: Global, cell: &Cell) -> Result<Vec<(Name, Pt)>, AllocError>
    ensures { IfOk result (λ nodes. nodes.items ≡ node_table cell.now) }
{
    let mut nodes = Vec::new(alloc);
    for (name, vector) in cell.vectors.iter() {
        if let Some(place) = node_place(*name, vector) {
            nodes.push((*name, place))?;
        }
    }
    Ok(nodes)
}

/// The ends of a vector record, if it is an edge between two nodes that have a coordinate.
pub(crate) fn ends_at(nodes: &[(Name, Pt)], name: Name, vector: &Vector) -> Option<Ends>
    requires { T (finite.is_sorted name_cmp nodes.now) }
    ensures { result ≡ ends_at nodes.now name vector.now }
{
    if name.rcnm != EDGE {
        return None;
    }
    let (from, to) = end_names(vector.pointers.as_slice())?;
    let start = find(nodes, from)?;
    let end = find(nodes, to)?;
    Some(Ends { start, end })
}
