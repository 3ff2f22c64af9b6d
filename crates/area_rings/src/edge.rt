//! Nodes, and edges on the way from one of their nodes to the other.
//!
//! An edge is lent with its direction and not copied, so that rings and lines are made in one go over the cell.

ghost use Rattle.std.specs.Prelude.{◌≡◌};
ghost use Rattle.std.specs.Option.{option_copied, option_map};
ghost use Rattle.area_rings.specs.Edge.{is_node, node_of, point_of, place_of};
ghost use Rattle.area_rings.specs.Edge.{begins_and_ends, ends_of, edge_of, way_along};
ghost use Rattle.area_rings.specs.Direction.{value_of};

use chart_model::codes::{BEGIN_NODE, CONNECTED_NODE, EDGE, END_NODE, ISOLATED_NODE};
use chart_model::{Cell, Coord, Name, Pointer, Vector};
use plane_geometry::Pt;

/// An edge on the way from one of its nodes to the other.
#[derive(Clone, Copy)]
pub(crate) struct DirectedEdge<'a> {
    pub from: Name,
    pub to: Name,
    /// Where the node `from` is.
    pub start: Pt,
    /// Where the node `to` is.
    pub end: Pt,
    /// The points between the nodes in the order of their record.
    pub inner: &'a [Coord],
    /// Whether the way passes them in reverse.
    pub reversed: bool,
}

/// The plane's point of a coordinate. It takes no memory.
pub fn point(coord: &Coord) -> Pt
    ensures { result ≡ point_of coord.now }
{
    Pt {
        x: coord.x,
        y: coord.y,
    }
}

/// The node of that name. It takes no memory.
pub(crate) fn node(cell: &Cell, name: Name) -> Option<&Vector>
    ensures { option_copied result ≡ node_of cell.now name }
{
    match name.rcnm {
        ISOLATED_NODE | CONNECTED_NODE => cell.vectors.get(name),
        _ => None,
    }
}

/// Where the node of that name is.
fn place(cell: &Cell, name: Name) -> Option<Pt>
    ensures { result ≡ place_of cell.now name }
{
    let node = node(cell, name)?;
    let coord = node.coords.as_slice().first()?;
    Some(point(coord))
}

/// Whether two pointers are to an edge's begin node and to its end node.
fn begins_and_ends(begin: &Pointer, end: &Pointer) -> bool
    ensures { result ≡ begins_and_ends begin.now end.now }
{
    begin.topi == BEGIN_NODE && end.topi == END_NODE
}

/// The begin node and the end node that an edge's pointers name.
pub fn end_names(pointers: &[Pointer]) -> Option<(Name, Name)>
    ensures { result ≡ ends_of pointers.now }
{
    let [first, second] = pointers else {
        return None;
    };
    if begins_and_ends(first, second) {
        return Some((first.target, second.target));
    }
    if begins_and_ends(second, first) {
        return Some((second.target, first.target));
    }
    None
}

/// The edge of that name from its begin node to its end node.
fn recorded(cell: &Cell, name: Name) -> Option<DirectedEdge<'_>>
    ensures { option_map value_of result ≡ edge_of cell.now name }
{
    if name.rcnm != EDGE {
        return None;
    }
    let vector = cell.vectors.get(name)?;
    let (from, to) = end_names(vector.pointers.as_slice())?;
    let start = place(cell, from)?;
    let end = place(cell, to)?;
    let inner = vector.coords.as_slice();
    Some(DirectedEdge {
        from,
        to,
        start,
        end,
        inner,
        reversed: false,
    })
}

impl DirectedEdge<'_> {
    ghost use Rattle.std.specs.Prelude.{true};
    ghost use Rattle.area_rings.specs.Direction.{value_of};

    /// The edge the other way.
    fn in_reverse(self) -> Self
        ensures { value_of result ≡ way_along true (value_of self.entry) }
    {
        DirectedEdge {
            from: self.to,
            to: self.from,
            start: self.end,
            end: self.start,
            inner: self.inner,
            reversed: !self.reversed,
        }
    }
}

/// The edge of that name from its begin node to its end node, or in reverse. It takes no memory.
pub(crate) fn edge(cell: &Cell, name: Name, reversed: bool) -> Option<DirectedEdge<'_>>
    ensures { option_map value_of result ≡ option_map (way_along reversed) (edge_of cell.now name) }
{
    let edge = recorded(cell, name)?;
    Some(if reversed { edge.in_reverse() } else { edge })
}
