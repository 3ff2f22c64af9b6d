//! Cells that are made for trials.
//!
//! Benches, tests and the line `make` need charts of any size without a chart of anybody's. Such a cell has as many
//! depth areas as are asked for, each with a node and an edge of its own, so that its records, and what is drawn of it,
//! can be told by hand from that number alone.

ghost use Rattle.std.specs.Prelude.{◌≡◌, ◌≤◌, ◌<◌, ◌+◌, pos, IfOk, OnOk};
ghost use Rattle.text_scan.specs.Written.{decimal_of};
ghost use Rattle.std.specs.Int.{IsInRange};
ghost use Rattle.std.specs.FinMap as map;
ghost use Rattle.cell_bytes.specs.Generator.{areas_to, edges_to, made_area, made_cell, made_depths, made_edge};
ghost use Rattle.cell_bytes.specs.Generator.{made_header, made_key, made_node, made_place, nodes_to, to_node};

use chart_model::codes::{
    AREA, BEGIN_NODE, CONNECTED_NODE, EDGE, END_NODE, EXTERIOR, FEATURE, FORWARD, NULL,
};
use chart_model::{
    AttrMap, Cell, Coord, Coords, Feature, FeatureMap, Foid, Header, Key, Name, Octets, Pointer,
    Pointers, RelatedList, Vector, VectorMap,
};
use std::alloc::{AllocError, Global};

/// The class of depth areas.
pub(crate) const DEPARE: u16 = 42;

/// The attribute of the least depth of a depth area.
pub(crate) const DRVAL1: u16 = 87;

/// The attribute of its greatest depth.
const DRVAL2: u16 = 88;

/// The producing agency.
const AGENCY: u16 = 550;

/// The key of the cell with so many areas: MK, and their number in six digits.
#[tactic(auto, unfolding(crate::specs::Record::digits))]
fn made_key(count: u32) -> Key
    ensures { result ≡ made_key count }
{
    let digit = |place: u32| b'0' + (count / place % 10) as u8;
    let bytes = [
        b'M',
        b'K',
        digit(100_000),
        digit(10_000),
        digit(1_000),
        digit(100),
        digit(10),
        digit(1),
    ];
    match Key::from_bytes(&bytes) {
        Some(key) => key,
        None => unreachable!(),
    }
}

/// The header of a file of that cell.
pub(crate) fn made_header(count: u32, update: u32, scale: u32) -> Header
    ensures { result ≡ made_header count update scale }
{
    Header {
        key: made_key(count),
        edition: 1,
        update,
        issued: *b"20240101",
        agency: AGENCY,
        scale,
    }
}

/// A place so far east and so far north.
fn made_place(x: u32, y: u32) -> Coord
    requires x { x ≤ 20000900 }
    requires y { y ≤ 900 }
    ensures { result ≡ made_place x y }
{
    Coord {
        x: x as i32,
        y: y as i32,
        z: None,
    }
}

/// The node of an area.
fn made_node(alloc: Global, number: u32) -> Result<Vector, AllocError>
    requires { number ≤ 20000 }
    ensures { IfOk result (λ node. node ≡ made_node number) }
{
    let mut coords = Coords::new(alloc);
    coords.push(made_place(1000 * number, 0))?;
    Ok(Vector {
        version: 1,
        attrs: AttrMap::new(alloc),
        pointers: Pointers::new(alloc),
        coords,
    })
}

/// A pointer of an edge to the node of its area.
fn to_node(number: u32, topi: u8) -> Pointer
    ensures { result ≡ to_node number topi }
{
    Pointer {
        target: Name {
            rcnm: CONNECTED_NODE,
            rcid: number,
        },
        ornt: NULL,
        usag: NULL,
        topi,
        mask: NULL,
    }
}

/// The edge of an area.
fn made_edge(alloc: Global, number: u32) -> Result<Vector, AllocError>
    requires { number ≤ 20000 }
    ensures { IfOk result (λ edge. edge ≡ made_edge number) }
{
    let mut pointers = Pointers::new(alloc);
    pointers.push(to_node(number, BEGIN_NODE))?;
    pointers.push(to_node(number, END_NODE))?;
    let mut coords = Coords::new(alloc);
    coords.push(made_place(1000 * number + 900, 0))?;
    coords.push(made_place(1000 * number + 900, 900))?;
    coords.push(made_place(1000 * number, 900))?;
    Ok(Vector {
        version: 1,
        attrs: AttrMap::new(alloc),
        pointers,
        coords,
    })
}

/// The decimal text of a number below 100.
#[tactic(auto, using(crate::proofs::Digits::decimal_below_ten, crate::proofs::Digits::decimal_below_hundred))]
pub(crate) fn decimal(alloc: Global, number: u32) -> Result<Octets, AllocError>
    requires { number < 100 }
    ensures { IfOk result (λ text. text ≡ decimal_of (pos number)) }
{
    let ones = b'0' + (number % 10) as u8;
    if number < 10 {
        return Octets::from_slice(alloc, &[ones]);
    }
    Octets::from_slice(alloc, &[b'0' + (number / 10) as u8, ones])
}

/// The attributes of an area whose least depth is so many metres.
fn made_depths(alloc: Global, metres: u32) -> Result<AttrMap, AllocError>
    requires { metres < 50 }
    ensures { IfOk result (λ attrs. attrs ≡ made_depths metres) }
{
    let mut attrs = AttrMap::new(alloc);
    attrs.set(DRVAL1, decimal(alloc, metres)?)?;
    attrs.set(DRVAL2, decimal(alloc, metres + 10)?)?;
    Ok(attrs)
}

/// An area.
fn made_area(alloc: Global, number: u32) -> Result<Feature, AllocError>
    requires { number ≤ 20000 }
    ensures { IfOk result (λ area. area ≡ made_area number) }
{
    let mut pointers = Pointers::new(alloc);
    pointers.push(Pointer {
        target: Name {
            rcnm: EDGE,
            rcid: number,
        },
        ornt: FORWARD,
        usag: EXTERIOR,
        topi: NULL,
        mask: NULL,
    })?;
    Ok(Feature {
        prim: AREA,
        grup: 1,
        class: DEPARE,
        version: 1,
        foid: Foid {
            agen: AGENCY,
            fidn: number,
            fids: 1,
        },
        attrs: made_depths(alloc, number % 50)?,
        related: RelatedList::new(alloc),
        pointers,
    })
}

/// The nodes of so many areas.
#[tactic(auto, unfolding(crate::specs::Generator::nodes_to))]
fn made_nodes(alloc: Global, count: u32) -> Result<VectorMap, AllocError>
    requires { count ≤ 20000 }
    ensures { IfOk result (λ vectors. vectors ≡ nodes_to count) }
{
    let mut vectors = VectorMap::new(alloc);
    for before in 0..count {
        let number = before + 1;
        let name = Name {
            rcnm: CONNECTED_NODE,
            rcid: number,
        };
        vectors.insert(name, made_node(alloc, number)?)?;
    }
    Ok(vectors)
}

/// Adds the edges of so many areas.
#[tactic(auto, unfolding(crate::specs::Generator::edges_to))]
fn add_edges(alloc: Global, vectors: &mut VectorMap, count: u32) -> Result<(), AllocError>
    requires { count ≤ 20000 }
    ensures { OnOk result (vectors.new ≡ edges_to vectors.old count) }
{
    for before in 0..count {
        let number = before + 1;
        let name = Name {
            rcnm: EDGE,
            rcid: number,
        };
        vectors.insert(name, made_edge(alloc, number)?)?;
    }
    Ok(())
}

/// So many areas.
#[tactic(auto, unfolding(crate::specs::Generator::areas_to))]
fn made_areas(alloc: Global, count: u32) -> Result<FeatureMap, AllocError>
    requires { count ≤ 20000 }
    ensures { IfOk result (λ features. features ≡ areas_to count) }
{
    let mut features = FeatureMap::new(alloc);
    for before in 0..count {
        let number = before + 1;
        let name = Name {
            rcnm: FEATURE,
            rcid: number,
        };
        features.insert(name, made_area(alloc, number)?)?;
    }
    Ok(features)
}

/// Makes a cell for trials with `n` depth areas, side by side, each with an edge and a connected node of its own: area
/// `i` is a square of 900 units (10⁻⁷ degrees) from the point `(1000 i, 0)` on, between `i` modulo 50 and 10 metres
/// more.
///
/// # Errors
///
/// Want of memory.
#[tactic(auto, unfolding(crate::specs::Generator::made_cell))]
pub fn make_cell(alloc: Global, n: u32) -> Result<Cell, AllocError>
    requires { IsInRange 1 20000 n }
    ensures { IfOk result (λ cell. cell ≡ made_cell n) }
{
    let mut vectors = made_nodes(alloc, n)?;
    add_edges(alloc, &mut vectors, n)?;
    let features = made_areas(alloc, n)?;
    Ok(Cell {
        header: made_header(n, 0, 10_000),
        vectors,
        features,
    })
}
