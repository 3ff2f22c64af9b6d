//! A grid over the whole globe.
//!
//! No coordinate of S-57 lies further out, and no chart is wider: a bucket is some five degrees wide, so that what
//! stands at a corner has to be found in the outermost row and column.

ghost use Rattle.std.specs.Prelude.{IfOk};
ghost use Rattle.chart_model.specs.Record.{AreCoords, IsCoord};

use super::answers::{Case, are_answered};
use chart_model::{Cell, Coord, Coords, Sequence, UpdateRecord};
use sample_rows::{Row, add_rows, chart, feature, name, vector};
use std::alloc::{AllocError, Global};
use std::test::Fail;
use update_apply::apply_record;

/// The longitudes and latitudes at which the globe ends, in degrees times 10,000,000.
const WEST: i64 = -1_800_000_000;

const EAST: i64 = 1_800_000_000;

const SOUTH: i64 = -900_000_000;

const NORTH: i64 = 900_000_000;

/// The connected nodes at the corners of the globe, round it.
static CORNERS: [(u32, (i64, i64)); 4] = [
    (1, (WEST, SOUTH)),
    (2, (EAST, SOUTH)),
    (3, (EAST, NORTH)),
    (4, (WEST, NORTH)),
];

/// The edges between the corners, an area within them, a point at each corner, two of the edges as lines, and a point
/// in the middle.
static ROWS: [Row; 13] = [
    vector!(110, 1, [], [(0, 0, 0)]),
    vector!(130, 1, [(120, 1, 1), (120, 2, 2)], []),
    vector!(130, 2, [(120, 2, 1), (120, 3, 2)], []),
    vector!(130, 3, [(120, 3, 1), (120, 4, 2)], []),
    vector!(130, 4, [(120, 4, 1), (120, 1, 2)], []),
    feature!(3, 1, [(130, 1, 1), (130, 2, 1), (130, 3, 1), (130, 4, 1)]),
    feature!(1, 2, [(120, 1, 255)]),
    feature!(1, 3, [(120, 2, 255)]),
    feature!(1, 4, [(120, 3, 255)]),
    feature!(1, 5, [(120, 4, 255)]),
    feature!(1, 6, [(110, 1, 255)]),
    feature!(2, 7, [(130, 1, 1)]),
    feature!(2, 8, [(130, 2, 1)]),
];

static CASES: [Case; 16] = [
    // the corners, and the places next to them
    ((WEST, SOUTH, WEST, SOUTH), &[1, 2, 7]),
    ((EAST, SOUTH, EAST, SOUTH), &[1, 3, 7, 8]),
    ((EAST, NORTH, EAST, NORTH), &[1, 4, 8]),
    ((WEST, NORTH, WEST, NORTH), &[1, 5]),
    ((WEST, SOUTH + 1, EAST - 1, NORTH - 1), &[1, 6]),
    // the middle, and beside it
    ((0, 0, 0, 0), &[1, 6]),
    ((-1, -1, 1, 1), &[1, 6]),
    ((1, 1, 2, 2), &[1]),
    // all of it, its halves, and more than it
    ((WEST, SOUTH, EAST, NORTH), &[1, 2, 3, 4, 5, 6, 7, 8]),
    ((WEST, SOUTH, -1, NORTH), &[1, 2, 5, 7]),
    ((WEST, 1, EAST, NORTH), &[1, 4, 5, 8]),
    (
        (i64::MIN, i64::MIN, i64::MAX, i64::MAX),
        &[1, 2, 3, 4, 5, 6, 7, 8],
    ),
    // past each of its ends
    ((WEST - 2, SOUTH, WEST - 1, NORTH), &[]),
    ((EAST + 1, SOUTH, EAST + 2, NORTH), &[]),
    ((WEST, SOUTH - 2, EAST, SOUTH - 1), &[]),
    ((WEST, NORTH + 1, EAST, NORTH + 2), &[]),
];

/// A coordinate at a corner, as a whole number of the globe.
fn coord(corner: (i64, i64)) -> Coord
    ensures { IsCoord result }
{
    Coord {
        x: corner.0.clamp(WEST, EAST) as i32,
        y: corner.1.clamp(SOUTH, NORTH) as i32,
        z: None,
    }
}

/// The coordinates of one corner.
fn coords(alloc: Global, corner: (i64, i64)) -> Result<Coords, AllocError>
    ensures { IfOk result AreCoords }
{
    let mut coords = Sequence::new(alloc);
    coords.push(coord(corner))?;
    Ok(coords)
}

/// The insertion of a connected node at a corner. Rows have no coordinates that great.
fn node(alloc: Global, rcid: u32, corner: (i64, i64)) -> Result<UpdateRecord, AllocError> {
    Ok(UpdateRecord {
        target: name!(120, rcid),
        ruin: 1,
        version: 1,
        prim: 0,
        grup: 0,
        class: 0,
        foid: None,
        attrs: Sequence::new(alloc),
        pointer_edit: None,
        pointers: Sequence::new(alloc),
        coord_edit: None,
        coords: coords(alloc, corner)?,
        related_edit: None,
        related: Sequence::new(alloc),
    })
}

/// The chart of the corners and the rows.
fn globe(alloc: Global) -> Result<Cell, Fail> {
    let mut cell = chart(alloc, &[])?;
    for (rcid, corner) in &CORNERS {
        apply_record(alloc, &mut cell, &node(alloc, *rcid, *corner)?)?;
    }
    add_rows(alloc, &mut cell, &ROWS)?;
    Ok(cell)
}

#[test]
fn over_the_globe(rt: HostRuntime) -> Result<(), Fail> {
    let alloc = rt.alloc();
    let cell = globe(alloc)?;
    assert!(rt; are_answered(alloc, &cell, &CASES)?);
    Ok(())
}
