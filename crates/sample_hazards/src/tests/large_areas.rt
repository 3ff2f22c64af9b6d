//! Points over an area of some 80 points.
//!
//! Such an area is asked by height, and what it answers is held against the plain test of all of its segments.

use crate::tests::squares::object;
use area_rings::{RingList, Shape, rings};
use chart_model::{Cell, Coord, Sequence};
use depth_values::codes::WRECKS;
use depth_values::{DepthAreas, Effort, areas_among, depth_areas, hazard_depth_among};
use plane_geometry::{Pt, inside_even_odd};
use sample_rows::{Item, Row, add_rows, chart, feature, name, vector};
use std::alloc::Global;
use std::test::Fail;

/// The west side of the area: it goes to and fro on its way north, and is level at times.
const WEST: [Item; 69] = [
    (40, 11, 0),
    (60, 12, 0),
    (40, 13, 0),
    (60, 14, 0),
    (45, 15, 0),
    (55, 15, 0),
    (40, 17, 0),
    (60, 18, 0),
    (45, 19, 0),
    (50, 20, 0),
    (40, 21, 0),
    (60, 22, 0),
    (40, 23, 0),
    (60, 24, 0),
    (45, 25, 0),
    (55, 25, 0),
    (40, 27, 0),
    (60, 28, 0),
    (45, 29, 0),
    (50, 30, 0),
    (40, 31, 0),
    (60, 32, 0),
    (40, 33, 0),
    (60, 34, 0),
    (45, 35, 0),
    (55, 35, 0),
    (40, 37, 0),
    (60, 38, 0),
    (45, 39, 0),
    (50, 40, 0),
    (40, 41, 0),
    (60, 42, 0),
    (40, 43, 0),
    (60, 44, 0),
    (45, 45, 0),
    (55, 45, 0),
    (40, 47, 0),
    (60, 48, 0),
    (45, 49, 0),
    (50, 50, 0),
    (40, 51, 0),
    (60, 52, 0),
    (40, 53, 0),
    (60, 54, 0),
    (45, 55, 0),
    (55, 55, 0),
    (40, 57, 0),
    (60, 58, 0),
    (45, 59, 0),
    (50, 60, 0),
    (40, 61, 0),
    (60, 62, 0),
    (40, 63, 0),
    (60, 64, 0),
    (45, 65, 0),
    (55, 65, 0),
    (40, 67, 0),
    (60, 68, 0),
    (45, 69, 0),
    (50, 70, 0),
    (40, 71, 0),
    (60, 72, 0),
    (40, 73, 0),
    (60, 74, 0),
    (45, 75, 0),
    (55, 75, 0),
    (40, 77, 0),
    (60, 78, 0),
    (45, 79, 0),
];

/// An area of 5 metres from 10 to 80 north, whose east side is straight and stands at 200. It has a square hole, from 100
/// to 120 east and from 40 to 60 north. The node of a wreck is in it.
static AREA: [Row; 8] = [
    vector!(110, 1, [], [(150, 50, 0)]),
    vector!(120, 1, [], [(50, 10, 0)]),
    vector!(120, 2, [], [(50, 80, 0)]),
    vector!(120, 3, [], [(100, 40, 0)]),
    vector!(130, 1, [(120, 1, 1), (120, 2, 2)], WEST),
    vector!(
        130,
        2,
        [(120, 2, 1), (120, 1, 2)],
        [(200, 80, 0), (200, 10, 0)],
    ),
    vector!(
        130,
        3,
        [(120, 3, 1), (120, 3, 2)],
        [(120, 40, 0), (120, 60, 0), (100, 60, 0)],
    ),
    Row {
        attrs: &[(87, b"5")],
        ..feature!(3, 1, [(130, 1, 1), (130, 2, 1), (130, 3, 1)])
    },
];

/// Points, and whether each lies in or on the area. Strips of it are four units high, so they meet at 14, 18, 22 ..
static PLACES: [(i32, i32, bool); 32] = [
    // on a vertex: of the teeth, and at the ends
    (60, 12, true),
    (40, 13, true),
    (50, 20, true),
    (50, 10, true),
    (50, 80, true),
    // on an edge
    (50, 15, true),
    (200, 50, true),
    (100, 10, true),
    (100, 80, true),
    // beside a vertex
    (59, 12, false),
    (61, 12, true),
    (39, 13, false),
    (41, 13, true),
    (44, 15, false),
    // where strips meet: outside, on a vertex, inside, and on the east side
    (59, 18, false),
    (60, 18, true),
    (100, 18, true),
    (200, 18, true),
    (59, 34, false),
    (60, 34, true),
    (61, 34, true),
    (60, 38, true),
    // inside, in the hole, on its border and at its corner
    (150, 50, true),
    (110, 50, false),
    (100, 50, true),
    (120, 60, true),
    // outside, on each side
    (20, 50, false),
    (201, 50, false),
    (100, 9, false),
    (100, 81, false),
    // at corners of the box
    (40, 10, false),
    (200, 80, true),
];

/// Whether the area is under a point.
fn is_under(alloc: Global, areas: &DepthAreas, x: i32, y: i32) -> Result<bool, Fail> {
    let mut coords = Sequence::new(alloc);
    coords.push(Coord { x, y, z: None })?;
    let names = areas_among(alloc, areas, &Shape::Points(coords))?;
    Ok(names.as_slice() == [name!(100, 1)].as_slice())
}

#[test]
fn places_over_a_large_area(rt: HostRuntime) -> Result<(), Fail> {
    let cell = chart(rt.alloc(), &AREA)?;
    let areas = depth_areas(rt.alloc(), &cell)?;
    for (x, y, wanted) in &PLACES {
        let found = is_under(rt.alloc(), &areas, *x, *y)?;
        assert_eq!(rt; found, *wanted, "{x} {y}");
    }
    Ok(())
}

/// The rings of the area.
fn rings_of_area(alloc: Global, cell: &Cell) -> Result<RingList, Fail> {
    let feature = cell.features.get(name!(100, 1)).ok_or("a feature")?;
    Ok(rings(alloc, cell, feature)?.ok_or("rings")?)
}

/// Whether some places at a height are answered as all segments of the area are asked.
fn are_plain(alloc: Global, areas: &DepthAreas, rings: &RingList, y: i32) -> Result<bool, Fail> {
    let mut plain = true;
    for x in [39, 40, 41, 45, 50, 55, 59, 60, 61, 100, 110, 120, 199, 200] {
        let inside = inside_even_odd(Pt { x, y }, rings.as_slice());
        plain = plain && is_under(alloc, areas, x, y)? == inside;
    }
    Ok(plain)
}

// At every height of the area, below it and above.
#[test]
fn a_large_area_as_by_the_plain_test(rt: HostRuntime) -> Result<(), Fail> {
    let cell = chart(rt.alloc(), &AREA)?;
    let areas = depth_areas(rt.alloc(), &cell)?;
    let rings = rings_of_area(rt.alloc(), &cell)?;
    for y in 9..82 {
        assert!(rt; are_plain(rt.alloc(), &areas, &rings, y)?, "{y}");
    }
    Ok(())
}

/// The depth over a wreck in the area, where so many tests of a point against a segment are left and are enough.
fn depth_after(alloc: Global, cell: &Cell, left: usize) -> Result<Option<i32>, Fail> {
    let feature = cell.features.get(name!(100, 9)).ok_or("a feature")?;
    let areas = depth_areas(alloc, cell)?;
    let mut effort = Effort::whole();
    effort.spend(300_000_000_usize.saturating_sub(left))?;
    Ok(hazard_depth_among(alloc, &mut effort, &areas, cell, feature).ok())
}

// Half as many tests are enough as the area has segments, with what the wreck's shape costs among them.
#[test]
fn a_wreck_in_a_large_area(rt: HostRuntime) -> Result<(), Fail> {
    let mut cell = chart(rt.alloc(), &AREA)?;
    let wreck = object(WRECKS, &[(187, b"3"), (93, b"1")], &[(110, 1, 255)]);
    add_rows(rt.alloc(), &mut cell, &[wreck])?;
    assert_eq!(rt; depth_after(rt.alloc(), &cell, 60)?, Some(500));
    assert_eq!(rt; depth_after(rt.alloc(), &cell, 20)?, None);
    Ok(())
}
