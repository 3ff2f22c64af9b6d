//! Areas that have the same rings, by the same pointers or by others, among others that begin with the same edge.

use crate::tests::squares::{BETWEEN, DEEP, SHALLOW, SQUARES, object};
use area_rings::{Shape, feature_shape};
use chart_model::Cell;
use depth_values::codes::WRECKS;
use depth_values::{Effort, areas_under, depth_areas, hazard_depth, is_danger_over_safe_area};
use sample_rows::{Item, Row, Setting, add_rows, chart, feature, name, vector};
use std::alloc::Global;
use std::test::Fail;

/// The number of the first of the areas. Those with odd numbers are in the place of the first square.
const FIRST: u32 = 1_001;

/// The number of the last.
const LAST: u32 = 1_300;

/// The numbers of the only areas of 30 metres and of 1, one in each square.
const DEEPEST: u32 = 1_151;

const SHOAL: u32 = 1_200;

/// Another edge between the squares, as long and wide as the first.
const SAME_EDGE: Row = vector!(130, 6, [(120, 1, 1), (120, 2, 2)], []);

/// The squares, and 300 areas of 2 metres by turns in the place of one and of the other: all begin with an edge between
/// the squares, and half of those in the first square with another than the others. A wreck at their bottom has its node
/// at a place.
fn shared_areas(alloc: Global, place: &'static [Item]) -> Result<Cell, Fail> {
    let mut cell = chart(alloc, &SQUARES)?;
    add_rows(alloc, &mut cell, &[SAME_EDGE])?;
    for number in FIRST..=LAST {
        let depth: &'static [Setting] = match number {
            DEEPEST => &[(87, b"30")],
            SHOAL => &[(87, b"1")],
            _ => &[(87, b"2")],
        };
        let pointers: &'static [Item] = match number % 4 {
            1 => &[(130, 1, 1), (130, 2, 1)],
            3 => &[(130, 6, 1), (130, 2, 1)],
            _ => &[(130, 1, 2), (130, 3, 2)],
        };
        let row = Row {
            attrs: depth,
            pointers,
            ..feature!(3, number, [])
        };
        add_rows(alloc, &mut cell, &[row])?;
    }
    let wreck = object(WRECKS, &[(187, b"3"), (93, b"1")], place);
    add_rows(alloc, &mut cell, &[wreck])?;
    Ok(cell)
}

/// The shape of the wreck.
fn wreck_shape(alloc: Global, cell: &Cell) -> Result<Shape, Fail> {
    let feature = cell.features.get(name!(100, 9)).ok_or("a feature")?;
    Ok(feature_shape(alloc, cell, feature)?.ok_or("a shape")?)
}

/// Whether those areas are under the wreck whose numbers leave these rests by two, and some squares first.
fn are_under(alloc: Global, cell: &Cell, squares: usize, rests: &[u32]) -> Result<bool, Fail> {
    let mut wanted = Vec::new(alloc);
    for number in FIRST..=LAST {
        if rests.contains(&(number % 2)) {
            wanted.push(name!(100, number))?;
        }
    }
    let names = areas_under(alloc, cell, &wreck_shape(alloc, cell)?)?;
    let others = names.as_slice().get(squares..).ok_or("the squares")?;
    Ok(others == wanted.as_slice())
}

/// The depth over the wreck.
fn depth(alloc: Global, cell: &Cell) -> Result<i32, Fail> {
    let feature = cell.features.get(name!(100, 9)).ok_or("a feature")?;
    Ok(hazard_depth(alloc, cell, feature)?)
}

/// Whether the wreck is no deeper than a contour, and in an area that is so deep or more.
fn is_danger(alloc: Global, cell: &Cell, contour: i32) -> Result<bool, Fail> {
    let feature = cell.features.get(name!(100, 9)).ok_or("a feature")?;
    let areas = depth_areas(alloc, cell)?;
    let shape = wreck_shape(alloc, cell)?;
    let effort = &mut Effort::whole();
    Ok(is_danger_over_safe_area(alloc, effort, &areas, contour, feature, &shape)?)
}

/// Whether the wreck is a danger at just the contours from one to another.
fn is_danger_between(alloc: Global, cell: &Cell, least: i32, most: i32) -> Result<bool, Fail> {
    let within = is_danger(alloc, cell, least)? && is_danger(alloc, cell, most)?;
    let below = is_danger(alloc, cell, least.saturating_sub(1))?;
    let above = is_danger(alloc, cell, most.saturating_add(1))?;
    Ok(within && !below && !above)
}

/// Where the wreck is, the squares under it, the rests by two of the numbers of the areas under it, the least depth of
/// these, and the greatest.
struct Case {
    place: &'static [Item],
    squares: usize,
    rests: &'static [u32],
    least: i32,
    greatest: i32,
}

/// In one square, in the other, and on the edge between them.
static CASES: [Case; 3] = [
    Case {
        place: DEEP,
        squares: 1,
        rests: &[1],
        least: 200,
        greatest: 3_000,
    },
    Case {
        place: SHALLOW,
        squares: 1,
        rests: &[0],
        least: 100,
        greatest: 200,
    },
    Case {
        place: BETWEEN,
        squares: 2,
        rests: &[0, 1],
        least: 100,
        greatest: 3_000,
    },
];

// A wreck has the least depth of the areas under it, and is a danger where one of them is safe.
#[test]
fn a_wreck_over_shared_areas(rt: HostRuntime) -> Result<(), Fail> {
    for case in &CASES {
        let cell = shared_areas(rt.alloc(), case.place)?;
        assert!(rt; are_under(rt.alloc(), &cell, case.squares, case.rests)?);
        assert_eq!(rt; depth(rt.alloc(), &cell)?, case.least);
        assert!(rt; is_danger_between(rt.alloc(), &cell, case.least, case.greatest)?);
    }
    Ok(())
}
