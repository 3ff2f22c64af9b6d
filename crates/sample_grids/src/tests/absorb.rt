//! Grids that are brought up to date, against areas that were worked out by hand, and against grids made anew.
//!
//! A case has a chart after a change, and an area in which the change would show. Where nothing or an attribute alone
//! changes the boxes stay; after any other change they are made anew.

use super::answers::{Area, are_answered, is_answer};
use chart_difference::changed_names;
use chart_model::Cell;
use sample_rows::{Row, chart, feature, vector};
use spatial_grid::grid_of;
use std::alloc::{AllocError, Global};
use std::test::Fail;

const PLACE: Row = vector!(110, 1, [], [(5, 50, 0)]);

const SOUTH: Row = vector!(120, 1, [], [(100, 10, 0)]);

const NORTH: Row = vector!(120, 2, [], [(100, 90, 0)]);

const STRAIGHT: Row = vector!(130, 1, [(120, 1, 1), (120, 2, 2)], []);

const BENT: Row = vector!(130, 2, [(120, 2, 1), (120, 1, 2)], [(20, 95, 0)]);

/// At the place.
const POINT: Row = feature!(1, 1, [(110, 1, 255)]);

/// Between the two edges.
const TRIANGLE: Row = feature!(3, 2, [(130, 1, 1), (130, 2, 1)]);

const BEFORE: &[Row] = &[PLACE, SOUTH, NORTH, STRAIGHT, BENT, POINT, TRIANGLE];

/// A chart afterwards, an area, and the numbers of the features whose boxes meet it before and afterwards.
type Case = (&'static [Row], Area, &'static [u32], &'static [u32]);

static CASES: [Case; 6] = [
    // nothing changes
    (BEFORE, (0, 0, 20, 100), &[1, 2], &[1, 2]),
    // an attribute
    (
        &[
            PLACE,
            SOUTH,
            NORTH,
            STRAIGHT,
            BENT,
            POINT,
            Row {
                version: 2,
                attrs: &[(7, b"1")],
                ..TRIANGLE
            },
        ],
        (0, 0, 20, 100),
        &[1, 2],
        &[1, 2],
    ),
    // the node of the point, and one of the area's
    (
        &[
            vector!(110, 1, [], [(50, 99, 0)]),
            SOUTH,
            vector!(120, 2, [], [(200, 90, 0)]),
            STRAIGHT,
            BENT,
            POINT,
            TRIANGLE,
        ],
        (101, 0, 300, 100),
        &[],
        &[2],
    ),
    // the point goes to where it was not
    (
        &[
            PLACE,
            SOUTH,
            NORTH,
            STRAIGHT,
            BENT,
            feature!(1, 1, [(120, 2, 255)]),
            TRIANGLE,
        ],
        (100, 90, 100, 90),
        &[2],
        &[1, 2],
    ),
    // a feature goes
    (
        &[PLACE, SOUTH, NORTH, STRAIGHT, BENT, TRIANGLE],
        (0, 0, 20, 100),
        &[1, 2],
        &[2],
    ),
    // a feature comes
    (
        &[
            PLACE,
            SOUTH,
            NORTH,
            STRAIGHT,
            BENT,
            POINT,
            TRIANGLE,
            feature!(2, 3, [(130, 1, 1)]),
        ],
        (100, 20, 100, 20),
        &[2],
        &[2, 3],
    ),
];

/// Whether the grid of the old chart, brought up to date, has these candidates for an area.
fn is_absorbed(
    alloc: Global,
    old: &Cell,
    new: &Cell,
    area: Area,
    numbers: &[u32],
) -> Result<bool, AllocError> {
    let changed = changed_names(alloc, Some(old), Some(new))?;
    let mut grid = grid_of(alloc, old)?;
    grid.absorb(alloc, old, new, &changed)?;
    is_answer(alloc, &grid, area, numbers)
}

/// Whether the grids of both charts, and the one brought up to date, answer a case.
fn are_right(alloc: Global, old: &Cell, new: &Cell, case: &Case) -> Result<bool, AllocError> {
    let (_, area, before, after) = case;
    let was = are_answered(alloc, old, &[(*area, *before)])?;
    let is = are_answered(alloc, new, &[(*area, *after)])?;
    let absorbed = is_absorbed(alloc, old, new, *area, after)?;
    Ok(was && is && absorbed)
}

/// Whether a case holds.
fn holds(alloc: Global, case: &Case) -> Result<bool, Fail> {
    let old = chart(alloc, BEFORE)?;
    let new = chart(alloc, case.0)?;
    Ok(are_right(alloc, &old, &new, case)?)
}

#[test]
fn absorbed(rt: HostRuntime) -> Result<(), Fail> {
    for case in &CASES {
        assert!(rt; holds(rt.alloc(), case)?);
    }
    Ok(())
}
