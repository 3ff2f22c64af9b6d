//! Grids at their ends: of one place, of nothing, and with a box over all.
//!
//! The axes are cut by the boxes of a chart. Where all boxes are one place they have no length, where there is no box
//! they have no place, and a box over all buckets stands beside them.

use super::answers::{Area, Case, are_answered};
use sample_rows::{Row, chart, feature, vector};
use std::alloc::Global;
use std::test::Fail;

/// One place, and a feature without one.
static PLACE: [Row; 3] = [
    vector!(110, 1, [], [(5, 50, 0)]),
    feature!(1, 1, [(110, 1, 255)]),
    feature!(255, 2, []),
];

/// No feature has a place.
static NOTHING: [Row; 1] = [feature!(255, 2, [])];

/// Two corners, one box from the one to the other, a place between them, and a box along the south.
static CORNERS: [Row; 9] = [
    vector!(110, 1, [], [(0, 0, 0)]),
    vector!(110, 2, [], [(255, 65535, 0)]),
    vector!(110, 3, [], [(128, 32768, 0)]),
    vector!(110, 4, [], [(10, 0, 0), (250, 3, 0)]),
    feature!(1, 1, [(110, 1, 255)]),
    feature!(1, 2, [(110, 2, 255)]),
    feature!(1, 3, [(110, 2, 255), (110, 1, 255)]),
    feature!(1, 4, [(110, 3, 255)]),
    feature!(1, 5, [(110, 4, 255)]),
];

/// A square of two edges, and one of them as a line.
static SQUARE: [Row; 6] = [
    vector!(120, 1, [], [(100, 10, 0)]),
    vector!(120, 2, [], [(100, 90, 0)]),
    vector!(130, 1, [(120, 1, 1), (120, 2, 2)], []),
    vector!(
        130,
        2,
        [(120, 2, 1), (120, 1, 2)],
        [(20, 95, 0), (15, 10, 0)]
    ),
    feature!(3, 1, [(130, 1, 1), (130, 2, 1)]),
    feature!(2, 2, [(130, 1, 1)]),
];

/// All that there is.
const ALL: Area = (i64::MIN, i64::MIN, i64::MAX, i64::MAX);

static OF_PLACE: [Case; 6] = [
    ((5, 50, 5, 50), &[1]),
    ((0, 0, 5, 50), &[1]),
    ((6, 50, 9, 50), &[]),
    ((i64::MIN, i64::MIN, 4, i64::MAX), &[]),
    (ALL, &[1]),
    // borders that are exchanged
    ((6, 51, 4, 49), &[]),
];

static OF_NOTHING: [Case; 2] = [(ALL, &[]), ((0, 0, 0, 0), &[])];

static OF_CORNERS: [Case; 7] = [
    ((0, 0, 0, 0), &[1, 3]),
    ((255, 65535, 300, 70000), &[2, 3]),
    ((1, 1, 2, 2), &[3]),
    ((127, 32767, 128, 32768), &[3, 4]),
    ((9, 1, 10, 1), &[3, 5]),
    ((-9, -9, -1, 70000), &[]),
    (ALL, &[1, 2, 3, 4, 5]),
];

static OF_SQUARE: [Case; 5] = [
    ((15, 10, 15, 10), &[1]),
    ((14, 95, 15, 99), &[1]),
    ((101, 10, 101, 90), &[]),
    ((100, 91, 100, 95), &[1]),
    ((100, 90, 100, 90), &[1, 2]),
];

/// Whether the grid of a chart of these rows answers each case.
fn hold(alloc: Global, rows: &[Row], cases: &[Case]) -> Result<bool, Fail> {
    let cell = chart(alloc, rows)?;
    Ok(are_answered(alloc, &cell, cases)?)
}

#[test]
fn ends(rt: HostRuntime) -> Result<(), Fail> {
    let alloc = rt.alloc();
    assert!(rt; hold(alloc, &PLACE, &OF_PLACE)?);
    assert!(rt; hold(alloc, &NOTHING, &OF_NOTHING)?);
    assert!(rt; hold(alloc, &CORNERS, &OF_CORNERS)?);
    assert!(rt; hold(alloc, &SQUARE, &OF_SQUARE)?);
    Ok(())
}
