//! Boxes of an area that points to one edge many times, and of many areas with an edge of their own.
//!
//! The first area has a shape far larger than its chart, so its box has to come from the boxes of its edges. The others
//! lie side by side: a strip over ten of them meets these boxes and no more.

use super::answers::{Case, are_answered};
use cell_bytes::make_cell;
use chart_model::Cell;
use sample_rows::{Row, add_rows, chart, feature, vector};
use std::alloc::Global;
use std::test::Fail;

/// An area that goes along an edge and back.
const AREA: Row = feature!(3, 1, [(130, 1, 1), (130, 1, 2)]);

/// A change by which it does so once more.
const LONGER: Row = Row {
    ruin: 3,
    foid: None,
    pointer_edit: Some((1, 1, 2)),
    ..AREA
};

static ROWS: [Row; 4] = [
    vector!(120, 1, [], [(10, 20, 0)]),
    vector!(120, 2, [], [(30, 60, 0)]),
    vector!(130, 1, [(120, 1, 1), (120, 2, 2)], [(5, 40, 0)]),
    AREA,
];

static OF_AREA: [Case; 5] = [
    ((5, 60, 5, 60), &[1]),
    ((30, 20, 30, 20), &[1]),
    ((4, 20, 4, 60), &[]),
    ((31, 20, 31, 60), &[]),
    ((5, 61, 30, 99), &[]),
];

/// Of areas side by side, those of which a strip from the first to the tenth has a part.
static OF_STRIP: [Case; 1] = [((1_000, 450, 10_900, 450), &[1, 2, 3, 4, 5, 6, 7, 8, 9, 10])];

/// The chart of the rows, where the area goes along its edge and back 150 times.
fn winding(alloc: Global) -> Result<Cell, Fail> {
    let mut cell = chart(alloc, &ROWS)?;
    for version in 2..151 {
        add_rows(alloc, &mut cell, &[Row { version, ..LONGER }])?;
    }
    Ok(cell)
}

#[test]
fn shared_edges(rt: HostRuntime) -> Result<(), Fail> {
    let alloc = rt.alloc();
    let cell = winding(alloc)?;
    assert!(rt; are_answered(alloc, &cell, &OF_AREA)?);
    let side_by_side = make_cell(alloc, 100)?;
    assert!(rt; are_answered(alloc, &side_by_side, &OF_STRIP)?);
    Ok(())
}
