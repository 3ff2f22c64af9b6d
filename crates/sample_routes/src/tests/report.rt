//! Reports worked out by hand over small charts.
//!
//! Many cases come in pairs, one unit or one centimetre apart: whether a leg meets an object is exact, and so is
//! whether its depth is a danger. Charts of one object each show in which order rows of several charts stand.

use crate::tests::charts::{
    chart_under, grids_over, hold, hold_chart, nothing_held, rows_along, whole,
};
use chart_model::{Cell, Held, Key, State};
use route_check::{Danger, DangerList, reports_are_exact, reports_are_one};
use sample_rows::{Row, Setting, add_rows, feature, name, vector};
use spatial_grid::GridMap;
use std::alloc::Global;
use std::test::Fail;

const OBSTRN: u16 = 86;

const UWTROC: u16 = 153;

const WRECKS: u16 = 159;

const SOUNDG: u16 = 129;

const LNDARE: u16 = 71;

/// Two wrecks side by side, of 5 m and of 5.01 m; soundings of 3 m, 3.1 m and 5 m behind two coordinates without a
/// depth; an obstruction along two lines; and three squares of land, of depths from 10 m on with a rock at their
/// bottom, and of an obstruction on land that is no part of the skin of the earth.
static HARBOUR: [Row; 26] = [
    vector!(110, 1, [], [(10, 10, 0)]),
    vector!(110, 2, [], [(12, 10, 0)]),
    vector!(110, 3, [], [(26, 20, 0), (28, 20, 0)]),
    Row {
        deep: true,
        depths: &[30, 31],
        ..vector!(110, 4, [], [(20, 20, 0), (22, 20, 0), (24, 20, 0)])
    },
    vector!(110, 5, [], [(150, 165, 0)]),
    vector!(110, 6, [], [(6, 3, 0)]),
    vector!(120, 1, [], [(30, 50, 0)]),
    vector!(120, 2, [], [(40, 50, 0)]),
    vector!(120, 3, [], [(50, 50, 0)]),
    vector!(120, 4, [], [(60, 50, 0)]),
    vector!(120, 5, [], [(100, 150, 0)]),
    vector!(120, 6, [], [(140, 150, 0)]),
    vector!(120, 7, [], [(180, 150, 0)]),
    vector!(130, 1, [(120, 1, 1), (120, 2, 2)], [(35, 60, 0)]),
    vector!(130, 2, [(120, 3, 1), (120, 4, 2)], [(55, 60, 0)]),
    vector!(
        130,
        5,
        [(120, 5, 1), (120, 5, 2)],
        [(120, 150, 0), (120, 170, 0), (100, 170, 0)],
    ),
    vector!(
        130,
        6,
        [(120, 6, 1), (120, 6, 2)],
        [(160, 150, 0), (160, 170, 0), (140, 170, 0)],
    ),
    vector!(
        130,
        7,
        [(120, 7, 1), (120, 7, 2)],
        [(200, 150, 0), (200, 170, 0), (180, 170, 0)],
    ),
    Row {
        class: WRECKS,
        attrs: &[(179, b"5")],
        ..feature!(1, 1, [(110, 1, 255)])
    },
    Row {
        class: WRECKS,
        attrs: &[(179, b"5.01")],
        ..feature!(1, 2, [(110, 2, 255)])
    },
    Row {
        class: OBSTRN,
        ..feature!(2, 3, [(130, 1, 1), (130, 2, 1)])
    },
    Row {
        class: SOUNDG,
        ..feature!(1, 7, [(110, 3, 255), (110, 4, 255)])
    },
    Row {
        class: LNDARE,
        grup: 1,
        ..feature!(3, 10, [(130, 5, 1)])
    },
    Row {
        grup: 1,
        attrs: &[(87, b"10")],
        ..feature!(3, 11, [(130, 6, 1)])
    },
    Row {
        class: LNDARE,
        ..feature!(3, 12, [(130, 7, 1)])
    },
    Row {
        class: OBSTRN,
        attrs: &[(179, b"5")],
        ..feature!(3, 13, [(130, 7, 1)])
    },
];

/// A rock at the bottom of the second square, a wreck of unknown depth on the way across the globe, one at a node that
/// isn't there, and a wreck without a geometry.
static ROCKS: [Row; 4] = [
    Row {
        class: UWTROC,
        attrs: &[(187, b"3"), (93, b"1")],
        ..feature!(1, 14, [(110, 5, 255)])
    },
    Row {
        class: WRECKS,
        ..feature!(1, 5, [(110, 6, 255)])
    },
    Row {
        class: WRECKS,
        ..feature!(1, 20, [(110, 9, 255)])
    },
    Row {
        class: WRECKS,
        ..feature!(255, 21, [])
    },
];

/// The number of a leg, of a feature and of a place.
type Wanted = (u32, u32, u64);

/// A safety contour and a safety depth, the half-widths of a route, its points, and its rows.
type Case = (i32, i32, [u32; 2], &'static [[i32; 2]], &'static [Wanted]);

const WEST: i32 = -1_800_000_000;

const EAST: i32 = 1_800_000_000;

const SOUTH: i32 = -900_000_000;

const NORTH: i32 = 900_000_000;

static CASES: [Case; 43] = [
    // a leg of length 0, at a wreck that is as deep as the safety contour, less deep, and deeper
    (500, 0, [0, 0], &[[10, 10], [10, 10]], &[(1, 1, 0)]),
    (501, 0, [0, 0], &[[10, 10], [10, 10]], &[(1, 1, 0)]),
    (499, 0, [0, 0], &[[10, 10], [10, 10]], &[]),
    // up to the second wreck, one unit short of it, and nearer by the box; beside both, and behind them on their line
    (
        501,
        0,
        [0, 0],
        &[[0, 10], [12, 10]],
        &[(1, 1, 0), (1, 2, 0)],
    ),
    (501, 0, [0, 0], &[[0, 10], [11, 10]], &[(1, 1, 0)]),
    (
        501,
        0,
        [1, 0],
        &[[0, 10], [11, 10]],
        &[(1, 1, 0), (1, 2, 0)],
    ),
    (501, 0, [9, 0], &[[0, 11], [20, 11]], &[]),
    (501, 0, [0, 0], &[[13, 10], [19, 10]], &[]),
    (501, 0, [1, 0], &[[13, 10], [19, 10]], &[(1, 2, 0)]),
    // two legs that meet at a wreck, and there and back
    (
        500,
        0,
        [0, 0],
        &[[0, 10], [10, 10], [20, 11]],
        &[(1, 1, 0), (2, 1, 0)],
    ),
    (
        500,
        0,
        [0, 0],
        &[[0, 10], [20, 10], [20, 9], [20, 10], [0, 10]],
        &[(1, 1, 0), (4, 1, 0)],
    ),
    // soundings, at the safety depth and over it, by their places among all coordinates
    (0, 299, [0, 0], &[[19, 20], [29, 20]], &[]),
    (0, 300, [0, 0], &[[19, 20], [29, 20]], &[(1, 7, 3)]),
    (
        0,
        310,
        [0, 0],
        &[[29, 20], [19, 20]],
        &[(1, 7, 3), (1, 7, 4)],
    ),
    (
        0,
        9_999,
        [0, 0],
        &[[19, 20], [29, 20]],
        &[(1, 7, 3), (1, 7, 4), (1, 7, 5)],
    ),
    (0, 9_999, [0, 0], &[[21, 20], [22, 20]], &[(1, 7, 4)]),
    (0, 9_999, [0, 0], &[[25, 20], [29, 20]], &[]),
    // the safety contour is none of soundings, and the safety depth none of wrecks
    (9_999, 299, [0, 0], &[[19, 20], [29, 20]], &[]),
    (499, 9_999, [0, 0], &[[10, 10], [10, 10]], &[]),
    // the lines of an obstruction: both, each segment of one, an end, and where only a closed line would be met
    (500, 0, [0, 0], &[[20, 55], [70, 55]], &[(1, 3, 0)]),
    (500, 0, [0, 0], &[[30, 52], [32, 52]], &[(1, 3, 0)]),
    (500, 0, [0, 0], &[[38, 52], [40, 52]], &[(1, 3, 0)]),
    (500, 0, [0, 0], &[[60, 50], [70, 40]], &[(1, 3, 0)]),
    (500, 0, [0, 0], &[[35, 45], [35, 52]], &[]),
    (500, 0, [0, 0], &[[45, 40], [45, 70]], &[]),
    (-1_501, 0, [0, 0], &[[20, 55], [70, 55]], &[]),
    (-1_500, 0, [0, 0], &[[20, 55], [70, 55]], &[(1, 3, 0)]),
    // wholly on land, onto it, off it, to its corner, and one unit from that
    (500, 0, [0, 0], &[[105, 155], [110, 160]], &[(1, 10, 0)]),
    (500, 0, [0, 0], &[[90, 155], [110, 160]], &[(1, 10, 0)]),
    (500, 0, [0, 0], &[[110, 160], [90, 155]], &[(1, 10, 0)]),
    (500, 0, [0, 0], &[[90, 140], [100, 150]], &[(1, 10, 0)]),
    (500, 0, [0, 0], &[[90, 140], [99, 149]], &[]),
    (500, 0, [1, 0], &[[90, 140], [99, 150]], &[(1, 10, 0)]),
    // depths from 10 m on are safe at 10 m; the rock at their bottom is as deep
    (999, 0, [0, 0], &[[145, 155], [150, 165]], &[]),
    (1_000, 0, [0, 0], &[[145, 155], [150, 165]], &[(1, 14, 0)]),
    (
        1_001,
        0,
        [0, 0],
        &[[145, 155], [150, 165]],
        &[(1, 11, 0), (1, 14, 0)],
    ),
    // an obstruction's area; the land under it is no part of the skin of the earth
    (500, 0, [0, 0], &[[185, 155], [190, 160]], &[(1, 13, 0)]),
    (499, 0, [0, 0], &[[185, 155], [190, 160]], &[]),
    // across the globe, and with the widest box
    (
        500,
        300,
        [0, 0],
        &[[WEST, SOUTH], [EAST, NORTH]],
        &[(1, 5, 0)],
    ),
    (
        500,
        300,
        [100_000_000, 100_000_000],
        &[[WEST, SOUTH], [EAST, NORTH]],
        &[
            (1, 1, 0),
            (1, 3, 0),
            (1, 5, 0),
            (1, 7, 3),
            (1, 10, 0),
            (1, 13, 0),
        ],
    ),
    (
        500,
        0,
        [100_000_000, 0],
        &[[100_000_010, 10], [100_000_010, 10]],
        &[(1, 1, 0)],
    ),
    (
        500,
        0,
        [100_000_000, 0],
        &[[100_000_011, 10], [100_000_011, 10]],
        &[],
    ),
    (500, 0, [0, 0], &[[EAST, NORTH], [EAST, NORTH]], &[]),
];

/// Whether the rows are these, all of one chart.
fn are_rows(found: &DangerList, key: Key, wanted: &[Wanted]) -> bool {
    let found = found.as_slice();
    found.len() == wanted.len()
        && found
            .iter()
            .zip(wanted)
            .all(|(row, want)| is_row(row, key, want))
}

/// Whether the row is this one.
fn is_row(row: &Danger, key: Key, wanted: &Wanted) -> bool {
    row.key == key && (row.leg, row.rcid, row.place) == *wanted
}

/// The harbour with its rocks, held under a key.
fn harbour_held(alloc: Global, key: Key) -> Result<State, Fail> {
    let mut chart = chart_under(alloc, key, &HARBOUR)?;
    add_rows(alloc, &mut chart, &ROCKS)?;
    let mut state = nothing_held(alloc);
    hold_chart(alloc, &mut state, chart)?;
    Ok(state)
}

#[test]
fn rows_of_a_chart(rt: HostRuntime) -> Result<(), Fail> {
    let key = Key::from_bytes(b"AA5TEST1").ok_or("a key")?;
    let state = harbour_held(rt.alloc(), key)?;
    let grids = grids_over(rt.alloc(), &state)?;
    for (at, (contour, depth, half, points, wanted)) in CASES.iter().enumerate() {
        let depths = (*contour, *depth);
        let found = rows_along(rt.alloc(), &state, &grids, depths, *half, points)?;
        assert!(rt; are_rows(&found, key, wanted), "case {at}");
    }
    reports_are_exact();
    reports_are_one();
    Ok(())
}

/// A wreck of unknown depth, of the number 9 and of the number 3.
static NINE: [Row; 2] = [
    vector!(110, 1, [], [(10, 10, 0)]),
    Row {
        class: WRECKS,
        ..feature!(1, 9, [(110, 1, 255)])
    },
];

static THREE: [Row; 2] = [
    vector!(110, 1, [], [(10, 10, 0)]),
    Row {
        class: WRECKS,
        ..feature!(1, 3, [(110, 1, 255)])
    },
];

/// The chart of number 9 under a key, and that of number 3 under the last; between them a cancelled cell.
fn three_held(alloc: Global, first: Key, cancelled: Key, last: Key) -> Result<State, Fail> {
    let mut state = nothing_held(alloc);
    hold_chart(alloc, &mut state, chart_under(alloc, last, &THREE)?)?;
    let held = Held {
        edition: 1,
        update: 1,
        cancelled: true,
    };
    hold(alloc, &mut state, cancelled, held, None)?;
    hold_chart(alloc, &mut state, chart_under(alloc, first, &NINE)?)?;
    Ok(state)
}

/// Whether the report along two legs has these rows.
fn are_found(
    alloc: Global,
    state: &State,
    grids: &GridMap,
    wanted: &[Danger],
) -> Result<bool, Fail> {
    let points = [[0, 10], [10, 10], [20, 10]];
    let found = rows_along(alloc, state, grids, (0, 0), [0, 0], &points)?;
    Ok(found.as_slice() == wanted)
}

#[test]
fn rows_of_charts(rt: HostRuntime) -> Result<(), Fail> {
    let first = Key::from_bytes(b"AA1").ok_or("a key")?;
    let cancelled = Key::from_bytes(b"AA2").ok_or("a key")?;
    let last = Key::from_bytes(b"B").ok_or("a key")?;
    let state = three_held(rt.alloc(), first, cancelled, last)?;
    let mut grids = grids_over(rt.alloc(), &state)?;
    let wanted = [
        whole(1, first, 9),
        whole(1, last, 3),
        whole(2, first, 9),
        whole(2, last, 3),
    ];
    assert!(rt; are_found(rt.alloc(), &state, &grids, &wanted)?);
    // the one of two charts has no grid
    let _ = grids.remove(first);
    let wanted = [whole(1, last, 3), whole(2, last, 3)];
    assert!(rt; are_found(rt.alloc(), &state, &grids, &wanted)?);
    assert!(rt; are_found(rt.alloc(), &nothing_held(rt.alloc()), &grids, &[])?);
    Ok(())
}

/// The number of the first of many depth areas.
const FIRST: u32 = 1_001;

/// The number of the last.
const LAST: u32 = 2_000;

/// The harbour with its rock, and 1,000 depth areas more in the place of the second square: of 20 metres all but one,
/// which is of 1.5.
fn many_areas(alloc: Global, key: Key, shoal: u32) -> Result<Cell, Fail> {
    let mut chart = chart_under(alloc, key, &HARBOUR)?;
    add_rows(alloc, &mut chart, &ROCKS)?;
    for number in FIRST..=LAST {
        let depth: &'static [Setting] = if number == shoal {
            &[(87, b"1.5")]
        } else {
            &[(87, b"20")]
        };
        let row = Row {
            grup: 1,
            attrs: depth,
            ..feature!(3, number, [(130, 6, 1)])
        };
        add_rows(alloc, &mut chart, &[row])?;
    }
    Ok(chart)
}

/// How many rows the report at the rock has, of a safety contour.
fn count_rows(alloc: Global, state: &State, grids: &GridMap, contour: i32) -> Result<usize, Fail> {
    let points = [[150, 165], [150, 165]];
    let found = rows_along(alloc, state, grids, (contour, 0), [0, 0], &points)?;
    Ok(found.as_slice().len())
}

// The rock is as deep as the shoal at its place, which is the first area, one among the others or the last: up to that
// depth nothing is reported, at that depth the rock, and from the next on the shoal with it. From 20.01 metres on the
// second square and all 1,000 areas are reported too.
#[test]
fn a_hazard_over_many_areas(rt: HostRuntime) -> Result<(), Fail> {
    let key = Key::from_bytes(b"AA5TEST1").ok_or("a key")?;
    for shoal in [FIRST, 1_500, LAST] {
        let chart = many_areas(rt.alloc(), key, shoal)?;
        let mut state = nothing_held(rt.alloc());
        hold_chart(rt.alloc(), &mut state, chart)?;
        let grids = grids_over(rt.alloc(), &state)?;
        for (contour, count) in [(149, 0), (150, 1), (151, 2), (2_000, 3), (2_001, 1_002)] {
            let found = count_rows(rt.alloc(), &state, &grids, contour)?;
            assert_eq!(rt; found, count, "{shoal} {contour}");
        }
    }
    Ok(())
}
