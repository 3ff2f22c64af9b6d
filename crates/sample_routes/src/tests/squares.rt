//! Reports over ten squares in a row, with their grid and without.
//!
//! With its grid a report looks at few features of a chart, and must not miss one for it: legs along many squares and
//! between two show that. A chart without a grid, or with one under another's key, gives no row.

use crate::tests::charts::{chart_under, grids_over, hold_chart, nothing_held, rows_along, whole};
use cell_bytes::make_cell;
use chart_model::{Key, State};
use route_check::DangerList;
use sample_rows::{Row, feature, vector};
use spatial_grid::GridMap;
use std::alloc::Global;
use std::test::Fail;

const LNDARE: u16 = 71;

/// The nodes, the edges and the land of squares that are 90 wide and 900 high, from a latitude on.
macro_rules! squares {
    ($(($number:expr, $south:expr)),+ $(,)?) => {
        [$(
            vector!(120, $number, [], [(0, $south, 0)]),
            vector!(
                130,
                $number,
                [(120, $number, 1), (120, $number, 2)],
                [
                    (90, $south, 0),
                    (90, $south + 900, 0),
                    (0, $south + 900, 0)
                ]
            ),
            Row {
                class: LNDARE,
                grup: 1,
                ..feature!(3, $number, [(130, $number, 1)])
            }
        ),+]
    };
}

/// Ten squares in a row.
static ROW: [Row; 30] = squares![
    (1, 1_000),
    (2, 2_000),
    (3, 3_000),
    (4, 4_000),
    (5, 5_000),
    (6, 6_000),
    (7, 7_000),
    (8, 8_000),
    (9, 9_000),
    (10, 10_000),
];

/// The half-widths of a route of one leg, its ends, and the numbers of the squares that it meets.
type Along = ([u32; 2], &'static [[i32; 2]], &'static [u32]);

/// All squares.
const ALL: &[u32] = &[1, 2, 3, 4, 5, 6, 7, 8, 9, 10];

static ALONG: [Along; 7] = [
    // along all, and back over some
    ([0, 0], &[[45, 1_000], [45, 10_900]], ALL),
    ([0, 0], &[[45, 5_000], [45, 3_900]], &[3, 4, 5]),
    // between two squares; with a box that touches both, and one that touches the one alone
    ([0, 0], &[[45, 5_950], [45, 5_950]], &[]),
    ([0, 50], &[[45, 5_950], [45, 5_950]], &[5, 6]),
    ([0, 50], &[[45, 5_951], [45, 5_951]], &[6]),
    // beside the row, with a box that touches all of it, and one that is too narrow
    ([10, 0], &[[100, 1_000], [100, 10_900]], ALL),
    ([9, 0], &[[100, 1_000], [100, 10_900]], &[]),
];

/// Whether the rows are of the first leg and of these squares, in order.
fn are_squares(found: &DangerList, key: Key, numbers: &[u32]) -> bool {
    let found = found.as_slice();
    found.len() == numbers.len()
        && found
            .iter()
            .zip(numbers)
            .all(|(row, number)| *row == whole(1, key, *number))
}

/// The row, held under a key.
fn row_held(alloc: Global, key: Key) -> Result<State, Fail> {
    let mut state = nothing_held(alloc);
    hold_chart(alloc, &mut state, chart_under(alloc, key, &ROW)?)?;
    Ok(state)
}

#[test]
fn squares_in_a_row(rt: HostRuntime) -> Result<(), Fail> {
    let key = Key::from_bytes(b"ROW").ok_or("a key")?;
    let state = row_held(rt.alloc(), key)?;
    let grids = grids_over(rt.alloc(), &state)?;
    for (at, (half, points, numbers)) in ALONG.iter().enumerate() {
        let found = rows_along(rt.alloc(), &state, &grids, (0, 0), *half, points)?;
        assert!(rt; are_squares(&found, key, numbers), "case {at}");
    }
    Ok(())
}

/// How many rows the report along all squares has.
fn count_rows(alloc: Global, state: &State, grids: &GridMap) -> Result<usize, Fail> {
    let points = [[45, 1_000], [45, 10_900]];
    let found = rows_along(alloc, state, grids, (0, 0), [0, 0], &points)?;
    Ok(found.as_slice().len())
}

#[test]
fn squares_without_their_grid(rt: HostRuntime) -> Result<(), Fail> {
    let key = Key::from_bytes(b"ROW").ok_or("a key")?;
    let other = Key::from_bytes(b"ROW2").ok_or("a key")?;
    let state = row_held(rt.alloc(), key)?;
    let mut grids = grids_over(rt.alloc(), &state)?;
    let grid = grids.remove(key).ok_or("a grid")?;
    assert_eq!(rt; count_rows(rt.alloc(), &state, &grids)?, 0);
    grids.insert(other, grid)?;
    assert_eq!(rt; count_rows(rt.alloc(), &state, &grids)?, 0);
    Ok(())
}

/// The report along the first ten areas of the cell for trials, by some grids.
fn trial_rows(alloc: Global, state: &State, grids: &GridMap) -> Result<DangerList, Fail> {
    let points = [[1_000, 450], [10_900, 450]];
    rows_along(alloc, state, grids, (3_000, 3_000), [0, 0], &points)
}

#[test]
fn squares_of_the_cell_for_trials(rt: HostRuntime) -> Result<(), Fail> {
    let key = Key::from_bytes(b"MK000100").ok_or("a key")?;
    let mut state = nothing_held(rt.alloc());
    hold_chart(rt.alloc(), &mut state, make_cell(rt.alloc(), 100)?)?;
    let grids = grids_over(rt.alloc(), &state)?;
    let found = trial_rows(rt.alloc(), &state, &grids)?;
    assert!(rt; are_squares(&found, key, ALL), "with their grid");
    let found = trial_rows(rt.alloc(), &state, &GridMap::new(rt.alloc()))?;
    assert!(rt; found.as_slice().is_empty(), "without it");
    Ok(())
}
