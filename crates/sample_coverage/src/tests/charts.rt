//! Charts that are held, and the legs that none of their areas covers.
//!
//! Coverage asks what is held and not files, so charts are put into a state without a store. Their areas are halves of
//! one rectangle, so that a leg across both is covered by neither.

ghost use Rattle.std.specs.Prelude.{◌≡◌, ◌↔◌, ◌≤◌, None, true, length, All, IfOk, IfSome};
ghost use Rattle.chart_model.specs.State.{IsHeld, IsChartOf, IsFileLength};

use crate::tests::figures::{Place, leg};
use chart_model::{Cell, FileList, Header, Held, Holding, HoldingMap, Key, Octets, Shared, State};
use coverage_points::{areas_are_told, uncovered_legs, uncovered_legs_are_exact};
use route_geometry::Leg;
use sample_rows::{Row, add_rows, feature, name, vector};
use std::alloc::{AllocError, Global};
use std::test::Fail;

/// Two nodes, and three edges between them: the rectangle from (0, 0) to (200, 100), and a line that halves it.
static EDGES: [Row; 5] = [
    vector!(120, 1, [], [(100, 0, 0)]),
    vector!(120, 2, [], [(100, 100, 0)]),
    vector!(130, 1, [(120, 1, 1), (120, 2, 2)], []),
    vector!(
        130,
        2,
        [(120, 2, 1), (120, 1, 2)],
        [(0, 100, 0), (0, 0, 0)],
    ),
    vector!(
        130,
        3,
        [(120, 2, 1), (120, 1, 2)],
        [(200, 100, 0), (200, 0, 0)],
    ),
];

/// An area of coverage: the whole rectangle.
const WHOLE: Row = Row {
    class: 302,
    attrs: &[(18, b"1")],
    ..feature!(3, 5, [(130, 2, 1), (130, 3, 2)])
};

/// The western half, and the eastern.
const WEST: Row = Row {
    class: 302,
    attrs: &[(18, b"1")],
    ..feature!(3, 6, [(130, 1, 1), (130, 2, 1)])
};

const EAST: Row = Row {
    class: 302,
    attrs: &[(18, b"1")],
    ..feature!(3, 7, [(130, 1, 2), (130, 3, 2)])
};

/// The key of a chart, and its features; or a cancelled cell.
pub(super) type Chart = (&'static [u8], Option<&'static [Row]>);

/// The charts that are held, the half-widths of a route, its points, and the legs that aren't covered.
type Case = (&'static [Chart], [u32; 2], &'static [Place], &'static [u64]);

/// A leg in the rectangle, and one from it.
const OUT: &[Place] = &[[10, 50], [190, 50], [250, 50]];

/// A leg in the western half, one across both and one in the eastern half.
const ACROSS: &[Place] = &[[10, 50], [90, 50], [110, 50], [190, 50]];

/// One chart with the whole rectangle as an area of coverage.
pub(super) const ONE: &[Chart] = &[(b"AA5TEST1", Some(&[WHOLE]))];

/// The same with a feature that differs from it.
macro_rules! other {
    ($($part:tt)*) => {
        &[(b"AA5TEST1", Some(&[Row { $($part)*, ..WHOLE }]))]
    };
}

static CASES: [Case; 25] = [
    // one leg is covered; its box touches a ring; there is no area of coverage, no chart, no leg
    (ONE, [1, 1], OUT, &[2]),
    (ONE, [9, 49], OUT, &[2]),
    (ONE, [10, 1], OUT, &[1, 2]),
    (ONE, [1, 50], OUT, &[1, 2]),
    (&[(b"AA5TEST1", Some(&[]))], [1, 1], OUT, &[1, 2]),
    (&[], [1, 1], OUT, &[1, 2]),
    (ONE, [1, 1], &[], &[]),
    (ONE, [0, 0], &[[5, 5]], &[]),
    // there and back
    (
        ONE,
        [0, 0],
        &[[9, 9], [9, 100], [9, 9], [10, 9], [9, 9]],
        &[1, 2],
    ),
    // coverage that isn't available, and texts that begin or end with 1; the category of another attribute, and beside
    // others
    (other!(attrs: &[(18, b"2")]), [1, 1], OUT, &[1, 2]),
    (other!(attrs: &[(18, b"12")]), [1, 1], OUT, &[1, 2]),
    (other!(attrs: &[(18, b"21")]), [1, 1], OUT, &[1, 2]),
    (other!(attrs: &[(18, b"")]), [1, 1], OUT, &[1, 2]),
    (other!(attrs: &[(19, b"1")]), [1, 1], OUT, &[1, 2]),
    (
        other!(attrs: &[(17, b"2"), (18, b"1"), (19, b"2")]),
        [1, 1],
        OUT,
        &[2],
    ),
    // a point, a line, and an area of another class
    (other!(prim: 1), [1, 1], OUT, &[1, 2]),
    (other!(prim: 2), [1, 1], OUT, &[1, 2]),
    (other!(class: 303), [1, 1], OUT, &[1, 2]),
    // the halves: of one chart, of two, and of one of two
    (&[(b"AA5TEST1", Some(&[WEST, EAST]))], [1, 1], ACROSS, &[2]),
    (
        &[(b"AA1", Some(&[WEST])), (b"B", Some(&[EAST]))],
        [1, 1],
        ACROSS,
        &[2],
    ),
    (
        &[(b"AA1", Some(&[EAST])), (b"B", Some(&[]))],
        [1, 1],
        ACROSS,
        &[1, 2],
    ),
    (
        &[(b"AA1", Some(&[])), (b"B", Some(&[WEST]))],
        [1, 1],
        ACROSS,
        &[2, 3],
    ),
    // a cancelled cell, alone and between two charts
    (&[(b"AA5TEST1", None)], [1, 1], OUT, &[1, 2]),
    (
        &[
            (b"AA1", Some(&[WEST])),
            (b"AA2", None),
            (b"B", Some(&[EAST])),
        ],
        [1, 1],
        ACROSS,
        &[2],
    ),
    // a half and the whole
    (
        &[(b"AA1", Some(&[WEST])), (b"B", Some(&[WHOLE]))],
        [1, 1],
        ACROSS,
        &[],
    ),
];

/// The chart of features under a key.
fn chart_under(alloc: Global, key: Key, features: &[Row]) -> Result<Cell, Fail> {
    let header = Header {
        key,
        edition: 1,
        update: 0,
        issued: *b"20240101",
        agency: 550,
        scale: 10_000,
    };
    // For the proof alone: a key is known to be one where it is read.
    let _ = key.as_slice();
    let mut cell = Cell::new(alloc, header);
    add_rows(alloc, &mut cell, &EDGES)?;
    add_rows(alloc, &mut cell, features)?;
    Ok(cell)
}

/// No cell.
fn nothing_held(alloc: Global) -> State {
    State {
        cells: HoldingMap::new(alloc),
    }
}

/// The files of a cell: one without a byte.
fn one_file(alloc: Global) -> Result<FileList, AllocError>
    ensures nonempty { IfOk result (λ files. 1 ≤ length files) }
    ensures files { IfOk result (All (λ file. IsFileLength (length file))) }
{
    let mut files = FileList::new(alloc);
    files.push(Shared::of(alloc, Octets::from_vec(Vec::new(alloc)))?)?;
    Ok(files)
}

/// Holds a cell under a key, with one file.
fn hold(
    alloc: Global,
    state: &mut State,
    key: Key,
    held: Held,
    chart: Option<Cell>,
) -> Result<(), AllocError>
    requires held { IsHeld held }
    requires cancelled { (chart ≡ None) ↔ (held.cancelled ≡ true) }
    requires chart { IfSome chart (IsChartOf key held) }
{
    // For the proof alone: a key is known to be one where it is read.
    let _ = key.as_slice();
    let files = one_file(alloc)?;
    state.cells.insert(key, Holding { held, files, chart })?;
    Ok(())
}

/// Holds a chart.
fn hold_chart(alloc: Global, state: &mut State, chart: Cell) -> Result<(), AllocError> {
    let header = chart.header;
    let held = Held {
        edition: header.edition,
        update: header.update,
        cancelled: false,
    };
    hold(alloc, state, header.key, held, Some(chart))
}

/// Holds a cancelled cell.
fn hold_cancelled(alloc: Global, state: &mut State, key: Key) -> Result<(), AllocError> {
    let held = Held {
        edition: 1,
        update: 1,
        cancelled: true,
    };
    hold(alloc, state, key, held, None)
}

/// The charts of a case.
pub(super) fn all_held(alloc: Global, charts: &[Chart]) -> Result<State, Fail> {
    let mut state = nothing_held(alloc);
    for (key, features) in charts {
        let key = Key::from_bytes(key).ok_or("a key")?;
        match features {
            Some(features) => hold_chart(alloc, &mut state, chart_under(alloc, key, features)?)?,
            None => hold_cancelled(alloc, &mut state, key)?,
        }
    }
    Ok(state)
}

/// The legs of half-widths between points, each and the next.
fn legs_between(alloc: Global, half: [u32; 2], points: &[Place]) -> Result<Vec<Leg>, AllocError> {
    let mut legs = Vec::new(alloc);
    for (from, to) in points.iter().zip(points.iter().skip(1)) {
        legs.push(leg(*from, *to, half))?;
    }
    Ok(legs)
}

#[test]
fn legs_of_routes(rt: HostRuntime) -> Result<(), Fail> {
    for (at, (charts, half, points, wanted)) in CASES.iter().enumerate() {
        let state = all_held(rt.alloc(), charts)?;
        let legs = legs_between(rt.alloc(), *half, points)?;
        let found = uncovered_legs(rt.alloc(), &state, legs.as_slice())?;
        assert!(rt;
            found.as_slice() == *wanted,
            "case {at}: {:?}",
            found.as_slice()
        );
    }
    areas_are_told();
    uncovered_legs_are_exact();
    Ok(())
}
