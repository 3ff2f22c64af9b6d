//! Updates that take away what all else hangs on.
//!
//! The charts are closed, so that a store would take them: a related object is named by an identifier and needs no
//! record, so the feature to which all others point may go alone, and an edge may go with the areas that it bounds.

ghost use Rattle.spatial_grid.specs.Box.{IsGridOf};
ghost use Rattle.topology_cache.specs.Users.{AreUsersOf};

use super::kept::{Kept, is_as_anew, kept_of, updated};
use super::updates::gone;
use chart_closure::check;
use chart_model::{Cell, Name};
use plane_bounds::Bounds;
use sample_rows::{BARE, FOID, Foid, Row, chart, feature, name, vector};
use std::alloc::{AllocError, Global};
use std::test::Fail;

const EDGE: Row = vector!(130, 1, [(120, 1, 1), (120, 2, 2)], []);

const AREA: Row = feature!(3, 1, [(130, 1, 1), (130, 2, 1)]);

/// The identifier of the master.
const OF_MASTER: Option<Foid> = Some(Foid { fidn: 77, ..FOID });

/// The feature to which all others are related.
const MASTER: Row = Row {
    foid: OF_MASTER,
    ..AREA
};

/// The master goes.
const MASTER_GONE: Row = Row {
    foid: OF_MASTER,
    ..gone!(100, 1)
};

/// A feature that points to the master.
macro_rules! slave {
    ($prim:expr, $rcid:expr, $pointers:expr) => {
        Row {
            others: &[(100, 77, 1)],
            ..feature!($prim, $rcid, $pointers)
        }
    };
}

/// Two areas on either side of the edge 1, one of them the master, a line along the edge 2, and a point.
static CHART: [Row; 10] = [
    vector!(110, 1, [], [(7, 7, 0)]),
    vector!(120, 1, [], [(10, 0, 0)]),
    vector!(120, 2, [], [(10, 10, 0)]),
    EDGE,
    vector!(130, 2, [(120, 2, 1), (120, 1, 2)], [(0, 10, 0), (0, 0, 0)]),
    vector!(130, 3, [(120, 2, 1), (120, 1, 2)], [(20, 10, 0)]),
    MASTER,
    slave!(3, 2, [(130, 1, 2), (130, 3, 2)]),
    slave!(2, 3, [(130, 2, 1)]),
    slave!(1, 4, [(110, 1, 255)]),
];

/// Rows of an update, and what stands after it: the numbers of the features that use the edge 1, and of those with a
/// place.
type Step = (&'static [Row], &'static [u32], &'static [u32]);

/// The master goes, and comes again.
static MASTER_GOES: [Step; 3] = [
    (&[], &[1, 2], &[1, 2, 3, 4]),
    (&[MASTER_GONE], &[2], &[2, 3, 4]),
    (&[MASTER], &[1, 2], &[1, 2, 3, 4]),
];

/// The edge that the areas share goes with them, and comes again with one.
static EDGE_GOES: [Step; 3] = [
    (&[gone!(130, 1), gone!(100, 2), MASTER_GONE], &[], &[3, 4]),
    (&[AREA, EDGE], &[1], &[1, 3, 4]),
    (&[gone!(100, 1), gone!(130, 1)], &[], &[3, 4]),
];

/// All that there is.
const ALL: Bounds = Bounds {
    x0: i64::MIN,
    y0: i64::MIN,
    x1: i64::MAX,
    y1: i64::MAX,
};

/// Whether these are the names of the features with these numbers, in this order.
fn are_names(names: &[Name], numbers: &[u32]) -> bool {
    names.len() == numbers.len()
        && names
            .iter()
            .zip(numbers)
            .all(|(name, number)| *name == name!(100, *number))
}

/// Whether what is kept answers as a step says.
fn is_answered(alloc: Global, kept: &Kept, step: &Step) -> Result<bool, AllocError> {
    let placed = kept.grid.candidates(alloc, &ALL)?;
    Ok(
        are_names(kept.users.edge_users(name!(130, 1)), step.1)
            && are_names(placed.as_slice(), step.2),
    )
}

/// Whether a chart is closed, and what is kept of it is that of the chart made anew, and answers as a step says.
fn is_right(alloc: Global, kept: &Kept, cell: &Cell, step: &Step) -> Result<bool, AllocError> {
    Ok(check(cell).is_ok() && is_as_anew(alloc, kept, cell)? && is_answered(alloc, kept, step)?)
}

/// Whether each step is right, one after the other.
fn are_right(alloc: Global, steps: &[Step]) -> Result<bool, Fail> {
    let mut cell = chart(alloc, &CHART)?;
    let mut kept = kept_of(alloc, &cell)?;
    for step in steps {
        cell = updated(alloc, &mut kept, &cell, step.0)?;
        if !is_right(alloc, &kept, &cell, step)? {
            return Ok(false);
        }
    }
    Ok(true)
}

#[test]
fn shared(rt: HostRuntime) -> Result<(), Fail> {
    let alloc = rt.alloc();
    assert!(rt; are_right(alloc, &MASTER_GOES)?);
    assert!(rt; are_right(alloc, &EDGE_GOES)?);
    Ok(())
}
