//! The names whose records differ between two charts.
//!
//! Each part of a record is changed by itself, the version among them, and has to give the name of that record and no
//! other. Records that come and go give theirs.

use chart_difference::{changed_among, changed_names};
use chart_model::{Cell, Foid, Name};
use sample_rows::{FOID, Item, Row, chart, feature, name, vector};
use std::alloc::Global;
use std::process::Abort;
use std::test::Fail;

const LIST: [Item; 2] = [(120, 1, 1), (120, 2, 1)];

const NODE: Row = vector!(110, 1, [], [(1, 2, 0)]);

const EDGE: Row = Row {
    attrs: &[(7, b"1")],
    ..vector!(130, 1, LIST, LIST)
};

const FEATURE: Row = Row {
    attrs: &[(7, b"1")],
    others: &LIST,
    ..feature!(2, 1, LIST)
};

const CHART: &[Row] = &[NODE, EDGE, FEATURE];

/// The chart with another edge.
macro_rules! edge {
    ($($part:tt)*) => {
        (Some(CHART), Some(&[NODE, Row { $($part)*, ..EDGE }, FEATURE]), &[name!(130, 1)])
    };
}

/// The chart with another feature.
macro_rules! object {
    ($($part:tt)*) => {
        (Some(CHART), Some(&[NODE, EDGE, Row { $($part)*, ..FEATURE }]), &[name!(100, 1)])
    };
}

/// The charts before and after, or none, and the names whose records differ.
type Case = (
    Option<&'static [Row]>,
    Option<&'static [Row]>,
    &'static [Name],
);

static CASES: [Case; 17] = [
    (None, None, &[]),
    (Some(CHART), Some(CHART), &[]),
    (
        None,
        Some(CHART),
        &[name!(100, 1), name!(110, 1), name!(130, 1)],
    ),
    (
        Some(CHART),
        None,
        &[name!(100, 1), name!(110, 1), name!(130, 1)],
    ),
    (
        Some(CHART),
        Some(&[EDGE, vector!(120, 1, [], []), FEATURE, feature!(2, 2, LIST)]),
        &[name!(100, 2), name!(110, 1), name!(120, 1)],
    ),
    edge! { version: 2 },
    edge! { attrs: &[(7, b"2")] },
    edge! { attrs: &[(8, b"1")] },
    edge! { pointers: &[(120, 2, 1), (120, 1, 1)] },
    edge! { pointers: &[(120, 1, 1)] },
    edge! { others: &[(120, 2, 1), (120, 1, 1)] },
    edge! { deep: true },
    object! { version: 2 },
    object! { prim: 1 },
    object! { foid: Some(Foid { fids: 2, ..FOID }) },
    object! { attrs: &[] },
    object! { others: &[(120, 2, 1)] },
];

fn chart_of(alloc: Global, rows: Option<&[Row]>) -> Result<Option<Cell>, Fail> {
    match rows {
        Some(rows) => Ok(Some(chart(alloc, rows)?)),
        None => Ok(None),
    }
}

fn hold(rt: &impl Abort, alloc: Global, case: &Case) -> Result<(), Fail> {
    let (before, after, wanted) = case;
    let before = chart_of(alloc, *before)?;
    let after = chart_of(alloc, *after)?;
    let found = changed_names(alloc, before.as_ref(), after.as_ref())?;
    assert_eq!(rt; found.as_slice(), *wanted);
    Ok(())
}

#[test]
fn differences(rt: HostRuntime) -> Result<(), Fail> {
    for case in &CASES {
        hold(&rt, rt.alloc(), case)?;
    }
    let same = changed_among(rt.alloc(), None, None, Vec::new(rt.alloc()))?;
    assert!(rt; same.as_slice().is_empty());
    Ok(())
}
