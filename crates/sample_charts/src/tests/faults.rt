//! Faults of charts that aren't closed.
//!
//! Each record with a fault that is put in has a lesser name than those before it, so it is the one that the whole
//! chart is answered by. A record without a fault beside it keeps its own answer.

use chart_closure::{ClosureFault, check, check_at};
use chart_model::Cell;
use sample_rows::{Row, add_rows, chart, feature, name, vector};
use std::alloc::Global;
use std::process::Abort;
use std::test::Fail;

/// A closed chart of a side, a loop and the area in it. The node 9 has no coordinate.
static CLOSED: [Row; 7] = [
    vector!(110, 1, [], [(3, 3, 0)]),
    vector!(120, 1, [], [(0, 0, 0)]),
    vector!(120, 2, [], [(9, 0, 0)]),
    vector!(120, 9, [], []),
    vector!(130, 1, [(120, 1, 1), (120, 1, 2)], [(5, 1, 0), (5, 5, 0)]),
    vector!(130, 2, [(120, 1, 1), (120, 2, 2)], []),
    feature!(3, 20, [(130, 1, 1)]),
];

/// A record that is put in, and what is found then of the chart and of the record.
type Case = (Row, Result<(), ClosureFault>);

/// A node without a coordinate, two begin nodes, an isolated node, no record, a node that points. Each has a lesser
/// name than the one before.
static VECTORS: [Case; 5] = [
    (
        vector!(130, 99, [(120, 1, 1), (120, 9, 2)], []),
        Err(ClosureFault::EdgeNodes(name!(130, 99))),
    ),
    (
        vector!(130, 8, [(120, 1, 1), (120, 1, 1)], []),
        Err(ClosureFault::EdgeNodes(name!(130, 8))),
    ),
    (
        vector!(130, 7, [(110, 1, 1), (120, 1, 2)], []),
        Err(ClosureFault::WrongPointer(name!(130, 7))),
    ),
    (
        vector!(130, 6, [(110, 1, 1), (120, 5, 2)], []),
        Err(ClosureFault::Dangling(name!(130, 6), name!(120, 5))),
    ),
    (
        vector!(120, 3, [(120, 1, 1), (120, 1, 2)], [(0, 0, 0)]),
        Err(ClosureFault::WrongPointer(name!(120, 3))),
    ),
];

/// Features without a fault, and then an open ring, wrong pointers of each primitive, and absent targets. Each that
/// has a fault has a lesser name than the one before.
static FEATURES: [Case; 10] = [
    (feature!(255, 24, [(120, 1, 255)]), Ok(())),
    (feature!(255, 23, [(100, 20, 255)]), Ok(())),
    (feature!(2, 22, [(130, 1, 255)]), Ok(())),
    (feature!(1, 21, [(120, 9, 255)]), Ok(())),
    (
        feature!(3, 9, [(130, 2, 1)]),
        Err(ClosureFault::RingOpen(name!(100, 9))),
    ),
    (
        feature!(3, 8, [(120, 1, 1)]),
        Err(ClosureFault::WrongPointer(name!(100, 8))),
    ),
    (
        feature!(2, 7, [(120, 1, 1)]),
        Err(ClosureFault::WrongPointer(name!(100, 7))),
    ),
    (
        feature!(1, 6, [(130, 1, 1)]),
        Err(ClosureFault::WrongPointer(name!(100, 6))),
    ),
    (
        feature!(1, 5, [(130, 5, 1)]),
        Err(ClosureFault::Dangling(name!(100, 5), name!(130, 5))),
    ),
    (
        feature!(255, 4, [(130, 5, 1)]),
        Err(ClosureFault::Dangling(name!(100, 4), name!(130, 5))),
    ),
];

/// Puts the records of the cases into a closed chart, one after the other, and holds what is found against the cases.
fn hold(rt: &impl Abort, alloc: Global, cases: &[Case]) -> Result<Cell, Fail> {
    let mut cell = chart(alloc, &CLOSED)?;
    assert!(rt; check(&cell) == Ok(()));
    for (row, wanted) in cases {
        add_rows(alloc, &mut cell, &[*row])?;
        let number = row.name.rcid;
        assert!(rt; check(&cell) == *wanted, "chart {number}");
        assert!(rt; check_at(&cell, row.name) == *wanted, "record {number}");
        assert!(rt;
            check_at(&cell, name!(130, 1)) == Ok(()),
            "edge beside {number}"
        );
    }
    Ok(cell)
}

#[test]
fn faults(rt: HostRuntime) -> Result<(), Fail> {
    let cell = hold(&rt, rt.alloc(), &VECTORS)?;
    assert!(rt; check_at(&cell, name!(100, 99)) == Ok(()));
    hold(&rt, rt.alloc(), &FEATURES)?;
    Ok(())
}
