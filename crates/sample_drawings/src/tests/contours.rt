//! What is drawn of depth contours.
//!
//! The line along an edge goes by the edge's own quality of position, so one contour has edges of each. A pointer is an
//! item, so an edge that a contour points to twice is drawn twice.

use crate::tests::users::find_users;
use chart_model::{Settings, Target};
use depth_symbology::depcnt02;
use sample_rows::{Drawn, Row, SETTINGS, are_items, chart, edges, feature, name, vector};
use std::test::Fail;

/// Edges with a quality of position, and contours of these depths along them. There is no record of the edge 7.
static CHART: [Row; 17] = [
    vector!(130, 1, [], []),
    Row {
        attrs: &[(402, b"1")],
        ..vector!(130, 2, [], [])
    },
    Row {
        attrs: &[(402, b"10")],
        ..vector!(130, 3, [], [])
    },
    Row {
        attrs: &[(402, b"11")],
        ..vector!(130, 4, [], [])
    },
    Row {
        attrs: &[(402, b"2")],
        ..vector!(130, 5, [], [])
    },
    Row {
        attrs: &[(402, b"")],
        ..vector!(130, 6, [], [])
    },
    Row {
        attrs: &[(174, b"30")],
        ..feature!(
            2,
            1,
            [
                (130, 1, 1),
                (130, 2, 1),
                (130, 3, 1),
                (130, 4, 1),
                (130, 5, 1),
                (130, 6, 1),
                (130, 7, 1),
            ],
        )
    },
    Row {
        attrs: &[(174, b"20")],
        ..feature!(2, 2, [(130, 1, 1), (130, 5, 2), (130, 1, 2)])
    },
    feature!(2, 3, [(130, 1, 1)]),
    Row {
        attrs: &[(174, b"")],
        ..feature!(2, 4, [(130, 1, 1)])
    },
    Row {
        attrs: &[(174, b"30m")],
        ..feature!(2, 5, [(130, 1, 1)])
    },
    // the depth is rounded down
    Row {
        attrs: &[(174, b"30.009")],
        ..feature!(2, 6, [(130, 1, 1)])
    },
    // masked, cut by the data limit, both, shown, of an interior, without a mark
    Row {
        attrs: &[(174, b"30")],
        marks: &[(1, 1), (3, 2), (3, 1), (1, 2), (2, 255)],
        ..feature!(
            2,
            7,
            [
                (130, 1, 1),
                (130, 2, 1),
                (130, 3, 1),
                (130, 4, 1),
                (130, 5, 1),
                (130, 6, 1),
            ],
        )
    },
    Row {
        attrs: &[(174, b"30")],
        ..feature!(3, 8, [(130, 1, 1)])
    },
    Row {
        attrs: &[(174, b"30")],
        ..feature!(1, 9, [(130, 1, 1)])
    },
    Row {
        attrs: &[(174, b"30")],
        ..feature!(255, 10, [(130, 1, 1)])
    },
    Row {
        attrs: &[(174, b"30")],
        ..feature!(2, 11, [])
    },
];

/// The number of a feature, the safety contour in centimetres, and what is drawn.
type Case = (u32, i32, &'static [Drawn]);

static CASES: [Case; 18] = [
    (
        1,
        3_000,
        &[
            (Target::Edge(1), b"LS(SOLID,2,DEPSC)"),
            (Target::Edge(2), b"LS(SOLID,2,DEPSC)"),
            (Target::Edge(3), b"LS(SOLID,2,DEPSC)"),
            (Target::Edge(4), b"LS(SOLID,2,DEPSC)"),
            (Target::Edge(5), b"LS(DASH,2,DEPSC)"),
            (Target::Edge(6), b"LS(DASH,2,DEPSC)"),
            (Target::Edge(7), b"LS(SOLID,2,DEPSC)"),
        ],
    ),
    // another contour, of which an edge is pointed to twice
    (
        2,
        3_000,
        &[
            (Target::Edge(1), b"LS(SOLID,1,DEPCN)"),
            (Target::Edge(5), b"LS(DASH,1,DEPCN)"),
            (Target::Edge(1), b"LS(SOLID,1,DEPCN)"),
        ],
    ),
    // an unknown depth is 0
    (3, 3_000, edges![b"LS(SOLID,1,DEPCN)", 1]),
    (3, 0, edges![b"LS(SOLID,2,DEPSC)", 1]),
    (4, 0, edges![b"LS(SOLID,2,DEPSC)", 1]),
    (5, 0, edges![b"LS(SOLID,2,DEPSC)", 1]),
    (5, 3_000, edges![b"LS(SOLID,1,DEPCN)", 1]),
    // one beside the safety contour, and at it
    (6, 2_999, edges![b"LS(SOLID,1,DEPCN)", 1]),
    (6, 3_000, edges![b"LS(SOLID,2,DEPSC)", 1]),
    (6, 3_001, edges![b"LS(SOLID,1,DEPCN)", 1]),
    (
        7,
        3_000,
        &[
            (Target::Edge(4), b"LS(SOLID,2,DEPSC)"),
            (Target::Edge(5), b"LS(DASH,2,DEPSC)"),
            (Target::Edge(6), b"LS(DASH,2,DEPSC)"),
        ],
    ),
    (
        7,
        2_000,
        &[
            (Target::Edge(4), b"LS(SOLID,1,DEPCN)"),
            (Target::Edge(5), b"LS(DASH,1,DEPCN)"),
            (Target::Edge(6), b"LS(DASH,1,DEPCN)"),
        ],
    ),
    // no line, no edge, no such feature
    (8, 3_000, &[]),
    (9, 3_000, &[]),
    (10, 3_000, &[]),
    (11, 3_000, &[]),
    (12, 3_000, &[]),
    (0, 3_000, &[]),
];

#[test]
fn contours(rt: HostRuntime) -> Result<(), Fail> {
    let cell = chart(rt.alloc(), &CHART)?;
    let users = find_users(rt.alloc(), &cell)?;
    for (number, safety_contour, wanted) in &CASES {
        let settings = Settings {
            safety_contour: *safety_contour,
            ..SETTINGS
        };
        let items = depcnt02(rt.alloc(), &cell, &users, &settings, name!(100, *number))?;
        assert!(rt; are_items(&items, wanted), "{number} {safety_contour}");
    }
    Ok(())
}
