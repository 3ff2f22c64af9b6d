//! Updates that add, replace, move and delete.
//!
//! Each update changes something that is kept in another way: pointers, an attribute alone, a node that features share.
//! The answers are compared after each, so that a fault is told where it comes in.

use super::kept::{is_as_anew, kept_of, updated};
use sample_rows::{BARE, Row, chart, feature, name, vector};
use std::test::Fail;

/// Two areas on either side of the edge 1, a line over it that goes there and back, a point at a node, and a feature
/// without a shape.
pub static CHART: [Row; 11] = [
    vector!(110, 1, [], [(7, 7, 0)]),
    vector!(120, 1, [], [(10, 0, 0)]),
    vector!(120, 2, [], [(10, 10, 0)]),
    vector!(130, 1, [(120, 1, 1), (120, 2, 2)], []),
    vector!(130, 2, [(120, 2, 1), (120, 1, 2)], [(0, 10, 0), (0, 0, 0)]),
    vector!(130, 3, [(120, 2, 1), (120, 1, 2)], [(20, 10, 0)]),
    feature!(3, 20, [(130, 1, 2), (130, 3, 2)]),
    feature!(3, 3, [(130, 1, 1), (130, 2, 1)]),
    feature!(2, 100, [(130, 1, 1), (130, 2, 1), (130, 1, 2)]),
    feature!(1, 9, [(110, 1, 255)]),
    feature!(255, 1, []),
];

/// The deletion of a record.
macro_rules! gone {
    ($rcnm:expr, $rcid:expr) => {
        Row {
            name: name!($rcnm, $rcid),
            ruin: 2,
            ..BARE
        }
    };
}

pub(super) use gone;

/// Updates one after the other: an area on two edges comes, and a point before the one at the node; an attribute; a
/// node moves; one area goes, and another has other edges, one of which isn't there; of two edges no user is left.
static UPDATES: [&[Row]; 5] = [
    &[
        feature!(3, 30, [(130, 1, 1), (130, 3, 1), (130, 1, 2)]),
        feature!(1, 2, [(110, 1, 255)]),
    ],
    &[
        gone!(100, 20),
        Row {
            attrs: &[(7, b"1")],
            ..feature!(3, 20, [(130, 1, 2), (130, 3, 2)])
        },
    ],
    &[gone!(120, 2), vector!(120, 2, [], [(15, 15, 0)])],
    &[
        gone!(100, 20),
        gone!(100, 3),
        feature!(3, 3, [(130, 2, 1), (130, 4, 1)]),
    ],
    &[gone!(100, 100), gone!(100, 30), gone!(100, 9)],
];

#[test]
fn updates(rt: HostRuntime) -> Result<(), Fail> {
    let alloc = rt.alloc();
    let mut cell = chart(alloc, &CHART)?;
    let mut kept = kept_of(alloc, &cell)?;
    for (at, rows) in UPDATES.iter().enumerate() {
        cell = updated(alloc, &mut kept, &cell, rows)?;
        assert!(rt; is_as_anew(alloc, &kept, &cell)?, "update {at}");
    }
    Ok(())
}
