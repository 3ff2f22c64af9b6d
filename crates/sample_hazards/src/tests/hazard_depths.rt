//! The depths of hazards.
//!
//! The rules stand in an order, so many cases have attributes for two of them, and the depth tells which one was taken.
//! Both ways of asking, with depth areas and without, have to answer the same.

use crate::tests::squares::{BETWEEN, DEEP, NOWHERE, OUTSIDE, SHALLOW, SQUARES, object};
use depth_values::codes::{OBSTRN, UWTROC, WRECKS};
use depth_values::{Effort, depth_areas, hazard_depth, hazard_depth_among, least_is_least};
use sample_rows::{Item, Row, Setting, chart, name};
use std::alloc::Global;
use std::test::Fail;

/// A class, attributes, a place, and the depth in centimetres.
type HazardCase = (u16, &'static [Setting], &'static [Item], i32);

static HAZARDS: [HazardCase; 34] = [
    // its own depth
    (
        WRECKS,
        &[(179, b"15"), (187, b"3"), (93, b"1")],
        DEEP,
        1_500,
    ),
    (WRECKS, &[(179, b"-0.5"), (71, b"1")], DEEP, -50),
    (OBSTRN, &[(179, b"99999.99")], DEEP, 9_999_999),
    (OBSTRN, &[(179, b"-99999.99")], DEEP, -9_999_999),
    // and where that is unknown: absent, empty, no depth, too deep
    (OBSTRN, &[(179, b""), (187, b"5")], DEEP, 0),
    (OBSTRN, &[(179, b"5m"), (187, b"5")], DEEP, 0),
    (OBSTRN, &[(179, b"100000"), (187, b"5")], DEEP, 0),
    (OBSTRN, &[(179, b"-100000"), (187, b"5")], DEEP, 0),
    // the least of the areas under it
    (OBSTRN, &[(187, b"3"), (93, b"1")], DEEP, 500),
    (OBSTRN, &[(187, b"3"), (93, b"3")], DEEP, 500),
    (OBSTRN, &[(187, b"3"), (93, b"1")], BETWEEN, 200),
    (OBSTRN, &[(187, b"3"), (93, b"1")], SHALLOW, 200),
    (WRECKS, &[(187, b"3"), (93, b"1"), (71, b"1")], DEEP, 500),
    (
        WRECKS,
        &[(187, b"3"), (93, b"1"), (71, b"1")],
        OUTSIDE,
        2_010,
    ),
    // not where there is no such node
    (WRECKS, &[(187, b"3"), (93, b"1"), (71, b"2")], NOWHERE, 0),
    (OBSTRN, &[(187, b"3"), (93, b"2")], DEEP, 1),
    (OBSTRN, &[(187, b"3"), (93, b"1,3")], DEEP, 1),
    (OBSTRN, &[(187, b"4"), (93, b"1")], DEEP, -1_500),
    // a wreck by its category
    (WRECKS, &[(71, b"1")], DEEP, 2_010),
    (WRECKS, &[(71, b"1"), (187, b"5")], DEEP, 2_010),
    (WRECKS, &[(71, b"2"), (187, b"3")], DEEP, 0),
    (WRECKS, &[(71, b"4"), (187, b"3")], DEEP, -1_500),
    (WRECKS, &[(71, b"5"), (187, b"5")], DEEP, -1_500),
    (WRECKS, &[(71, b"3"), (187, b"3")], DEEP, 1),
    (OBSTRN, &[(71, b"1")], DEEP, -1_500),
    // an obstruction that is foul ground
    (OBSTRN, &[(42, b"6")], DEEP, 1),
    (OBSTRN, &[(42, b"6"), (187, b"5")], DEEP, 1),
    (OBSTRN, &[(42, b"7")], DEEP, -1_500),
    (WRECKS, &[(42, b"6")], DEEP, -1_500),
    // by the water level
    (OBSTRN, &[(187, b"3")], DEEP, 1),
    (UWTROC, &[(187, b"3")], DEEP, 1),
    (UWTROC, &[(187, b"5")], DEEP, 0),
    (UWTROC, &[(187, b"4")], DEEP, -1_500),
    // and of all others
    (WRECKS, &[], DEEP, -1_500),
];

/// The depth of the feature 9 among the squares: with the areas to be found, and with those that were found.
fn depths(alloc: Global, row: &Row) -> Result<(i32, i32), Fail> {
    let cell = chart(alloc, &SQUARES)?;
    let object = chart(alloc, &[*row])?;
    let feature = object.features.get(name!(100, 9)).ok_or("a feature")?;
    let areas = depth_areas(alloc, &cell)?;
    let depth = hazard_depth(alloc, &cell, feature)?;
    let again = hazard_depth_among(alloc, &mut Effort::whole(), &areas, &cell, feature)?;
    Ok((depth, again))
}

#[test]
fn depths_of_hazards(rt: HostRuntime) -> Result<(), Fail> {
    for (at, (class, attrs, place, wanted)) in HAZARDS.iter().enumerate() {
        let row = object(*class, attrs, place);
        assert_eq!(rt; depths(rt.alloc(), &row)?, (*wanted, *wanted), "case {at}");
    }
    least_is_least();
    Ok(())
}
