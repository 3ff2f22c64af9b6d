//! Where points of the globe stand in pictures.

use chart_svg::{Spot, View, corners_are_corners};
use plane_geometry::Pt;
use std::test::Fail;

/// The west, south, east and north border of a view, and how many units it is wide and high.
type Case = ((i32, i32, i32, i32), u16, i64);

static CASES: [Case; 8] = [
    // at the equator a degree of longitude is as long as one of latitude
    ((0, 0, 100, 100), 1_000, 1_000),
    ((0, -300, 100, 100), 1_000, 4_000),
    // at 60 degrees it is half as long, north and south
    ((0, 590_000_000, 20_000_000, 610_000_000), 1_000, 2_000),
    ((0, -610_000_000, 20_000_000, -590_000_000), 1_000, 2_000),
    // at 45 degrees 0.7058 times by the rule, which is cut to ten-thousandths
    ((0, 440_000_000, 10_000_000, 460_000_000), 7_058, 20_000),
    // the whole globe
    (
        (-1_800_000_000, -900_000_000, 1_800_000_000, 900_000_000),
        65_535,
        32_767,
    ),
    // at a pole the cosine is that of 89 degrees
    ((-1, 899_999_999, 1, 900_000_000), 177, 5_000),
    ((0, 0, 1, 1), 1, 1),
];

#[test]
fn heights(rt: HostRuntime) -> Result<(), Fail> {
    corners_are_corners();
    for (at, ((west, south, east, north), width, height)) in CASES.iter().enumerate() {
        let view = View::new(*west, *south, *east, *north, *width).ok_or("a view")?;
        assert_eq!(rt; view.height(), *height, "case {at}");
    }
    Ok(())
}

#[test]
fn spots(rt: HostRuntime) -> Result<(), Fail> {
    // three points of the chart to a unit, and the north-west corner at -10 and 50
    let view = View::new(-10, -40, 20, 50, 10).ok_or("a view")?;
    let cases: [(i32, i32, i64, i64); 7] = [
        (-10, 50, 0, 0),
        (20, -40, 10, 30),
        (-8, 48, 0, 0),
        (-7, 47, 1, 1),
        // beyond the borders
        (-13, 53, -1, -1),
        (-12, 52, 0, 0),
        (i32::MAX, i32::MIN, 715_827_885, 715_827_899),
    ];
    for (x, y, across, down) in cases {
        let spot = Spot { x: across, y: down };
        assert_eq!(rt; view.spot(Pt { x, y }), spot, "{x} {y}");
    }
    Ok(())
}

#[test]
fn views(rt: HostRuntime) {
    assert!(rt; View::new(0, 0, 0, 1, 1).is_none());
    assert!(rt; View::new(0, 1, 1, 1, 1).is_none());
    assert!(rt; View::new(0, 0, 1, 1, 0).is_none());
    assert!(rt; View::new(1, 0, 0, 1, 1).is_none());
}
