//! Legs and areas, worked out by hand.
//!
//! Many cases come in pairs, one unit apart: a leg whose box touches a ring isn't covered, and one whose box ends a unit
//! before it is.

use crate::tests::figures::{Place, leg, rings};
use coverage_points::{covered_legs_are_tested, covers};
use std::test::Fail;

const WEST: i32 = -1_800_000_000;

const EAST: i32 = 1_800_000_000;

const SOUTH: i32 = -900_000_000;

const NORTH: i32 = 900_000_000;

/// The ends of a leg, its half-widths, and whether it is covered.
type Case = (Place, Place, [u32; 2], bool);

/// A square, a square hole in it, a spot of land in its corner, and a point that is a ring.
const SQUARE: &[&[Place]] = &[
    &[[0, 0], [40, 0], [40, 40], [0, 40]],
    &[[10, 10], [30, 10], [30, 30], [10, 30]],
    &[[15, 15], [20, 25], [25, 15]],
    &[[35, 35]],
];

const IN_THE_SQUARE: &[Case] = &[
    // beside the hole, with the widest box that touches nothing, and one that is a unit wider on either axis
    ([5, 5], [5, 35], [4, 4], true),
    ([5, 5], [5, 35], [5, 4], false),
    ([5, 5], [5, 35], [4, 5], false),
    ([35, 5], [5, 5], [4, 4], true),
    // along a ring of the area and of the hole, and a unit beside them
    ([0, 5], [0, 35], [0, 0], false),
    ([1, 5], [1, 35], [0, 0], true),
    ([10, 12], [10, 28], [0, 0], false),
    ([9, 12], [9, 28], [0, 0], true),
    ([11, 12], [11, 28], [0, 0], false),
    // across the hole, into it, in it, and over what lies in it
    ([5, 20], [35, 20], [0, 0], false),
    ([5, 20], [12, 20], [0, 0], false),
    ([12, 20], [5, 20], [0, 0], false),
    ([12, 12], [28, 12], [0, 0], false),
    ([20, 17], [20, 20], [0, 0], true),
    ([20, 17], [20, 20], [0, 1], true),
    ([20, 17], [20, 20], [0, 2], false),
    // out of the area, into it, past it, and round its corner
    ([35, 5], [45, 5], [0, 0], false),
    ([45, 5], [35, 5], [0, 0], false),
    ([-5, 5], [-5, 35], [0, 0], false),
    ([35, -5], [45, 5], [0, 0], false),
    // to a corner, from one, and a unit short of one
    ([5, 5], [0, 0], [0, 0], false),
    ([0, 0], [5, 5], [0, 0], false),
    ([5, 5], [1, 1], [0, 0], true),
    ([5, 5], [10, 10], [0, 0], false),
    ([5, 5], [9, 9], [0, 0], true),
    ([5, 5], [9, 9], [1, 1], false),
    // of length 0: off the rings, with a box that touches one, and on one
    ([5, 5], [5, 5], [0, 0], true),
    ([5, 5], [5, 5], [4, 4], true),
    ([5, 5], [5, 5], [5, 0], false),
    ([0, 5], [0, 5], [0, 0], false),
    // over the ring that is a point
    ([34, 34], [36, 36], [0, 0], false),
];

/// The globe, whose rings no leg may touch.
const GLOBE: &[&[Place]] = &[&[[WEST, SOUTH], [EAST, SOUTH], [EAST, NORTH], [WEST, NORTH]]];

const ON_THE_GLOBE: &[Case] = &[
    ([WEST, SOUTH], [EAST, NORTH], [0, 0], false),
    ([WEST + 1, SOUTH + 1], [EAST - 1, NORTH - 1], [0, 0], true),
    ([WEST + 1, SOUTH + 1], [EAST - 1, NORTH - 1], [1, 0], false),
    ([WEST + 1, SOUTH + 1], [EAST - 1, NORTH - 1], [0, 1], false),
    ([0, 0], [0, 0], [1_799_999_999, 899_999_999], true),
    ([0, 0], [0, 0], [1_800_000_000, 899_999_999], false),
    ([0, 0], [0, 0], [1_799_999_999, 900_000_000], false),
    ([0, 0], [0, 0], [u32::MAX, u32::MAX], false),
    ([WEST, NORTH], [EAST, NORTH], [0, 0], false),
];

/// Two squares side by side, as one area: their common side is a ring.
const TWO: &[&[Place]] = &[
    &[[0, 0], [10, 0], [10, 10], [0, 10]],
    &[[10, 0], [20, 0], [20, 10], [10, 10]],
];

const IN_TWO: &[Case] = &[
    ([5, 5], [9, 5], [0, 0], true),
    ([5, 5], [10, 5], [0, 0], false),
    ([5, 5], [15, 5], [0, 0], false),
    ([11, 5], [15, 5], [0, 0], true),
];

/// No ring, and one without a point.
const NOTHING: &[&[Place]] = &[];

const EMPTY: &[&[Place]] = &[&[]];

const IN_NOTHING: &[Case] = &[([5, 5], [6, 6], [0, 0], false)];

static AREAS: [(&[&[Place]], &[Case]); 5] = [
    (SQUARE, IN_THE_SQUARE),
    (GLOBE, ON_THE_GLOBE),
    (TWO, IN_TWO),
    (NOTHING, IN_NOTHING),
    (EMPTY, IN_NOTHING),
];

#[test]
fn legs_in_areas(rt: HostRuntime) -> Result<(), Fail> {
    for (figure, cases) in &AREAS {
        let rings = rings(rt.alloc(), figure)?;
        for (a, b, half, covered) in *cases {
            let found = covers(&leg(*a, *b, *half), rings.as_slice());
            assert_eq!(rt; found, *covered, "{a:?} {b:?} {half:?}");
        }
    }
    covered_legs_are_tested();
    Ok(())
}
