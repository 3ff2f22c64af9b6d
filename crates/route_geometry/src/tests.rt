//! Legs, and the points, segments and areas that they meet or miss.
//!
//! Cases worked out by hand go up to the ends of the globe, where sums and products are greatest. A search over small
//! legs and segments tries place by place, since a rule of signs is easily wrong where nobody thought of a case.

use super::*;
use plane_geometry::{Pt, Ring};
use std::alloc::{AllocError, Global};
use std::test::Fail;

const WEST: i32 = -1_800_000_000;

const EAST: i32 = 1_800_000_000;

const SOUTH: i32 = -900_000_000;

const NORTH: i32 = 900_000_000;

fn pt(x: i32, y: i32) -> Pt {
    Pt { x, y }
}

fn leg(a: [i32; 2], b: [i32; 2], w: u32, h: u32) -> Leg {
    Leg {
        a: pt(a[0], a[1]),
        b: pt(b[0], b[1]),
        w,
        h,
    }
}

#[test]
fn points(rt: HostRuntime) {
    let slant = ([0, 0], [10, 10]);
    let globe = ([WEST, SOUTH], [EAST, NORTH]);
    let east = ([0, 0], [10, 0]);
    let spot = ([5, 5], [5, 5]);
    let cases = [
        (slant, [1, 1], [6, 4], true),
        (slant, [1, 1], [7, 4], false),
        (slant, [1, 1], [11, 11], true),
        (slant, [1, 1], [12, 11], false),
        (globe, [0, 0], [2, 1], true),
        (globe, [0, 0], [1, 0], false),
        (globe, [1, 0], [1, 0], true),
        (globe, [0, 1], [1, 0], true),
        (globe, [0, 0], [EAST, SOUTH], false),
        (globe, [u32::MAX, 0], [EAST, SOUTH], true),
        (east, [0, 100_000_000], [10, NORTH], false),
        (east, [0, 100_000_000], [10, -100_000_000], true),
        (east, [100_000_000, 0], [100_000_010, 0], true),
        (east, [100_000_000, 0], [100_000_011, 0], false),
        (spot, [2, 3], [7, 8], true),
        (spot, [2, 3], [8, 8], false),
        (spot, [3, 2], [7, 8], false),
        (spot, [0, 0], [5, 5], true),
    ];
    for ((a, b), half, p, want) in cases {
        let met = leg_meets_point(&leg(a, b, half[0], half[1]), pt(p[0], p[1]));
        assert_eq!(rt; met, want, "{a:?} {b:?} {half:?} {p:?}");
    }
}

#[test]
fn segments(rt: HostRuntime) {
    let slant = ([0, 0], [10, 10]);
    let globe = ([WEST, SOUTH], [EAST, NORTH]);
    let east = ([0, 0], [10, 0]);
    let spot = ([5, 5], [5, 5]);
    let cases = [
        // They cross, touch, or end short of it.
        (slant, [0, 0], ([0, 10], [10, 0]), true),
        (slant, [0, 0], ([5, 5], [9, 0]), true),
        (slant, [0, 0], ([6, 5], [9, 0]), false),
        (slant, [1, 1], ([6, 4], [9, 0]), true),
        (slant, [1, 1], ([7, 4], [9, 0]), false),
        // Parallel, and one unit too far.
        (slant, [1, 1], ([2, 0], [12, 10]), true),
        (slant, [1, 1], ([3, 0], [13, 10]), false),
        (slant, [0, 2], ([2, 0], [12, 10]), true),
        (slant, [0, 1], ([2, 0], [12, 10]), false),
        // On one line, one after the other.
        (slant, [0, 0], ([10, 10], [20, 20]), true),
        (slant, [0, 0], ([11, 11], [20, 20]), false),
        (slant, [1, 1], ([20, 20], [11, 11]), true),
        (east, [0, 9], ([11, 0], [15, 0]), false),
        // The same from end to end of the globe.
        (globe, [0, 0], ([WEST, NORTH], [EAST, SOUTH]), true),
        (globe, [0, 0], ([1, 0], [EAST, SOUTH]), false),
        (globe, [1, 0], ([1, 0], [EAST, SOUTH]), true),
        (globe, [0, 0], ([WEST + 1, SOUTH], [EAST, NORTH - 1]), false),
        (globe, [1, 0], ([WEST + 1, SOUTH], [EAST, NORTH - 1]), true),
        (
            globe,
            [100_000_000, 0],
            ([0, -60_000_000], [0, -50_000_000]),
            true,
        ),
        (
            globe,
            [100_000_000, 0],
            ([0, -60_000_000], [0, -50_000_001]),
            false,
        ),
        // A leg of length 0 is its box.
        (spot, [1, 1], ([0, 9], [9, 0]), true),
        (spot, [1, 1], ([3, 9], [9, 3]), true),
        (spot, [1, 1], ([4, 9], [9, 4]), false),
    ];
    for ((a, b), half, (c, e), want) in cases {
        let met = leg_meets_segment(&leg(a, b, half[0], half[1]), pt(c[0], c[1]), pt(e[0], e[1]));
        assert_eq!(rt; met, want, "{a:?} {b:?} {half:?} {c:?} {e:?}");
    }
}

fn ring(alloc: Global, corners: &[[i32; 2]]) -> Result<Ring, AllocError> {
    let mut points = Ring::new(alloc);
    for corner in corners {
        points.push(pt(corner[0], corner[1]))?;
    }
    Ok(points)
}

// A square with a square hole, and a ring of one point.
#[test]
fn areas(rt: HostRuntime) -> Result<(), Fail> {
    let square = ring(rt.alloc(), &[[0, 0], [20, 0], [20, 20], [0, 20]])?;
    let hole = ring(rt.alloc(), &[[5, 5], [15, 5], [15, 15], [5, 15]])?;
    let spot = ring(rt.alloc(), &[[30, 10]])?;
    let rings = vec![in rt.alloc(); square, hole, spot]?;
    let cases = [
        // Wholly inside, in the hole, and outside.
        ([2, 2], [3, 17], [0, 0], true),
        ([8, 8], [12, 12], [2, 2], false),
        ([-9, 0], [-9, 20], [8, 9], false),
        // On a ring, from it, up to it, and near it.
        ([0, 5], [0, 15], [0, 0], true),
        ([0, 5], [-9, 5], [0, 0], true),
        ([-9, 5], [0, 5], [0, 0], true),
        ([-9, 5], [-1, 5], [0, 0], false),
        ([-9, 5], [-1, 5], [1, 0], true),
        ([8, 8], [12, 12], [3, 0], true),
        // Into the area, out of it, across it, and past its corner.
        ([-9, 10], [2, 10], [0, 0], true),
        ([2, 10], [-9, 10], [0, 0], true),
        ([-9, 10], [29, 10], [0, 0], true),
        ([-9, 10], [10, 29], [0, 0], true),
        ([-9, 13], [10, 32], [0, 0], false),
        ([-9, 13], [10, 32], [1, 1], true),
        // A ring of one point.
        ([29, 0], [29, 20], [0, 9], false),
        ([29, 0], [29, 20], [1, 0], true),
    ];
    for (a, b, half, want) in cases {
        let met = leg_meets_area(&leg(a, b, half[0], half[1]), rings.as_slice());
        assert_eq!(rt; met, want, "{a:?} {b:?} {half:?}");
    }
    assert!(rt; !leg_meets_area(&leg([0, 0], [9, 9], 9, 9), &[]));
    Ok(())
}

/// The coordinate to which `t` of `d` parts of a way lead, times `d`.
fn place(d: u32, t: u32, from: i32, to: i32) -> i64 {
    let way = i64::from(to).wrapping_sub(i64::from(from));
    let start = i64::from(d).wrapping_mul(i64::from(from));
    start.wrapping_add(i64::from(t).wrapping_mul(way))
}

fn is_near(d: u32, on_leg: i64, on_segment: i64, half: u32) -> bool {
    on_leg.abs_diff(on_segment) <= u64::from(d).wrapping_mul(u64::from(half))
}

/// Whether one of all places with up to four parts is near.
fn is_found(leg: &Leg, c: Pt, e: Pt) -> bool {
    for choice in 0..4 * 5 * 5 {
        let (d, t, s) = (choice / 25 + 1, choice / 5 % 5, choice % 5);
        let x = (place(d, t, leg.a.x, leg.b.x), place(d, s, c.x, e.x));
        let y = (place(d, t, leg.a.y, leg.b.y), place(d, s, c.y, e.y));
        let near = is_near(d, x.0, x.1, leg.w) && is_near(d, y.0, y.1, leg.h);
        if t <= d && s <= d && near {
            return true;
        }
    }
    false
}

/// One of nine points.
fn point_of(choice: u32) -> Pt {
    pt((choice % 3) as i32, (choice / 3 % 3) as i32)
}

// The leg begins at the middle one of nine points. Where it meets a segment, they are near at a corner of
// the places that are near, and there four parts are enough: the leg is up to 1 long on each axis, and
// the segment up to 2.
#[test]
fn a_search_finds_the_same(rt: HostRuntime) {
    for choice in 0..2916 {
        let leg = Leg {
            a: pt(1, 1),
            b: point_of(choice),
            w: choice / 729 % 2,
            h: choice / 1458,
        };
        let (c, e) = (point_of(choice / 9), point_of(choice / 81));
        let met = leg_meets_segment(&leg, c, e);
        assert_eq!(rt; met, is_found(&leg, c, e), "{leg:?} {c:?} {e:?}");
    }
}
