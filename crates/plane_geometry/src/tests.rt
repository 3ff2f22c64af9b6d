//! Sides, segments and areas worked out by hand.
//!
//! Among them are the corners of the plane, where a difference of coordinates has 33 bits, and an area with a hole,
//! whose border belongs to it.

use super::*;
use chart_model::Sequence;
use std::alloc::{AllocError, Global};
use std::test::Fail;

const LOW: i32 = i32::MIN;

const HIGH: i32 = i32::MAX;

fn pt(x: i32, y: i32) -> Pt {
    Pt { x, y }
}

#[test]
fn sides(rt: HostRuntime) {
    let cases = [
        ([0, 0], [4, 0], [1, 1], 1),
        ([0, 0], [4, 0], [1, -1], -1),
        ([0, 0], [4, 2], [-2, -1], 0),
        ([3, 3], [3, 3], [7, 9], 0),
        ([LOW, LOW], [HIGH, HIGH], [LOW, HIGH], 1),
        ([LOW, LOW], [HIGH, HIGH], [HIGH, LOW], -1),
    ];
    for (a, b, c, want) in cases {
        let side = orient(pt(a[0], a[1]), pt(b[0], b[1]), pt(c[0], c[1]));
        assert_eq!(rt; side, want, "{a:?} {b:?} {c:?}");
    }
}

#[test]
fn places_of_segments(rt: HostRuntime) {
    let cases = [
        ([2, 1], [0, 0], [4, 2], true),
        ([4, 2], [0, 0], [4, 2], true),
        ([6, 3], [0, 0], [4, 2], false),
        ([2, 2], [0, 0], [4, 2], false),
        ([5, 1], [5, 4], [5, -2], true),
        ([5, 5], [5, 4], [5, -2], false),
        ([3, 3], [3, 3], [3, 3], true),
        ([3, 4], [3, 3], [3, 3], false),
        ([0, 0], [LOW, LOW], [HIGH, HIGH], true),
        ([0, 1], [LOW, LOW], [HIGH, HIGH], false),
    ];
    for (p, a, b, want) in cases {
        let on = on_segment(pt(p[0], p[1]), pt(a[0], a[1]), pt(b[0], b[1]));
        assert_eq!(rt; on, want, "{p:?} {a:?} {b:?}");
    }
}

fn ring(alloc: Global, corners: &[[i32; 2]]) -> Result<Ring, AllocError> {
    let mut points = Sequence::new(alloc);
    for corner in corners {
        points.push(pt(corner[0], corner[1]))?;
    }
    Ok(points)
}

// A diamond with a square hole, and a ring of one point.
#[test]
fn areas(rt: HostRuntime) -> Result<(), Fail> {
    let diamond = ring(rt.alloc(), &[[0, 10], [10, 0], [0, -10], [-10, 0]])?;
    let hole = ring(rt.alloc(), &[[-2, -2], [2, -2], [2, 2], [-2, 2]])?;
    let spot = ring(rt.alloc(), &[[20, 0]])?;
    let rings = vec![in rt.alloc(); diamond, hole, spot]?;
    let cases = [
        ([0, 5], true),
        ([-5, 0], true),
        ([5, 0], true),
        ([0, 0], false),
        ([-11, 0], false),
        ([-1, 10], false),
        ([-1, -10], false),
        ([6, 6], false),
        ([5, 5], true),
        ([-10, 0], true),
        ([1, 2], true),
        ([20, 0], true),
        ([19, 0], false),
    ];
    for (p, want) in cases {
        let inside = inside_even_odd(pt(p[0], p[1]), rings.as_slice());
        assert_eq!(rt; inside, want, "{p:?}");
    }
    assert!(rt; !inside_even_odd(pt(0, 0), &[]));
    Ok(())
}
