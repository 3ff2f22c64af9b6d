//! Legs in small figures, held against a search over points.
//!
//! Every point of the widened leg is tried that has three or four parts of a unit, and so every point that has one or
//! two. That is enough for these figures: a leg is at most 1 long on each axis, and a segment at most 2, so where the
//! two meet, a corner of what they have in common has at most four parts.

use crate::tests::figures::{Place, leg, rings};
use coverage_points::covers;
use route_geometry::leg_meets_area;
use std::test::Fail;

/// A square with a diamond for a hole; one with a diamond whose corners are on its sides; two wings that touch; two
/// squares with a common side.
static FIGURES: [&[&[Place]]; 4] = [
    &[
        &[
            [0, 0],
            [2, 0],
            [4, 0],
            [4, 2],
            [4, 4],
            [2, 4],
            [0, 4],
            [0, 2],
        ],
        &[[2, 1], [3, 2], [2, 3], [1, 2]],
    ],
    &[
        &[
            [0, 0],
            [2, 0],
            [4, 0],
            [4, 2],
            [4, 4],
            [2, 4],
            [0, 4],
            [0, 2],
        ],
        &[[2, 0], [4, 2], [2, 4], [0, 2]],
    ],
    &[&[
        [0, 0],
        [2, 2],
        [4, 4],
        [4, 2],
        [4, 0],
        [2, 2],
        [0, 4],
        [0, 2],
    ]],
    &[
        &[[0, 1], [2, 1], [2, 3], [0, 3]],
        &[[2, 1], [4, 1], [4, 3], [2, 3]],
    ],
];

/// A point of a grid: `x` and `y` of `d` parts each.
#[derive(Clone, Copy)]
struct Spot {
    d: i32,
    x: i32,
    y: i32,
}

/// Twice the area of the triangle of a point and a segment, with its sign.
fn turn(p: Spot, a: Place, b: Place) -> i32 {
    let right = p.x.wrapping_sub(a[0]);
    let up = p.y.wrapping_sub(a[1]);
    let way = [b[0].wrapping_sub(a[0]), b[1].wrapping_sub(a[1])];
    way[0]
        .wrapping_mul(up)
        .wrapping_sub(way[1].wrapping_mul(right))
}

fn is_between(n: i32, a: i32, b: i32) -> bool {
    a.min(b) <= n && n <= a.max(b)
}

/// The place, over as many parts as a point has.
fn over(p: Spot, place: Place) -> Place {
    [p.d.wrapping_mul(place[0]), p.d.wrapping_mul(place[1])]
}

/// Whether a point is on a segment, and whether the segment crosses the ray from it.
fn looked_at(p: Spot, a: Place, b: Place) -> (bool, bool) {
    let turned = turn(p, a, b);
    let on = turned == 0 && is_between(p.x, a[0], b[0]) && is_between(p.y, a[1], b[1]);
    let rises = a[1] <= p.y && p.y < b[1] && turned > 0;
    let falls = b[1] <= p.y && p.y < a[1] && turned < 0;
    (on, rises || falls)
}

/// Whether a point is on a ring, and whether an odd number of segments cross the ray from it.
fn looked_round(p: Spot, corners: &[Place]) -> (bool, bool) {
    let mut found = (false, false);
    let Some(last) = corners.last() else {
        return found;
    };
    let mut from = *last;
    for to in corners {
        let (on, crossed) = looked_at(p, over(p, from), over(p, *to));
        found = (found.0 || on, found.1 ^ crossed);
        from = *to;
    }
    found
}

/// Whether a point is on the rings, and whether it is inside them.
fn looked_for(p: Spot, figure: &[&[Place]]) -> (bool, bool) {
    let mut found = (false, false);
    for corners in figure {
        let (on, odd) = looked_round(p, corners);
        found = (found.0 || on, found.1 ^ odd);
    }
    (found.0, found.0 || found.1)
}

/// Where `t` of `d` parts of a way lead, times `d`.
fn led(d: i32, t: i32, from: i32, to: i32) -> i32 {
    let way = t.wrapping_mul(to.wrapping_sub(from));
    d.wrapping_mul(from).wrapping_add(way)
}

/// Whether a point that is so far aside of the leg on an axis is none of the widened leg.
fn is_past(d: i32, aside: i32, half: u32) -> bool {
    aside.unsigned_abs() > d.unsigned_abs().wrapping_mul(half)
}

/// One of the points of two grids that are beside a point of the leg, if it is one of the widened leg.
fn spot_beside(a: Place, b: Place, half: [u32; 2], choice: i32) -> Option<Spot> {
    let (d, t) = (choice / 405 + 3, choice / 81 % 5);
    let aside = [choice % 9 - 4, choice / 9 % 9 - 4];
    if t > d || is_past(d, aside[0], half[0]) || is_past(d, aside[1], half[1]) {
        return None;
    }
    Some(Spot {
        d,
        x: led(d, t, a[0], b[0]).wrapping_add(aside[0]),
        y: led(d, t, a[1], b[1]).wrapping_add(aside[1]),
    })
}

/// Whether all points of the leg are inside and none is on a ring, and whether one is inside or on one.
fn searched(figure: &[&[Place]], a: Place, b: Place, half: [u32; 2]) -> (bool, bool) {
    let (mut all, mut some) = (true, false);
    for choice in 0..810 {
        if let Some(p) = spot_beside(a, b, half, choice) {
            let (on, inside) = looked_for(p, figure);
            all = all && inside && !on;
            some = some || inside;
        }
        if some && !all {
            return (false, true);
        }
    }
    (all, some)
}

/// The ends and the half-widths of one of many legs: from one of 25 places, up to 1 long on each axis.
fn chosen(choice: u32) -> (Place, Place, [u32; 2]) {
    let a = [choice % 5, choice / 5 % 5];
    let way = [choice / 25 % 3, choice / 75 % 3];
    let half = [choice / 225 % 2, choice / 450 % 2];
    let b = [(a[0] + way[0]) as i32 - 1, (a[1] + way[1]) as i32 - 1];
    ([a[0] as i32, a[1] as i32], b, half)
}

#[test]
fn a_search_finds_the_same(rt: HostRuntime) -> Result<(), Fail> {
    for figure in &FIGURES {
        let rings = rings(rt.alloc(), figure)?;
        for choice in 0..900 {
            let (a, b, half) = chosen(choice);
            let leg = leg(a, b, half);
            let found = (
                covers(&leg, rings.as_slice()),
                leg_meets_area(&leg, rings.as_slice()),
            );
            assert_eq!(rt; found, searched(figure, a, b, half), "{a:?} {b:?} {half:?}");
        }
    }
    Ok(())
}
