//! What a grid answers of areas here and there, against a walk over all boxes.
//!
//! Whether a name is missed hangs on which buckets a box and an area share, so boxes of many sizes meet 400 areas that
//! look like chance and are the same in every run.

use chart_model::Name;
use plane_bounds::Bounds;
use sample_rows::{Row, chart, feature, vector};
use spatial_grid::grid_of;
use std::test::Fail;

/// Boxes from a point to a single bucket, over many rows, over many columns and over nearly all.
static BOXES: [(i64, i64, i64, i64); 16] = [
    (165, 19772, 165, 19772),
    (101, 42659, 104, 42759),
    (24, 4747, 24, 4756),
    (210, 35119, 222, 38119),
    (24, 23965, 84, 32965),
    (149, 3801, 150, 3802),
    (232, 33255, 234, 33955),
    (13, 307, 213, 60307),
    (22, 28419, 27, 28459),
    (214, 4578, 214, 24578),
    (61, 11889, 68, 11889),
    (141, 27821, 171, 28321),
    (15, 54188, 19, 54252),
    (144, 8113, 146, 8121),
    (242, 14630, 251, 15653),
    (161, 41119, 162, 46119),
];

/// Features of two places each, the corners of these boxes.
static ROWS: [Row; 32] = [
    vector!(110, 1, [], [(165, 19772, 0), (165, 19772, 0)]),
    vector!(110, 2, [], [(101, 42759, 0), (104, 42659, 0)]),
    vector!(110, 3, [], [(24, 4756, 0), (24, 4747, 0)]),
    vector!(110, 4, [], [(210, 38119, 0), (222, 35119, 0)]),
    vector!(110, 5, [], [(24, 32965, 0), (84, 23965, 0)]),
    vector!(110, 6, [], [(149, 3802, 0), (150, 3801, 0)]),
    vector!(110, 7, [], [(232, 33955, 0), (234, 33255, 0)]),
    vector!(110, 8, [], [(13, 60307, 0), (213, 307, 0)]),
    vector!(110, 9, [], [(22, 28459, 0), (27, 28419, 0)]),
    vector!(110, 10, [], [(214, 24578, 0), (214, 4578, 0)]),
    vector!(110, 11, [], [(61, 11889, 0), (68, 11889, 0)]),
    vector!(110, 12, [], [(141, 28321, 0), (171, 27821, 0)]),
    vector!(110, 13, [], [(15, 54252, 0), (19, 54188, 0)]),
    vector!(110, 14, [], [(144, 8121, 0), (146, 8113, 0)]),
    vector!(110, 15, [], [(242, 15653, 0), (251, 14630, 0)]),
    vector!(110, 16, [], [(161, 46119, 0), (162, 41119, 0)]),
    feature!(1, 1, [(110, 1, 255)]),
    feature!(1, 2, [(110, 2, 255)]),
    feature!(1, 3, [(110, 3, 255)]),
    feature!(1, 4, [(110, 4, 255)]),
    feature!(1, 5, [(110, 5, 255)]),
    feature!(1, 6, [(110, 6, 255)]),
    feature!(1, 7, [(110, 7, 255)]),
    feature!(1, 8, [(110, 8, 255)]),
    feature!(1, 9, [(110, 9, 255)]),
    feature!(1, 10, [(110, 10, 255)]),
    feature!(1, 11, [(110, 11, 255)]),
    feature!(1, 12, [(110, 12, 255)]),
    feature!(1, 13, [(110, 13, 255)]),
    feature!(1, 14, [(110, 14, 255)]),
    feature!(1, 15, [(110, 15, 255)]),
    feature!(1, 16, [(110, 16, 255)]),
];

/// The next of a row of numbers that look like chance.
fn next(n: u32) -> u32 {
    n.wrapping_mul(1_664_525).wrapping_add(1_013_904_223)
}

/// One of so many numbers from 0 on.
fn one_of(n: u32, count: u32) -> i64 {
    i64::from(n / 256 % count.max(1))
}

/// Whether these are the names of the boxes that meet the area, in order.
fn are_met(names: &[Name], area: &Bounds) -> bool {
    let mut left = names.iter();
    for (at, (x0, y0, x1, y1)) in BOXES.iter().enumerate() {
        if *x0 <= area.x1 && area.x0 <= *x1 && *y0 <= area.y1 && area.y0 <= *y1 {
            match left.next() {
                Some(name) if name.rcid as usize == at + 1 => {}
                _ => return false,
            }
        }
    }
    left.next().is_none()
}

#[test]
fn areas(rt: HostRuntime) -> Result<(), Fail> {
    let alloc = rt.alloc();
    let cell = chart(alloc, &ROWS)?;
    let grid = grid_of(alloc, &cell)?;
    let mut n = 1;
    for case in 0..400 {
        let x = next(n);
        let y = next(x);
        let width = next(y);
        n = next(width);
        let x0 = one_of(x, 300).saturating_sub(20);
        let y0 = one_of(y, 66_000).saturating_sub(20);
        let area = Bounds {
            x0,
            y0,
            x1: x0.saturating_add(one_of(width, 90)),
            y1: y0.saturating_add(one_of(n, 9_000)),
        };
        let names = grid.candidates(alloc, &area)?;
        assert!(rt; are_met(names.as_slice(), &area), "case {case}");
    }
    Ok(())
}
