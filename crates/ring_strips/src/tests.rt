//! A ring with many corners has strips of few segments, which answer as all of its segments do.

use super::*;
use plane_bounds::bounds_of;
use plane_geometry::{Pt, Ring, inside_even_odd};
use std::alloc::{AllocError, Global};
use std::test::Fail;

/// A ring whose west side goes to and fro by 199 corners, one unit north of the other, and whose last corner is far in
/// the east.
fn comb(alloc: Global) -> Result<Ring, AllocError> {
    let mut ring = Ring::new(alloc);
    for y in 0..199 {
        let x = if y % 2 == 0 { 0 } else { 20 };
        ring.push(Pt { x, y })?;
    }
    ring.push(Pt { x: 100, y: 90 })?;
    Ok(ring)
}

/// What the strip that has a point's height says, where it has a tenth of the segments at most.
fn answer_of_few(strips: &Strips, p: Pt) -> Option<bool> {
    let strip = strips.at(p)?;
    if strip.len() > 20 {
        return None;
    }
    Some(strip.holds(p))
}

#[test]
fn a_comb(rt: HostRuntime) -> Result<(), Fail> {
    let ring = comb(rt.alloc())?;
    let rings = vec![in rt.alloc(); ring]?;
    let bounds = bounds_of(rings.as_slice());
    let strips = strips_of(rt.alloc(), rings.as_slice(), bounds, 200)?;
    for y in 0..200 {
        for x in [-1, 0, 10, 19, 20, 21, 50, 99, 100] {
            let p = Pt { x, y };
            let inside = inside_even_odd(p, rings.as_slice());
            assert_eq!(rt; answer_of_few(&strips, p), Some(inside), "{x} {y}");
        }
    }
    Ok(())
}
