//! Rings cut into strips.
//!
//! The whole height is halved, each half again, and so on. The segments of a shape that zigzags over its whole height
//! would all stand in each strip: so no more is halved than that all strips have a few segments for each point.

ghost use Rattle.std.specs.Prelude.{List, All, IfOk};
ghost use Rattle.plane_geometry.specs.declared.point.Pt.{Pt};
ghost use Rattle.ring_strips.specs.Strips.{IsStrip, AreStrips};

use crate::segments::all_segments;
use crate::strip::Strip;
use crate::strips::Strips;
use plane_bounds::Bounds;
use plane_geometry::Ring;
use std::alloc::{AllocError, Global};

/// How many points an area has at least that is cut: to ask all segments of a smaller one costs no more than to find a
/// strip and to ask it.
pub const FEWEST_POINTS: usize = 64;

/// How many points of an area there are for each strip, or up to twice as many: a strip has a few segments then.
const POINTS_FOR_STRIP: usize = 4;

/// How many strips an area has at most.
const MOST_STRIPS: usize = 4_096;

/// How many segments all strips of an area have at most for each of its points.
const MOST_COPIES: usize = 2;

/// How many segments the strips of an area with so many points have at most: what they take of memory goes by it.
pub fn most_segments(size: usize) -> usize {
    size.saturating_mul(MOST_COPIES)
}

/// How many segments the halves of strips have, where a half is so high. Nothing that is answered hangs on it, but how
/// fast.
fn len_of_halves(strips: &[Strip], step: i64) -> usize {
    let mut len: usize = 0;
    for strip in strips {
        len = len.saturating_add(strip.len_of_parts(strip.above(step)));
    }
    len
}

/// The halves of strips, where a half is so high.
fn halved(alloc: Global, strips: &[Strip], step: i64) -> Result<Vec<Strip>, AllocError>
    ensures { IfOk result (λ halves. (rings : List (List Pt)) →
        AreStrips rings strips.now → AreStrips rings halves.items) }
{
    let mut halves = Vec::with_capacity(alloc, strips.len().saturating_mul(2))?;
    for strip in strips {
        let middle = strip.above(step);
        halves.push(strip.south(alloc, middle)?)?;
        halves.push(strip.north(alloc, middle)?)?;
    }
    Ok(halves)
}

/// A strip that begins so far north, and is so high, halved so many times, but no further than that all strips have so
/// many segments.
fn cut(
    alloc: Global,
    whole: Strip,
    low: i32,
    height: i64,
    times: u32,
    most: usize,
) -> Result<Strips, AllocError>
    ensures { IfOk result (λ strips. (rings : List (List Pt)) → IsStrip rings whole → AreStrips rings strips) }
{
    let mut step = height;
    let mut each = Vec::new(alloc);
    each.push(whole)?;
    for round in 0..times {
        let half = step / 2;
        if len_of_halves(each.as_slice(), half) > most {
            break;
        }
        each = halved(alloc, each.as_slice(), half)?;
        step = half;
    }
    Ok(Strips::new(low, step, each))
}

/// The strips of rings that have this box and so many points; none of rings with few points. Neither the box nor the
/// number of points changes what is answered, but how fast, and how much memory the strips take.
pub fn strips_of(
    alloc: Global,
    rings: &[Ring],
    bounds: Bounds,
    size: usize,
) -> Result<Strips, AllocError>
    ensures { IfOk result (AreStrips rings.now) }
{
    if size < FEWEST_POINTS {
        return Ok(Strips::none(alloc));
    }
    let segments = all_segments(alloc, rings, size)?;
    let times = (size / POINTS_FOR_STRIP).clamp(1, MOST_STRIPS).ilog2();
    let span = bounds.y1.saturating_sub(bounds.y0).max(0);
    let height = (span >> times.min(63))
        .saturating_add(1)
        .saturating_mul(1 << times.min(62));
    let low = i32::try_from(bounds.y0).unwrap_or(i32::MIN);
    let high = i32::try_from(i64::from(low).saturating_add(height)).unwrap_or(i32::MAX);
    cut(
        alloc,
        Strip::new(low, high, segments),
        low,
        height,
        times,
        most_segments(size),
    )
}
