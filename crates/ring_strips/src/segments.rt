//! The segments of rings, and what they say of a point.

ghost use Rattle.std.specs.Prelude.{◌≡◌, List, IfOk, count_by};
ghost use Rattle.std.specs.List.{list_any};
ghost use Rattle.plane_geometry.specs.EvenOdd.{segments, all_segments, crosses};
ghost use Rattle.plane_bounds.specs.Inside.{is_on};
ghost use Rattle.ring_strips.specs.Strips.{is_among};

use plane_geometry::{Pt, Ring, crosses_ray, on_segment};
use std::alloc::{AllocError, Global};

/// Whether a point is on a segment.
fn is_on(p: Pt, segment: (Pt, Pt)) -> bool
    ensures { result ≡ is_on p segment }
{
    on_segment(p, segment.0, segment.1)
}

/// Whether a point is on one of the segments.
fn is_on_any(p: Pt, segments: &[(Pt, Pt)]) -> bool
    ensures { result ≡ list_any (is_on p) segments.now }
{
    segments.iter().any(|segment| is_on(p, *segment))
}

/// How many of the segments cross the ray from a point to greater x.
fn count_crossing(p: Pt, segments: &[(Pt, Pt)]) -> usize
    ensures { result ≡ count_by (crosses p) segments.now }
{
    segments
        .iter()
        .filter(|segment| crosses_ray(p, segment.0, segment.1))
        .count()
}

/// Whether a point is on one of the segments, or an odd number of them cross the ray from it.
pub(crate) fn is_among(p: Pt, segments: &[(Pt, Pt)]) -> bool
    ensures { result ≡ is_among p segments.now }
{
    is_on_any(p, segments) || count_crossing(p, segments) % 2 == 1
}

/// The segments of a ring: from each point to the next, and from the last to the first.
fn segments_of(alloc: Global, ring: &[Pt]) -> Result<Vec<(Pt, Pt)>, AllocError>
    ensures { IfOk result (λ those. those.items ≡ segments ring.now) }
{
    let next = ring
        .iter()
        .copied()
        .skip(1)
        .chain(ring.iter().copied().take(1));
    ring.iter().copied().zip(next).collect(alloc)
}

/// The segments of all rings, of which there are as many as points, here `size`.
pub(crate) fn all_segments(
    alloc: Global,
    rings: &[Ring],
    size: usize,
) -> Result<Vec<(Pt, Pt)>, AllocError>
    ensures { IfOk result (λ all. all.items ≡ all_segments rings.now) }
{
    let mut all = Vec::with_capacity(alloc, size)?;
    for ring in rings {
        let those = segments_of(alloc, ring.as_slice())?;
        all.extend_from_slice(those.as_slice())?;
    }
    Ok(all)
}
