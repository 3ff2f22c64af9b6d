//! Segments that have a place between two heights.

ghost use Rattle.std.specs.Prelude.{◌≡◌, ◌||◌, int_le, List, IfOk, filter, count_by};
ghost use Rattle.ring_strips.specs.Strips.{reaches};

use plane_geometry::Pt;
use std::alloc::{AllocError, Global};

/// Whether an end of a segment is at most as high as this.
fn is_up_to(high: i32, segment: (Pt, Pt)) -> bool
    ensures { result ≡ (int_le segment.0.y high || int_le segment.1.y high) }
{
    segment.0.y <= high || segment.1.y <= high
}

/// Whether an end of a segment is at least as high as this.
fn is_from(low: i32, segment: (Pt, Pt)) -> bool
    ensures { result ≡ (int_le low segment.0.y || int_le low segment.1.y) }
{
    low <= segment.0.y || low <= segment.1.y
}

/// Whether a place of a segment has one of the heights from one to another, both included.
fn reaches(low: i32, high: i32, segment: (Pt, Pt)) -> bool
    ensures { result ≡ reaches low high segment }
{
    is_up_to(high, segment) && is_from(low, segment)
}

/// How many of the segments reach one of the heights.
pub(crate) fn count_reaching(low: i32, high: i32, segments: &[(Pt, Pt)]) -> usize
    ensures { result ≡ count_by (reaches low high) segments.now }
{
    segments
        .iter()
        .filter(|segment| reaches(low, high, **segment))
        .count()
}

/// Those of the segments that reach one of the heights, in their order.
pub(crate) fn reaching(
    alloc: Global,
    low: i32,
    high: i32,
    segments: &[(Pt, Pt)],
) -> Result<Vec<(Pt, Pt)>, AllocError>
    ensures { IfOk result (λ reaching. reaching.items ≡ filter (reaches low high) segments.now) }
{
    let mut reaching = Vec::with_capacity(alloc, count_reaching(low, high, segments))?;
    for segment in segments {
        if reaches(low, high, *segment) {
            reaching.push(*segment)?;
        }
    }
    Ok(reaching)
}
