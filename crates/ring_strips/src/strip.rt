//! One strip.

use crate::heights::{count_reaching, reaching};
use crate::segments::is_among;
use plane_geometry::Pt;
use std::alloc::{AllocError, Global};
use std::marker::Model;

/// The heights from one to another, both included, and segments that say which points at these heights are inside the
/// rings that were cut.
#[derive(Debug, Drop)]
pub struct Strip {
    /// The south border, in degrees times 10,000,000.
    low: i32,
    /// The north border.
    high: i32,
    segments: Vec<(Pt, Pt)>,
}

impl Model for Strip {
    ghost use Rattle.ring_strips.specs.Strips.{StripValue};

    ghost Value = { StripValue };

    ghost view = { λ strip. record { low = strip.low; high = strip.high; segments = strip.segments.items } };
}

impl Strip {
    ghost use Rattle.std.specs.Prelude.{◌≡◌, ◌↔◌, List, length, IsTrue, IfOk};
    ghost use Rattle.plane_geometry.specs.declared.point.Pt.{Pt};
    ghost use Rattle.ring_strips.specs.Strips.{is_among, IsLevelWith, IsStrip};

    /// A strip with these borders and segments. It takes no memory.
    pub(crate) fn new(low: i32, high: i32, segments: Vec<(Pt, Pt)>) -> Strip
        ensures { result ≡ record { low = low; high = high; segments = segments.items } }
    {
        Strip {
            low,
            high,
            segments,
        }
    }

    /// The height that is so much above the south border. Nothing that is answered hangs on it, but how fast.
    pub(crate) fn above(&self, step: i64) -> i32 {
        i32::try_from(i64::from(self.low).saturating_add(step)).unwrap_or(i32::MAX)
    }

    /// How many segments the strip has, and so what a test of it costs. It takes no memory.
    pub fn len(&self) -> usize
        ensures { result ≡ length self.now.segments }
    {
        self.segments.len()
    }

    /// Whether the strip's segments say that a point is inside. It takes no memory.
    pub fn holds(&self, p: Pt) -> bool
        ensures { result ≡ is_among p self.now.segments }
    {
        is_among(p, self.segments.as_slice())
    }

    /// Whether a point has one of the strip's heights.
    pub(crate) fn is_level_with(&self, p: Pt) -> bool
        ensures { IsTrue result ↔ IsLevelWith self.now p }
    {
        self.low <= p.y && p.y <= self.high
    }

    /// How many segments the parts of the strip below and above a height have. Nothing that is answered hangs on it.
    pub(crate) fn len_of_parts(&self, middle: i32) -> usize {
        let south = count_reaching(self.low, middle, self.segments.as_slice());
        let north = count_reaching(middle, self.high, self.segments.as_slice());
        south.saturating_add(north)
    }

    /// The part of the strip that is at most so high.
    pub(crate) fn south(&self, alloc: Global, middle: i32) -> Result<Strip, AllocError>
        ensures { IfOk result (λ part. (rings : List (List Pt)) → IsStrip rings self.now → IsStrip rings part) }
    {
        let high = middle.min(self.high);
        let segments = reaching(alloc, self.low, high, self.segments.as_slice())?;
        Ok(Strip::new(self.low, high, segments))
    }

    /// The part of the strip that is at least so high.
    pub(crate) fn north(&self, alloc: Global, middle: i32) -> Result<Strip, AllocError>
        ensures { IfOk result (λ part. (rings : List (List Pt)) → IsStrip rings self.now → IsStrip rings part) }
    {
        let low = middle.max(self.low);
        let segments = reaching(alloc, low, self.high, self.segments.as_slice())?;
        Ok(Strip::new(low, self.high, segments))
    }
}
