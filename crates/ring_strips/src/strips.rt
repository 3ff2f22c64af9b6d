//! The strips of an area, and the one that has a point's height.

use crate::strip::Strip;
use plane_geometry::Pt;
use std::alloc::Global;
use std::marker::Model;

/// The strips of an area from south to north; none of an area that isn't cut. Contracts see a list.
#[derive(Debug, Drop)]
pub struct Strips {
    /// The south border of the first, in degrees times 10,000,000.
    low: i32,
    /// How high each is.
    step: i64,
    each: Vec<Strip>,
}

impl Model for Strips {
    ghost use Rattle.std.specs.Prelude.{List};
    ghost use Rattle.ring_strips.specs.Strips.{StripValue};

    ghost Value = { List StripValue };

    ghost view = { λ strips. strips.each.items };
}

impl Strips {
    ghost use Rattle.std.specs.Prelude.{◌≡◌, [], IfSome};
    ghost use Rattle.ring_strips.specs.Strips.{Tells};

    /// No strips, as of an area that isn't cut. It takes no memory.
    pub fn none(alloc: Global) -> Strips
        ensures { result ≡ [] }
    {
        Strips::new(0, 0, Vec::new(alloc))
    }

    /// These strips, of which each is so high and the first begins so far north. It takes no memory.
    pub(crate) fn new(low: i32, step: i64, each: Vec<Strip>) -> Strips
        ensures { result ≡ each.items }
    {
        Strips { low, step, each }
    }

    /// The place among the strips of the one that has a point's height, where there is one. Nothing that is answered
    /// hangs on it, but how fast.
    fn place_of(&self, p: Pt) -> Option<usize> {
        let height = i64::from(p.y) - i64::from(self.low);
        let place = height.checked_div(self.step)?;
        usize::try_from(place).ok()
    }

    /// The strip that has a point's height, where there is one. It takes no memory.
    pub fn at(&self, p: Pt) -> Option<&Strip>
        ensures { IfSome result (λ strip. Tells p self.now strip.now) }
    {
        let strip = self.each.get(self.place_of(p)?)?;
        if strip.is_level_with(p) {
            Some(strip)
        } else {
            None
        }
    }
}
