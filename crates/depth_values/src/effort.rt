//! How much work a drawing or a report may ask for.
//!
//! A cell that is taken may have thousands of hazards in thousands of areas that all lie on each other, and each hazard
//! asks each area. So a drawing, and a report, tests points against so many segments and no more: over a hundred times
//! as many as 2,000 hazards need over 13,000 areas that lie side by side.

use std::alloc::AllocError;
use std::marker::Model;

/// How often a drawing or a report tests a point against a segment, so that it ends within seconds.
const MOST_TESTS: usize = 300_000_000;

/// The most points of a shape, and of the rings of all depth areas of a chart, so that they fit in memory.
pub(crate) const MOST_POINTS: usize = 16_777_216;

/// The most segments of the strips of all depth areas of a chart, so that they take 64 MB.
const MOST_SEGMENTS: usize = 4_194_304;

/// How much more work is done for a drawing or a report. Contracts see the number.
#[derive(Debug, Drop)]
pub struct Effort {
    left: usize,
}

impl Model for Effort {
    ghost use Rattle.std.specs.Prelude.{ℕ};

    ghost Value = { ℕ };

    ghost view = { λ effort. effort.left };
}

impl Effort {
    ghost use Rattle.std.specs.Prelude.{◌≡◌, ◌+◌, ◌<◌, OnOk, OnErr};

    /// That of a drawing or of a report, which counts tests of a point against a segment.
    pub fn whole() -> Effort
        ensures { result ≡ 300000000 }
    {
        Effort { left: MOST_TESTS }
    }

    /// That of the depth areas of a chart, which counts the points of their rings.
    pub(crate) fn of_rings() -> Effort
        ensures { result ≡ 16777216 }
    {
        Effort { left: MOST_POINTS }
    }

    /// That of the strips of the depth areas of a chart, which counts their segments.
    pub(crate) fn of_strips() -> Effort
        ensures { result ≡ 4194304 }
    {
        Effort {
            left: MOST_SEGMENTS,
        }
    }

    /// Takes some tests of a point against a segment, or other work that costs as much.
    ///
    /// # Errors
    ///
    /// `AllocError` exactly where fewer are left, and then nothing is taken.
    pub fn spend(&mut self, tests: usize) -> Result<(), AllocError>
        ensures ok { OnOk result (self.old ≡ self.new + tests) }
        ensures err { OnErr result (self.new ≡ self.old) }
        ensures short { OnErr result (self.old < tests) }
    {
        if self.left < tests {
            return Err(AllocError);
        }
        self.left -= tests;
        Ok(())
    }
}
