//! What the lines of a route's file say, as far as they are read.
//!
//! Points are counted to the end of the file, since a route with too many is answered with their number. Those behind
//! the first 1,000 aren't kept, so that memory doesn't grow with the file.

ghost use Rattle.std.specs.Prelude.{◌≡◌, ◌+◌, ◌<◌, ◌≤◌, ◌^◌, [], OnOk, MatchResult, Ok};
ghost use Rattle.chart_model.specs.Memory.{Fails};
ghost use Rattle.route_check.specs.declared.fault.RouteFault.TheVariants.{NoMemory};
ghost use Rattle.route_check.specs.Draft.{draft_of, KeepsFirstPoints, with_point, line_in, finished_route};

use crate::fault::RouteFault;
use crate::line::{HalfWidths, read_box, read_point};
use crate::route::{PtList, Route};
use chart_model::Sequence;
use plane_geometry::Pt;
use std::alloc::{AllocError, Global};
use text_lines::is_silent;

/// The most points of a route.
const MOST_POINTS: u64 = 1_000;

/// The box and the points that lines say, with no more points than a route may have.
#[derive(Drop)]
pub(crate) struct Draft {
    half_widths: Option<HalfWidths>,
    /// The first of the points.
    points: Sequence<Pt>,
    /// How many points there are, kept or not.
    count: u64,
}

impl Draft {
    /// A draft before any line. It takes no memory.
    pub(crate) fn new(alloc: Global) -> Draft
        ensures { result ≡ draft_of [] }
    {
        Draft {
            half_widths: None,
            points: Sequence::new(alloc),
            count: 0,
        }
    }

    /// Adds a point, which is kept where it is one of the first 1,000.
    fn add_point(&mut self, point: Pt) -> Result<(), AllocError>
        requires kept { KeepsFirstPoints self.old }
        requires fits { self.old.count + 1 < 2 ^ 64 }
        ensures { OnOk result (self.new ≡ with_point self.old point) }
    {
        if self.count < MOST_POINTS {
            self.points.push(point)?;
        }
        self.count += 1;
        Ok(())
    }

    /// Takes what the line of this number says.
    pub(crate) fn take_line(&mut self, number: u64, line: &[u8]) -> Result<(), RouteFault>
        requires kept { KeepsFirstPoints self.old }
        requires counted { self.old.count < number }
        ensures { MatchResult result
            (λ _. line_in self.old number line.now ≡ Ok self.new)
            (λ fault. Fails NoMemory fault (line_in self.old number line.now)) }
    {
        if is_silent(line) {
            return Ok(());
        }
        let bad_line = RouteFault::BadLine(number);
        if self.half_widths.is_none() {
            let half_widths = read_box(line).ok_or(bad_line)?;
            self.half_widths = Some(half_widths);
        } else {
            let point = read_point(line).ok_or(bad_line)?;
            self.add_point(point)?;
        }
        Ok(())
    }

    /// The route of the lines.
    pub(crate) fn finish(self) -> Result<Route, RouteFault>
        requires { KeepsFirstPoints self }
        ensures { result ≡ finished_route self }
    {
        let Draft {
            half_widths,
            points,
            count,
        } = self;
        let Some(HalfWidths { w, h }) = half_widths else {
            return Err(RouteFault::Few(0));
        };
        if count > MOST_POINTS {
            return Err(RouteFault::Many(count));
        }
        match PtList::from_vec(points.into_vec()) {
            Some(points) => Ok(Route { w, h, points }),
            None => Err(RouteFault::Few(count)),
        }
    }
}
