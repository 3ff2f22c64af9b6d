//! A route, read.
//!
//! The first bad line ends the reading, and no line behind it is looked at. Lines that say nothing are counted too, so
//! a line is told by the number that an editor shows.

ghost use Rattle.route_check.specs.Reading.{route_in};
ghost use Rattle.route_check.specs.Answers.{Answers};

use crate::draft::Draft;
use crate::fault::RouteFault;
use crate::route::Route;
use std::alloc::Global;
use text_lines::cut_line;

/// The route that the bytes are: a line `box W H` and then a line `X Y` for each of 2 to 1,000 points, in degrees times
/// 10,000,000; or the first bad line, or else how many points are too few or too many.
///
/// Lines end with a line feed, the last perhaps without; a carriage return before it is removed. Empty lines and those
/// that begin with `#` count and say nothing. Memory is taken for the first 1,000 points alone.
pub fn read_route(alloc: Global, bytes: &[u8]) -> Result<Route, RouteFault>
    ensures { Answers result (route_in bytes.now) }
{
    let mut draft = Draft::new(alloc);
    let mut number = 0;
    let mut rest = bytes;
    while let Some((line, others)) = cut_line(rest) {
        number += 1;
        draft.take_line(number, line)?;
        rest = others;
    }
    draft.finish()
}
