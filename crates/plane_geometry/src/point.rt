//! Points and rings, in the whole numbers in which a chart has its coordinates.
//!
//! Longitudes of up to 180 degrees are at most 1,800,000,000 in these units, so 32 bits hold them, and charts, routes
//! and rings have the same points. Rings are plain lists for contracts.

use chart_model::Sequence;

/// A point of the plane: longitude `x` and latitude `y` in degrees times 10,000,000.
#[derive(Clone, Copy, Debug, PartialEq, Eq)]
pub struct Pt {
    pub x: i32,
    pub y: i32,
}

/// Points in order round a closed line: the last joins the first.
pub type Ring = Sequence<Pt>;
