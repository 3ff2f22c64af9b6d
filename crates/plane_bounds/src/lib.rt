//! Boxes round rings: what is inside the rings is in the box, so that the box can be asked first.
#![tactic(auto)]

mod bounds;
mod laws;

pub use bounds::{Bounds, bounds_of};
pub use laws::{insides_are_in_bounds, points_are_inside};
