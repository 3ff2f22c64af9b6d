//! Rings with many points, cut into strips by height: a point is held against the segments of one strip.
//!
//! Whether a point is inside rings is said by those of their segments alone that have a place at the point's height. So
//! the height of the rings is cut into equal strips, each with the segments that reach it, and a point is held against
//! those of one strip, about as many as a small area has, and not against thousands.
#![tactic(auto)]

mod cut;
mod heights;
mod segments;
mod strip;
mod strips;
#[cfg(test)]
mod tests;

pub use cut::{FEWEST_POINTS, most_segments, strips_of};
pub use strip::Strip;
pub use strips::Strips;
