//! Points, segments and rings of the plane, in whole numbers and exact.
//!
//! One unit decides whether a place lies on a border, so no answer may hang on rounding. Nothing is divided: every
//! answer is the sign of a sum of products, in as many bits as these need.
#![tactic(auto)]

mod even_odd;
mod laws;
mod orientation;
mod point;
mod ray;
mod segment;
#[cfg(test)]
mod tests;

pub use even_odd::inside_even_odd;
pub use laws::crossing_is_a_place;
pub use orientation::orient;
pub use point::{Pt, Ring};
pub use ray::crosses_ray;
pub use segment::on_segment;
