//! Rational points of the plane: where they lie, and which of them are inside rings.
//!
//! Rings and legs have corners of whole numbers, but most of their points have none: what speaks of all points of a leg
//! or of an area needs fractions. No code computes with them, and nothing is divided: a point is two whole numbers over
//! a third, and where it lies is said with all sides multiplied by that.
#![tactic(auto)]

mod laws;

pub use laws::{joined_points_are_alike, same_points_are_alike, whole_points_are_alike};
