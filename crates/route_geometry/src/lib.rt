//! Where a leg of a route, widened, meets segments and areas: in whole numbers and exact.
//!
//! Nothing is divided and nothing rounded: the answers come from the signs of sums, and from comparing
//! products of two 64-bit numbers in 128 bits.
#![tactic(auto)]

mod area;
mod band;
mod corner;
mod crossing;
mod laws;
mod leg;
mod meeting;
mod side;
mod slope;
#[cfg(test)]
mod tests;

pub use area::{leg_meets_area, leg_meets_boundary};
pub use laws::{meetings_are_tested, wider_legs_meet_more};
pub use leg::{Leg, leg_meets_point, leg_meets_segment};
