//! Which legs of a route the charts cover.
//!
//! Where nothing is charted a route meets nothing dangerous, so a report alone doesn't say that a leg is safe. What is
//! charted is said by the charts' areas of coverage, and a leg is covered where one of these holds all of it, widened.
#![tactic(auto)]

mod area;
mod cover;
mod coverage;
mod laws;
mod legs;

pub use cover::covers;
pub use laws::{areas_are_told, covered_legs_are_tested, uncovered_legs_are_exact};
pub use legs::{LegList, uncovered_legs};
