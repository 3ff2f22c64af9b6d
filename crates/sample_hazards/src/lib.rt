//! Tests of the depths of areas and hazards, of which areas are safe, and of what is drawn of hazards, across crates.
//!
//! The tests hold what `depth_values` and `hazard_symbology` answer on small charts against areas, depths, digits and
//! items that were worked out by hand from the rules.
//! Neither crate has tests of its own, since each would be proved again for them; this crate is tests alone, and is
//! proved once.
//!
//! Charts are rows of `sample_rows`. A test is a table of cases, each with what has to be answered.
#![tactic(auto)]

#[cfg(test)]
mod tests;
