//! Sample charts, over which shapes, closure and changes are tested across crates.
//!
//! The tests hold what `area_rings`, `chart_closure`, `chart_difference` and `update_apply` answer on small charts
//! against shapes, faults, names and changed records that were worked out by hand. None of these crates has tests of
//! its own, since each would be proved again for them; this crate is tests alone, and is proved once.
//!
//! Charts are rows of `sample_rows`. A test is a table of rows, each with what has to be answered.
#![tactic(auto)]

#[cfg(test)]
mod tests;
