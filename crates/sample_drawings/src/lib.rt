//! Tests of what is drawn by depths, and of whole drawings, across crates.
//!
//! The tests hold what `topology_cache`, `depth_symbology` and `draw_list`, and `draw_items` below them, answer on
//! small charts against users, items and lines that were worked out by hand from the rules.
//! None of these crates has tests of its own, since each would be proved again for them; this crate is tests alone, and
//! is proved once.
//!
//! Charts are rows of `sample_rows`. A test is a table of cases, each with what has to be answered.
#![tactic(auto)]

#[cfg(test)]
mod tests;
