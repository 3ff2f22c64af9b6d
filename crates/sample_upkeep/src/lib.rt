//! Tests of what is kept of a chart and brought up to date with it, across crates.
//!
//! The users of `topology_cache` and the grid of `spatial_grid` follow a chart through updates, and are compared with
//! those that are made of each chart anew. Charts and updates are rows of `sample_rows`. Neither crate has tests of its
//! own, since each would be proved again for them; this crate is tests alone, and is proved once.
#![tactic(auto)]

#[cfg(test)]
mod tests;
