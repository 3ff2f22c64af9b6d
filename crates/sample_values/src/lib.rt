//! Sample values, over which keys, maps, attributes and copies are tested.
//!
//! The tests hold what `chart_model` answers against values that were worked out by hand. `chart_model` has no tests of
//! its own, since it would be proved again for them; this crate is tests alone, and is proved once.
#![tactic(auto)]

#[cfg(test)]
mod tests;
