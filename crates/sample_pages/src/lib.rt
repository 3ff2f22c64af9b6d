//! Sample checkpoints, over which a state's bytes are tested.
//!
//! The tests hold what `chart_pages` answers against bytes that were worked out by hand. It has no tests of its own,
//! since it would be proved again for them; this crate is tests alone, and is proved once.
#![tactic(auto)]

#[cfg(test)]
mod tests;
