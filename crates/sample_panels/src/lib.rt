//! Tests of the panels of a session, across crates.
//!
//! The scenes of `panel_scenes` paint panels of several kinds, one of which fails. This crate is tests alone, so that
//! the crates that it stands on are not proved again for them.
#![tactic(auto)]

#[cfg(test)]
mod tests;
