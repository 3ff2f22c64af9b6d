//! Tests of panels that are brought up to date, across crates.
//!
//! The scenes of `scene_sync` paint the panels of `panel_port`, some of which fail. Neither crate has these tests of its
//! own, since each would be proved again for them; this crate is tests alone, and is proved once.
#![tactic(auto)]

#[cfg(test)]
mod tests;
