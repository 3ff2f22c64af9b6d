//! Sample sessions, over which turns and their replies are tested.
//!
//! The tests hold what `session_core` replies, line by line, against replies that were worked out by hand. It has no
//! tests of its own, since it would be proved again for them; this crate is tests alone, and is proved once.
#![tactic(auto)]

#[cfg(test)]
mod tests;
