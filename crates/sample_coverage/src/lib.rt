//! Sample areas of coverage, over which it is tested which legs they cover.
//!
//! The tests hold what `coverage_points` answers against legs that were worked out by hand, and against a search over
//! small figures. It has no tests of its own, since it would be proved again for them; this crate is tests alone, and
//! is proved once.
#![tactic(auto)]

#[cfg(test)]
mod tests;
