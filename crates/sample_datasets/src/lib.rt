//! Sample cell files, over which data sets and their sequences are tested.
//!
//! The tests hold what `s57_records` and `update_sequence` answer on small files against values, faults and charts that
//! were worked out by hand. Neither has tests of its own, since each would be proved again for them; this crate is
//! tests alone, and is proved once.
#![tactic(auto)]

#[cfg(test)]
mod tests;
