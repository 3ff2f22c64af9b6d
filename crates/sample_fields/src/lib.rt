//! Sample files, over which records and fields are tested.
//!
//! The tests hold what `iso8211_records` and `s57_fields` answer on small files against values, faults and places that
//! were worked out by hand. Neither has tests of its own, since each would be proved again for them; this crate is
//! tests alone, and is proved once.
#![tactic(auto)]

#[cfg(test)]
mod tests;
