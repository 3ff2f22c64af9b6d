//! Sample catalogues and lookup tables, over which their readers are tested.
//!
//! The tests hold what `object_catalogue` and `lookup_table` answer against codes, lines and faults that were worked
//! out by hand. Neither has tests of its own, since each would be proved again for them; this crate is tests alone, and
//! is proved once.
#![tactic(auto)]

#[cfg(test)]
mod tests;
