//! Sample cells, over which the writer of cells is tested.
//!
//! The tests hold what `cell_bytes` and `cell_writer` answer against files, records and faults that were worked out by
//! hand. Neither has tests of its own, since each would be proved again for them; this crate is tests alone, and is
//! proved once.
#![tactic(auto)]

#[cfg(test)]
mod tests;
