//! Sample banks, over which the journal is tested.
//!
//! The tests hold what `bank_journal` answers and writes against bytes and places that were worked out by hand. It has
//! no tests of its own, since it would be proved again for them; this crate is tests alone, and is proved once.
#![tactic(auto)]

#[cfg(test)]
mod tests;
