//! Sample pairs of banks, over which saves are tested.
//!
//! The tests hold what `bank_pair` answers, writes and leaves against bytes, places and numbers of calls that were
//! worked out by hand. `bank_pair` has no tests of its own, since it would be proved again for them; this crate is
//! tests alone, and is proved once.
//!
//! A script is a list of steps, through which a pair is driven (`driven`) on a desk in memory. What files say is
//! compared as a text (`files`).
#![tactic(auto)]

#[cfg(test)]
mod driven;
#[cfg(test)]
mod files;
#[cfg(test)]
mod tests;
