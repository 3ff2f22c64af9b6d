//! Sample catalogues of exchange sets, over which their reader and their load order are tested.
//!
//! The tests hold what `exchange_catalogue` answers against entries, orders and faults that were worked out by hand.
//! It has no tests of its own, since it would be proved again for them; this crate is tests alone, and is proved once.
#![tactic(auto)]

#[cfg(test)]
mod tests;
