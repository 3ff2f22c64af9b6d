//! Sample devices, over which the adapters of the outside are tested, and a desk for tests of what stands on one.
//!
//! The tests hold what the sources, shelves and desks of `chart_ports` answer, in memory and over the real system,
//! against values that were worked out by hand. `chart_ports` has no tests of its own, since it would be proved again
//! for them.
#![tactic(auto)]

mod untold;

pub use untold::Untold;

#[cfg(test)]
mod tests;
