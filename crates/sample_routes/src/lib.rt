//! Sample routes, over which their reader and the report of dangers along them are tested.
//!
//! The tests hold what `route_check` answers against points, legs, faults and dangers that were worked out by hand. It
//! has no tests of its own, since it would be proved again for them; this crate is tests alone, and is proved once.
#![tactic(auto)]

#[cfg(test)]
mod tests;
