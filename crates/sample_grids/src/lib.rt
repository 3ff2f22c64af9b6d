//! Sample charts over which the grid of their features' boxes is tested.
//!
//! The tests hold what `grid_of` and `Grid::candidates` answer against areas that were worked out by hand, and against
//! a walk over all boxes. `spatial_grid` has no tests of its own, since it would be proved again for them; this crate
//! is tests alone, and is proved once.
#![tactic(auto)]

#[cfg(test)]
mod tests;
