//! How much a panel shows.
//!
//! It is what every panel can say of itself, also one that keeps no blocks and tells no scene.

/// How much a panel shows. A number stays at 2^64 - 1 where it would pass it.
#[derive(Clone, Copy, Debug, PartialEq, Eq)]
pub struct Summary {
    /// The number of blocks.
    pub blocks: u64,
    /// The number of items of all blocks.
    pub items: u64,
}
