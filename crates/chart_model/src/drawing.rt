//! What is drawn of a feature.
//!
//! It stands here so that what draws and what prints a drawing need not know of each other.

ghost use Rattle.std.specs.Prelude.{◌≡◌, IfOk};

use crate::key::Key;
use crate::name::Name;
use crate::octets::Octets;
use crate::sequence::Sequence;
use std::alloc::{AllocError, Global};

/// The geometric primitive of a drawn feature, in the order of drawing.
#[derive(Clone, Copy, Debug, PartialEq, Eq, PartialOrd, Ord)]
pub enum Geom {
    Area,
    Line,
    Point,
}

/// Where an instruction draws.
#[derive(Clone, Copy, Debug, PartialEq, Eq)]
pub enum Target {
    /// On the whole feature.
    Whole,
    /// On the edge with this number (RCID).
    Edge(u32),
    /// At this longitude and latitude, in degrees times 10,000,000.
    At(i32, i32),
}

/// A draw instruction at its target, as `SY(DANGER01)`.
#[derive(Debug, PartialEq, Drop)]
pub struct Item {
    pub target: Target,
    pub text: Octets,
}

impl Clone for Item {
    ghost is_clone = { λ item copy. copy ≡ item };

    fn clone(&self) -> Result<Item, AllocError> {
        Ok(Item {
            target: self.target,
            text: self.text.clone()?,
        })
    }
}

/// Draw instructions in order.
pub type ItemList = Sequence<Item>;

/// What is drawn of one feature: its instructions, and what orders it among others.
#[derive(Debug, PartialEq, Drop)]
pub struct Block {
    /// The display priority: the greater is drawn later.
    pub priority: u8,
    pub geom: Geom,
    pub items: ItemList,
}

impl Block {
    /// An equal block.
    pub fn copy(&self, _alloc: Global) -> Result<Block, AllocError>
        ensures { IfOk result (λ copy. copy ≡ self.now) }
    {
        Ok(Block {
            priority: self.priority,
            geom: self.geom,
            items: self.items.clone()?,
        })
    }
}

/// The feature that a panel shows a block of: its cell and its name. Ordered by cell, then by name.
#[derive(Clone, Copy, Debug, PartialEq, Eq, PartialOrd, Ord)]
pub struct PanelKey {
    pub key: Key,
    pub name: Name,
}
