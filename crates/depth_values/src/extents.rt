//! What the depth areas of a chart cover, in groups of what is near each other.

use crate::extent::Extent;
use crate::groups::{Group, groups_of};
use std::alloc::{AllocError, Global};
use std::marker::Model;

/// What the depth areas of a chart cover, and the groups of it. Contracts see the list.
#[derive(Debug, Drop)]
pub struct Extents {
    each: Vec<Extent>,
    groups: Vec<Group>,
}

impl Model for Extents {
    ghost use Rattle.std.specs.Prelude.{List};
    ghost use Rattle.depth_values.specs.DepthArea.{ExtentValue};
    ghost use Rattle.depth_values.specs.Groups.{AreGrouped};

    ghost Value = { List ExtentValue };

    ghost view = { λ extents. extents.each.items };

    ghost invariant = { λ extents. AreGrouped extents.each.items extents.groups.items };
}

impl Extents {
    ghost use Rattle.std.specs.Prelude.{◌≡◌, IfOk};
    ghost use Rattle.depth_values.specs.Groups.{AreGrouped};

    /// Puts extents into groups.
    pub(crate) fn of_each(alloc: Global, each: Vec<Extent>) -> Result<Extents, AllocError>
        ensures { IfOk result (λ extents. extents ≡ each.items) }
    {
        let groups = groups_of(alloc, each.as_slice())?;
        Ok(Extents { each, groups })
    }

    /// All of them. It takes no memory.
    pub(crate) fn as_slice(&self) -> &[Extent]
        ensures { result.now ≡ self.now }
    {
        self.each.as_slice()
    }

    /// Their groups. It takes no memory.
    pub(crate) fn groups(&self) -> &[Group]
        ensures { AreGrouped self.now result.now }
    {
        self.groups.as_slice()
    }
}
