//! The blocks of a cell under the names of their features.
//!
//! All are made with what the others have made already, as those of a drawing are: one by one each hazard would walk
//! over all areas again.

ghost use Rattle.std.specs.Prelude.{◌≡◌, ◌↔◌, ◌++◌, Some, IfOk, OnOk};
ghost use Rattle.chart_model.specs.declared.drawing.Block.{Block as BlockValue};
ghost use Rattle.chart_model.specs.declared.name.Name.{Name as NameValue};
ghost use Rattle.topology_cache.specs.Users.{AreUsersOf};
ghost use Rattle.draw_list.specs.Block.{block_at};
ghost use Rattle.draw_list.specs.Blocks.{named_blocks_in, named_with, HasBlock};

use crate::block::block_in;
use crate::items::Known;
use crate::sources::Sources;
use chart_model::{Block, Cell, Name, Settings};
use lookup_table::Table;
use std::alloc::{AllocError, Global};
use topology_cache::Users;

/// What is drawn of a feature, under its name.
#[derive(Debug, Drop)]
pub struct NamedBlock {
    pub name: Name,
    pub block: Block,
}

/// Adds the block of the feature with a name, where it is shown.
fn push_named(
    blocks: &mut Vec<NamedBlock>,
    name: Name,
    block: Option<Block>,
) -> Result<(), AllocError>
    ensures { OnOk result (blocks.new.items ≡ blocks.old.items ++ named_with name block) }
{
    match block {
        Some(block) => {
            blocks.push(NamedBlock { name, block })?;
            Ok(())
        }
        None => Ok(()),
    }
}

/// The blocks of all features of a cell that are shown, under their names and in the order of these: what `block_of`
/// gives of each. The users are those of the cell.
pub fn blocks_of(
    alloc: Global,
    cell: &Cell,
    users: &Users,
    table: &Table,
    settings: &Settings,
) -> Result<Vec<NamedBlock>, AllocError>
    requires { AreUsersOf cell.now users.now }
    ensures blocks { IfOk result (λ blocks.
        blocks.items ≡ named_blocks_in cell.now table.now settings.now) }
    ensures each { IfOk result (λ blocks. (name : NameValue) (block : BlockValue) →
        HasBlock blocks.items name block ↔ (block_at cell.now table.now settings.now name ≡ Some block)) }
{
    let from = Sources {
        cell,
        users,
        table,
        settings,
    };
    let mut known = Known::nothing(alloc);
    let mut blocks = Vec::new(alloc);
    for (name, feature) in cell.features.iter() {
        let block = block_in(alloc, &mut known, &from, feature)?;
        push_named(&mut blocks, *name, block)?;
    }
    Ok(blocks)
}
