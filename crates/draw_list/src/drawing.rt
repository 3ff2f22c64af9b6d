//! The drawing of a cell.
//!
//! The blocks are made in the order of names and sorted once; the order is total, so there is one drawing.

ghost use Rattle.std.specs.Prelude.{◌≡◌, ◌++◌, IfOk, OnOk};
ghost use Rattle.chart_model.specs.Cell.{IsCell};
ghost use Rattle.topology_cache.specs.Users.{AreUsersOf};
ghost use Rattle.draw_list.specs.Drawing.{IsDrawing, drawing_of, key_of, blocks_in, drawn_with};

use crate::block::block_in;
use crate::items::Known;
use crate::sources::Sources;
use chart_model::{Block, Cell, Geom, Sequence, Settings};
use lookup_table::Table;
use std::alloc::{AllocError, Global};
use topology_cache::Users;

/// What is drawn of one feature.
#[derive(Debug, Drop)]
pub struct Drawn {
    /// The number of the feature.
    pub rcid: u32,
    pub block: Block,
}

/// What is drawn of the features of a cell, in the order of drawing.
pub type DrawList = Sequence<Drawn>;

/// What orders a block among others: its priority, its geometry and the number of its feature.
#[derive(Clone, Copy, Debug, PartialEq, Eq, PartialOrd, Ord)]
struct DrawOrder {
    priority: u8,
    geom: Geom,
    rcid: u32,
}

/// What orders a block among others.
fn order_of(drawn: &Drawn) -> DrawOrder
    ensures { result ≡ key_of drawn.now }
{
    DrawOrder {
        priority: drawn.block.priority,
        geom: drawn.block.geom,
        rcid: drawn.rcid,
    }
}

/// Adds the block of the feature with a number, where it is shown.
fn push_block(blocks: &mut Vec<Drawn>, rcid: u32, block: Option<Block>) -> Result<(), AllocError>
    ensures { OnOk result (blocks.new.items ≡ blocks.old.items ++ drawn_with rcid block) }
{
    match block {
        Some(block) => {
            blocks.push(Drawn { rcid, block })?;
            Ok(())
        }
        None => Ok(()),
    }
}

/// The blocks of all features that are shown, in the order of their names.
fn drawn_blocks(alloc: Global, from: &Sources) -> Result<Vec<Drawn>, AllocError>
    ensures cell { IsCell from.now.cell.now }
    ensures blocks { IfOk result (λ blocks.
        blocks.items ≡ blocks_in from.now.cell.now from.now.table.now from.now.settings.now) }
{
    let cell = from.cell;
    let mut known = Known::nothing(alloc);
    let mut blocks = Vec::new(alloc);
    for (name, feature) in cell.features.iter() {
        let block = block_in(alloc, &mut known, from, feature)?;
        push_block(&mut blocks, name.rcid, block)?;
    }
    Ok(blocks)
}

/// The drawing of a cell: the blocks of all features that are shown, by priority, then areas before lines before
/// points, then by the features' numbers. The users are those of the cell.
pub fn draw_cell(
    alloc: Global,
    cell: &Cell,
    users: &Users,
    table: &Table,
    settings: &Settings,
) -> Result<DrawList, AllocError>
    requires { AreUsersOf cell.now users.now }
    ensures drawing { IfOk result (λ drawing. IsDrawing cell.now table.now settings.now drawing) }
    ensures function { IfOk result (λ drawing. drawing ≡ drawing_of cell.now table.now settings.now) }
{
    let from = Sources {
        cell,
        users,
        table,
        settings,
    };
    let mut blocks = drawn_blocks(alloc, &from)?;
    blocks.sort_by_key(|drawn| order_of(drawn))?;
    Ok(DrawList::from_vec(blocks))
}
