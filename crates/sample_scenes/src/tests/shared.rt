//! Blocks that tables of tests state, and how a scene is painted with them.

ghost use Rattle.std.specs.Prelude.{◌≡◌, ◌≤◌};

use chart_model::codes::FEATURE;
use chart_model::{Block, Geom, Item, ItemList, Key, Name, Octets, PanelKey, Target};
use panel_port::{BlockMap, Panel, ShownBlocks};
use scene_sync::{PaintFault, Progress, Scene};
use std::alloc::{AllocError, Global};
use std::test::Fail;

/// A feature that is shown: its number, and how many items its block has.
pub type Row = (u32, usize);

fn key_of(cell: Key, rcid: u32) -> PanelKey {
    let name = Name {
        rcnm: FEATURE,
        rcid,
    };
    PanelKey { key: cell, name }
}

fn block(alloc: Global, items: usize) -> Result<Block, AllocError> {
    let mut list = ItemList::new(alloc);
    for _ in 0..items {
        list.push(Item {
            target: Target::Whole,
            text: Octets::from_vec(Vec::new(alloc)),
        })?;
    }
    Ok(Block {
        priority: 1,
        geom: Geom::Area,
        items: list,
    })
}

/// The blocks of these features of a cell.
pub fn blocks(alloc: Global, cell: Key, rows: &[Row]) -> Result<BlockMap, AllocError> {
    let mut blocks = BlockMap::new(alloc);
    for (rcid, items) in rows {
        blocks.insert(key_of(cell, *rcid), block(alloc, *items)?)?;
    }
    Ok(blocks)
}

/// Whether exactly these features are shown.
pub fn shows(scene: Option<&ShownBlocks>, cell: Key, rows: &[Row]) -> bool {
    match scene {
        Some(shown) => shown.len() == rows.len() && rows.iter().all(|row| has(shown, cell, *row)),
        None => false,
    }
}

fn has(shown: &ShownBlocks, cell: Key, (rcid, items): Row) -> bool {
    match shown.get(key_of(cell, rcid)) {
        Some(block) => block.items.as_slice().len() == items,
        None => false,
    }
}

/// Begins a refresh, where none is under way.
pub fn begin(alloc: Global, scene: &mut Scene, target: BlockMap) -> Result<u64, Fail> {
    if scene.is_refreshing() {
        return Err("a refresh is under way".into());
    }
    Ok(scene.begin_refresh(alloc, target)?)
}

/// Makes n calls of the refresh that is under way, on a panel in a box: none where none is.
pub fn paint_boxed(
    alloc: Global,
    scene: &mut Scene,
    panel: &mut Box<dyn Panel>,
    n: u64,
) -> Option<Result<Progress, PaintFault>>
    ensures tells { tells panel.new ≡ tells panel.old }
    ensures later { faults panel.old ≤ faults panel.new }
{
    paint(alloc, scene, panel.as_mut(), n)
}

/// Makes n calls of the refresh that is under way: none where none is.
pub fn paint(
    alloc: Global,
    scene: &mut Scene,
    panel: &mut dyn Panel,
    n: u64,
) -> Option<Result<Progress, PaintFault>>
    ensures tells { tells panel.new ≡ tells panel.old }
    ensures later { faults panel.old ≤ faults panel.new }
{
    if !scene.is_refreshing() {
        return None;
    }
    Some(scene.paint(alloc, panel, n))
}
