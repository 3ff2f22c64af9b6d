//! Blocks that tests state, and what is asked of the panels of a session.

use chart_model::codes::FEATURE;
use chart_model::{Block, Geom, Item, ItemList, Key, Name, Octets, PanelKey, Target};
use panel_port::{BlockMap, Panel, Summary};
use panel_scenes::{PaintingFault, PanelRefusal, PanelScenes};
use scene_sync::Progress;
use std::alloc::{AllocError, Global};
use std::test::Fail;

/// What is shown of four features in each of three cells: the kind of each one's block, and 0 where there is none. A
/// kind has half as many items as its number, and two kinds with as many items have others.
pub type Kinds = [u32; 12];

pub const NOTHING: Kinds = [0; 12];

/// The keys of three cells.
pub type Cells = [Key; 3];

pub fn cells() -> Result<Cells, Fail> {
    let first = Key::from_bytes(b"AA5TEST1").ok_or("no key")?;
    let second = Key::from_bytes(b"AA5TEST2").ok_or("no key")?;
    let third = Key::from_bytes(b"AA5TEST3").ok_or("no key")?;
    Ok([first, second, third])
}

fn block(alloc: Global, kind: u32) -> Result<Block, AllocError> {
    let mut items = ItemList::new(alloc);
    for _ in 0..kind / 2 {
        items.push(Item {
            target: Target::Edge(kind),
            text: Octets::from_vec(Vec::new(alloc)),
        })?;
    }
    Ok(Block {
        priority: 1,
        geom: Geom::Area,
        items,
    })
}

/// The blocks of these kinds.
pub fn blocks(alloc: Global, cells: Cells, kinds: Kinds) -> Result<BlockMap, AllocError> {
    let mut blocks = BlockMap::new(alloc);
    for (place, kind) in kinds.iter().enumerate() {
        let name = Name {
            rcnm: FEATURE,
            rcid: (place / 3) as u32,
        };
        let key = cells[place % 3];
        if *kind > 0 {
            blocks.insert(PanelKey { key, name }, block(alloc, *kind)?)?;
        }
    }
    Ok(blocks)
}

/// What is asked of the panel of a number.
#[derive(Clone, Copy)]
pub enum Line {
    /// A refresh is to show blocks of these kinds.
    Refresh(u32, Kinds),
    /// So many calls are to be made.
    Paint(u32, u32),
    Panel(u32),
    Close(u32),
}

/// What is answered.
#[derive(Clone, Copy, Debug, PartialEq, Eq)]
pub enum Told {
    Refresh(u64),
    Paint(u64, u64),
    Panel(u64, u64),
    Closed,
    No(PanelRefusal),
}

fn refresh(
    alloc: Global,
    scenes: &mut PanelScenes,
    k: u32,
    target: BlockMap,
) -> Result<Told, Fail> {
    match scenes.can_refresh(k) {
        Ok(()) => Ok(Told::Refresh(scenes.refresh(alloc, k, target)?)),
        Err(refusal) => Ok(Told::No(refusal)),
    }
}

fn told_of_paint(painted: Result<Progress, PaintingFault>) -> Result<Told, Fail> {
    match painted {
        Ok(progress) => Ok(Told::Paint(progress.done, progress.calls)),
        Err(PaintingFault::Refused(refusal)) => Ok(Told::No(refusal)),
        Err(PaintingFault::NoMemory) => Err("no memory".into()),
    }
}

fn told_of_summary(summary: Result<Summary, PanelRefusal>) -> Told {
    match summary {
        Ok(summary) => Told::Panel(summary.blocks, summary.items),
        Err(refusal) => Told::No(refusal),
    }
}

/// Asks panels that have these scenes.
pub fn turn(
    alloc: Global,
    scenes: &mut PanelScenes,
    panels: &mut Vec<Box<dyn Panel>>,
    cells: Cells,
    line: Line,
) -> Result<Told, Fail> {
    if scenes.len() != panels.len() {
        return Err("a panel without a scene, or a scene without a panel".into());
    }
    match line {
        Line::Refresh(k, kinds) => refresh(alloc, scenes, k, blocks(alloc, cells, kinds)?),
        Line::Paint(k, n) => told_of_paint(scenes.paint(alloc, k, n, panels)),
        Line::Panel(k) => Ok(told_of_summary(scenes.summary(k, panels))),
        Line::Close(k) => match scenes.close(k, panels) {
            Ok(()) => Ok(Told::Closed),
            Err(refusal) => Ok(Told::No(refusal)),
        },
    }
}
