//! Panels as boxed objects, and blocks in their row, against values that were worked out by hand.
//!
//! A session may have panels of several kinds, so they are called through one trait object, as it would call them: a
//! call, its answer, and how much is shown after it.

use crate::{BlockMap, CountingPanel, FailingPanel, MemoryPanel, Panel, PanelError, Summary};
use chart_model::codes::FEATURE;
use chart_model::{Block, Geom, Item, ItemList, Key, Name, Octets, PanelKey, Target};
use chart_ports::FailingCalls;
use std::alloc::{AllocError, Global};
use std::process::Abort;
use std::test::Fail;

/// A call: the number of its feature, and how many items its block has.
#[derive(Clone, Copy)]
enum Call {
    Clear,
    Put(u32, usize),
    Take(u32),
}

/// A call, what it answers, and how many blocks and items there are after it.
type Row = (Call, Result<(), PanelError>, u64, u64);

/// A block takes the place of another with its key, and only what is there is taken out.
static IN_MEMORY: [Row; 6] = [
    (Call::Put(1, 2), Ok(()), 1, 2),
    (Call::Put(2, 3), Ok(()), 2, 5),
    (Call::Put(1, 1), Ok(()), 2, 4),
    (Call::Take(3), Ok(()), 2, 4),
    (Call::Take(2), Ok(()), 1, 1),
    (Call::Clear, Ok(()), 0, 0),
];

/// The second, the fourth and the fifth call fail.
static FAILING: [Row; 6] = [
    (Call::Put(1, 2), Ok(()), 1, 2),
    (Call::Put(2, 3), Err(PanelError::Failed), 1, 2),
    (Call::Put(2, 3), Ok(()), 2, 5),
    (Call::Take(1), Err(PanelError::Failed), 2, 5),
    (Call::Clear, Err(PanelError::Failed), 2, 5),
    (Call::Clear, Ok(()), 0, 0),
];

/// A block that is put twice counts twice, and none is known to be taken out.
static COUNTED: [Row; 5] = [
    (Call::Put(1, 2), Ok(()), 1, 2),
    (Call::Put(1, 1), Ok(()), 2, 3),
    (Call::Take(1), Ok(()), 2, 3),
    (Call::Clear, Ok(()), 0, 0),
    (Call::Put(2, 4), Ok(()), 1, 4),
];

/// Blocks that are put one after the other, by the numbers of their features and how many items each has: behind all
/// others, in front of them, in their midst, and in place of the last and of another.
static PUT: [(u32, usize); 6] = [(2, 1), (5, 2), (1, 4), (3, 3), (5, 5), (3, 0)];

/// What stands in the keys' order then.
static STANDING: [(u32, usize); 4] = [(1, 4), (2, 1), (3, 0), (5, 5)];

fn block(alloc: Global, items: usize) -> Result<Block, AllocError> {
    let mut list = ItemList::new(alloc);
    for _ in 0..items {
        let text = Octets::from_vec(Vec::new(alloc));
        list.push(Item {
            target: Target::Whole,
            text,
        })?;
    }
    Ok(Block {
        priority: 1,
        geom: Geom::Area,
        items: list,
    })
}

fn panel_key(cell: Key, rcid: u32) -> PanelKey {
    let name = Name {
        rcnm: FEATURE,
        rcid,
    };
    PanelKey { key: cell, name }
}

fn make_call(
    alloc: Global,
    panel: &mut Box<dyn Panel>,
    cell: Key,
    call: Call,
) -> Result<(), PanelError> {
    match call {
        Call::Clear => panel.clear(),
        Call::Put(rcid, items) => match block(alloc, items) {
            Ok(block) => panel.put(alloc, panel_key(cell, rcid), block),
            Err(_) => Err(PanelError::NoMemory),
        },
        Call::Take(rcid) => panel.take(&panel_key(cell, rcid)),
    }
}

fn try_all(test: &impl Abort, alloc: Global, panel: &mut Box<dyn Panel>, cell: Key, rows: &[Row]) {
    for (number, (made, wanted, blocks, items)) in rows.iter().enumerate() {
        let answer = make_call(alloc, panel, cell, *made);
        let shown = Summary {
            blocks: *blocks,
            items: *items,
        };
        assert!(test; answer == *wanted, "call {number}");
        assert!(test; panel.summary() == shown, "after call {number}");
    }
}

#[test]
fn panels_show_what_was_put(rt: HostRuntime) -> Result<(), Fail> {
    let alloc = rt.alloc();
    let cell = Key::from_bytes(b"AA5TEST1").ok_or("no key")?;
    let failing = FailingCalls::from_vec(vec![in alloc; 5, 2, 4]?);
    let mut panels: Vec<Box<dyn Panel>> = Vec::new(alloc);
    panels.push(Box::new(alloc, MemoryPanel::new(alloc))?)?;
    panels.push(Box::new(alloc, FailingPanel::new(alloc, failing))?)?;
    panels.push(Box::new(alloc, CountingPanel::new())?)?;
    let tables = [IN_MEMORY.as_slice(), FAILING.as_slice(), COUNTED.as_slice()];
    for (panel, rows) in panels.iter_mut().zip(tables) {
        try_all(&rt, alloc, panel, cell, rows);
    }
    Ok(())
}

#[test]
fn blocks_stand_in_the_keys_order(rt: HostRuntime) -> Result<(), Fail> {
    let alloc = rt.alloc();
    let cell = Key::from_bytes(b"AA5TEST1").ok_or("no key")?;
    let mut blocks = BlockMap::new(alloc);
    for (rcid, items) in &PUT {
        blocks.insert(panel_key(cell, *rcid), block(alloc, *items)?)?;
    }
    assert!(rt; blocks.len() == STANDING.len());
    for ((key, block), (rcid, items)) in blocks.as_slice().iter().zip(&STANDING) {
        assert!(rt; *key == panel_key(cell, *rcid), "feature {rcid}");
        assert!(rt; block.items.as_slice().len() == *items, "feature {rcid}");
        assert!(rt; blocks.get(*key) == Some(block), "feature {rcid}");
    }
    assert!(rt; blocks.get(panel_key(cell, 4)).is_none());
    Ok(())
}
