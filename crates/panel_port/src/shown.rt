//! The blocks of a panel in memory, and whether they are told.
//!
//! The panel that fails at a list of calls differs from the other one in that alone, so both stand on this. Blocks that
//! aren't told any more are kept, since a summary counts them still.

ghost use Rattle.std.specs.Prelude.{◌≡◌, None, Some, OnErr, OnOk};
ghost use Rattle.std.specs.Option.{option_copied};
ghost use Rattle.std.specs.FinMap as map;
ghost use Rattle.panel_port.specs.Panel.{summary_of, with_block, without_block};

use crate::shown_blocks::ShownBlocks;
use crate::summary::Summary;
use chart_model::{Block, PanelKey};
use std::alloc::{AllocError, Global};

/// The blocks of a panel in memory, and whether they are told.
#[derive(Debug, Drop)]
pub(crate) struct Shown {
    blocks: ShownBlocks,
    /// No call has failed since the blocks were taken out.
    is_told: bool,
}

/// The number of items of all blocks. At 2^64 - 1 the number stays.
fn item_count(blocks: &ShownBlocks) -> u64
    ensures { result ≡ (summary_of blocks.now).items }
{
    let mut items: u64 = 0;
    for (_, block) in blocks.iter() {
        items = items.saturating_add(block.items.as_slice().len() as u64);
    }
    items
}

impl Shown {
    ghost use Rattle.panel_port.specs.Shown.{scene_in};

    /// No block, and told. It takes no memory.
    pub fn new(alloc: Global) -> Shown
        ensures { scene_in result ≡ Some map.empty }
    {
        Shown {
            blocks: ShownBlocks::new(alloc),
            is_told: true,
        }
    }

    /// The blocks, where they are told.
    pub fn scene(&self) -> Option<&ShownBlocks>
        ensures { option_copied result ≡ scene_in self.now }
    {
        if self.is_told {
            return Some(&self.blocks);
        }
        None
    }

    /// Takes out all blocks: it is told from here on that there is none.
    pub fn clear(&mut self)
        ensures { scene_in self.new ≡ Some map.empty }
    {
        self.blocks.clear();
        self.is_told = true;
    }

    /// Puts a block under a key, in place of the one that was there. Where there is no memory the blocks stay, and are
    /// told no more.
    pub fn put(&mut self, key: PanelKey, block: Block) -> Result<(), AllocError>
        ensures ok { OnOk result (scene_in self.new ≡ with_block key block (scene_in self.old)) }
        ensures err { OnErr result (scene_in self.new ≡ None) }
        ensures kept { OnErr result (self.new.blocks ≡ self.old.blocks) }
    {
        let put = self.blocks.insert(key, block);
        if put.is_err() {
            self.forget();
        }
        put
    }

    /// Takes out the block under a key, where there is one.
    pub fn take(&mut self, key: &PanelKey)
        ensures { scene_in self.new ≡ without_block key.now (scene_in self.old) }
    {
        let _ = self.blocks.remove(*key);
    }

    /// The blocks stay, and are told no more.
    pub fn forget(&mut self)
        ensures told { scene_in self.new ≡ None }
        ensures kept { self.new.blocks ≡ self.old.blocks }
    {
        self.is_told = false;
    }

    /// How many blocks and items there are, told or not.
    pub fn summary(&self) -> Summary
        ensures { result ≡ summary_of self.now.blocks }
    {
        Summary {
            blocks: self.blocks.len() as u64,
            items: item_count(&self.blocks),
        }
    }
}
