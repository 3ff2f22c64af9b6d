//! The blocks that a panel in memory shows, by their keys.
//!
//! They are put and taken out one by one, mostly in the midst of the others, so they stand in a tree. A scene is what is
//! shown, and not how it came to be, so contracts see a finite map. Want of memory leaves it as it was.

ghost use Rattle.std.specs.Prelude.{◌≡◌, OnOk, OnErr};
ghost use Rattle.std.specs.Option.{option_copied};
ghost use Rattle.std.specs.FinMap as map;
ghost use Rattle.std.specs.Map.Iter.{ShowsInOrder, ShowsValuesInOrder, deref_pair};
ghost use Rattle.chart_model.specs.declared.drawing.Block.{Block};
ghost use Rattle.chart_model.specs.declared.drawing.PanelKey.{PanelKey};

use chart_model::{Block, PanelKey};
use std::alloc::{AllocError, Global};
use std::collections::BTreeMap;
use std::collections::btree_map::Iter;
use std::marker::Model;

/// The blocks that a panel in memory shows, in the keys' order. Contracts see a finite map.
#[derive(Debug, Drop)]
pub struct ShownBlocks {
    tree: BTreeMap<PanelKey, Block>,
}

impl Model for ShownBlocks {
    ghost use Rattle.std.specs.FinMap as map;
    ghost use Rattle.panel_port.specs.Panel.{Scene, scene_code};

    ghost Value = { Scene };

    ghost coded = { scene_code };

    ghost view = { λ blocks. map.from_entries blocks.tree.entries };
}

impl ShownBlocks {
    /// No block. It takes no memory.
    pub fn new(alloc: Global) -> ShownBlocks
        ensures { result ≡ map.empty }
    {
        ShownBlocks {
            tree: BTreeMap::new(alloc),
        }
    }

    /// The number of blocks. It takes no memory.
    pub fn len(&self) -> usize
        ensures { result ≡ map.len self.now }
    {
        self.tree.len()
    }

    /// The block under a key. It takes no memory.
    pub fn get(&self, key: PanelKey) -> Option<&Block>
        ensures { option_copied result ≡ map.get self.now key }
    {
        self.tree.get(&key)
    }

    /// Puts a block under a key, in place of the one that was there. Where there is no memory nothing changes.
    pub fn insert(&mut self, key: PanelKey, block: Block) -> Result<(), AllocError>
        ensures ok { OnOk result (self.new ≡ map.insert self.old key block) }
        ensures err { OnErr result (self.new ≡ self.old) }
    {
        match self.tree.insert(key, block) {
            Ok(_) => Ok(()),
            Err(_) => Err(AllocError),
        }
    }

    /// Takes out the block under a key, and answers it. It takes no memory.
    pub fn remove(&mut self, key: PanelKey) -> Option<Block>
        ensures block { result ≡ map.get self.old key }
        ensures map { self.new ≡ map.remove self.old key }
    {
        self.tree.remove(&key)
    }

    /// Takes out all blocks. It takes no memory.
    pub fn clear(&mut self)
        ensures { self.new ≡ map.empty }
    {
        self.tree.clear();
    }

    /// The keys and their blocks in the keys' order. It takes no memory.
    pub fn iter(&self) -> Iter<'_, PanelKey, Block>
        ensures entries { result ≡ map.entries self.now }
        ensures runs { ShowsInOrder (deref_pair {K = PanelKey} {X = Block}) }
        ensures values_run { ShowsValuesInOrder (deref_pair {K = PanelKey} {X = Block}) }
    {
        self.tree.iter()
    }
}
