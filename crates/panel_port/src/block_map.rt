//! What a panel is to show: blocks by their keys, in one row.
//!
//! They are made in the keys' order and read from the first to the last, so a row is made and read faster than a tree,
//! and the place of an entry is enough to find it again. Contracts see a finite map, as they do of what is shown.

ghost use Rattle.std.specs.Prelude.{◌≡◌, T, IfOk, IfErr, IsTrue, OnErr, OnOk, length};
ghost use Rattle.std.specs.Option.{option_copied};
ghost use Rattle.std.specs.List.{HoldsAt};
ghost use Rattle.std.specs.List.Sorted.{IsPartitionPoint, IsSearchInRange};
ghost use Rattle.std.specs.declared.cmp.Ordering.TheVariants.{Less, Equal, Greater};
ghost use Rattle.std.specs.FinMap as map;
ghost use Rattle.panel_port.specs.PanelKey.{panel_key_cmp};

use chart_model::{Block, PanelKey};
use std::alloc::{AllocError, Global};
use std::marker::Model;

/// Blocks by key, in the keys' order. Contracts see a finite map.
#[derive(Debug, Drop)]
pub struct BlockMap {
    entries: Vec<(PanelKey, Block)>,
}

impl Model for BlockMap {
    ghost use Rattle.std.specs.Prelude.{T};
    ghost use Rattle.std.specs.FinMap as map;
    ghost use Rattle.panel_port.specs.Panel.{Scene, scene_code};
    ghost use Rattle.panel_port.specs.PanelKey.{panel_key_cmp};

    ghost Value = { Scene };

    ghost coded = { scene_code };

    ghost view = { λ blocks. map.from_sorted blocks.entries.items };

    ghost invariant = { λ blocks. T (map.is_sorted panel_key_cmp blocks.entries.items) };
}

/// Whether a key is behind those of all blocks.
fn is_behind(entries: &[(PanelKey, Block)], key: PanelKey) -> bool
    requires { T (map.is_sorted panel_key_cmp entries.now) }
    ensures { IsTrue result → IsPartitionPoint (λ entry. panel_key_cmp entry.0 key ≡ Less)
        (λ entry. panel_key_cmp entry.0 key ≡ Greater) entries.now (length entries.now) }
{
    match entries.last() {
        Some(last) => last.0.cmp(&key).is_lt(),
        None => false,
    }
}

/// Where the block under a key stands, or where it would have to stand.
fn place_of(entries: &[(PanelKey, Block)], key: PanelKey) -> Result<usize, usize>
    requires { T (map.is_sorted panel_key_cmp entries.now) }
    ensures bound { IsSearchInRange result (length entries.now) }
    ensures found { IfOk result (HoldsAt (λ entry. panel_key_cmp entry.0 key ≡ Equal) entries.now) }
    ensures parted { IfErr result
        (IsPartitionPoint (λ entry. panel_key_cmp entry.0 key ≡ Less)
        (λ entry. panel_key_cmp entry.0 key ≡ Greater) entries.now) }
{
    if is_behind(entries, key) {
        return Err(entries.len());
    }
    entries.binary_search_by_key(&key, |entry| entry.0)
}

impl BlockMap {
    /// A map without a block. It takes no memory.
    pub fn new(alloc: Global) -> BlockMap
        ensures { result ≡ map.empty }
    {
        BlockMap {
            entries: Vec::new(alloc),
        }
    }

    /// The number of blocks. It takes no memory.
    pub fn len(&self) -> usize
        ensures { result ≡ map.len self.now }
    {
        self.entries.len()
    }

    /// The keys and their blocks in the keys' order. It takes no memory.
    pub fn as_slice(&self) -> &[(PanelKey, Block)]
        ensures { result.now ≡ map.entries self.now }
    {
        self.entries.as_slice()
    }

    /// The block under a key. It takes no memory.
    pub fn get(&self, key: PanelKey) -> Option<&Block>
        ensures { option_copied result ≡ map.get self.now key }
    {
        match place_of(self.entries.as_slice(), key) {
            Ok(place) => Some(&self.entries[place].1),
            Err(_) => None,
        }
    }

    /// Puts a block under a key, in place of the one that was there. Where there is no memory nothing changes.
    ///
    /// Where the key is behind all others, that is one comparison. Else its place is searched for, and where it is new,
    /// all entries behind that place are moved: blocks in no order cost the square of their number.
    pub fn insert(&mut self, key: PanelKey, block: Block) -> Result<(), AllocError>
        ensures ok { OnOk result (self.new ≡ map.insert self.old key block) }
        ensures err { OnErr result (self.new ≡ self.old) }
    {
        let entry = (key, block);
        match place_of(self.entries.as_slice(), entry.0) {
            Ok(place) => self.entries[place] = entry,
            Err(place) => self.entries.insert(place, entry)?,
        }
        Ok(())
    }
}
