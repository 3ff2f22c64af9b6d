//! A walk over the entries of a map that stops at given keys.
//!
//! Two maps are compared by two walks that go on together, so that each entry is looked at once.

ghost use Rattle.std.specs.Prelude.{◌≡◌, T};
ghost use Rattle.std.specs.Option.{option_copied};
ghost use Rattle.std.specs.FinMap as finite;
ghost use Rattle.std.specs.FinMap.Entries.{below_all};
ghost use Rattle.panel_port.specs.PanelKey.{panel_key_cmp};
ghost use Rattle.scene_sync.specs.Walk.{IsLeast, first_key_of, left_of, with_front};

use chart_model::{Block, PanelKey};
use panel_port::BlockMap;
use std::marker::Model;

/// The entries of a map in the keys' order, and the place of the first that is left.
#[derive(Drop)]
pub(crate) struct Walk<'a> {
    entries: &'a [(PanelKey, Block)],
    place: usize,
}

impl<'a> Model for Walk<'a> {
    ghost use Rattle.std.specs.Prelude.{T, drop};
    ghost use Rattle.std.specs.FinMap.{is_sorted};
    ghost use Rattle.panel_port.specs.PanelKey.{panel_key_cmp};
    ghost use Rattle.scene_sync.specs.Walk.{Position};

    ghost Value = { Position };

    ghost view = { λ walk. record { entries = walk.entries.now; place = walk.place } };

    ghost invariant = { λ walk. T (is_sorted panel_key_cmp (drop walk.place walk.entries.now)) };
}

impl<'a> Walk<'a> {
    /// A walk over all entries.
    pub fn over(blocks: &'a BlockMap) -> Walk<'a>
        ensures { result ≡ record { entries = finite.entries blocks.now; place = 0 } }
    {
        Walk {
            entries: blocks.as_slice(),
            place: 0,
        }
    }

    /// The place of the first entry that is left.
    pub fn place(&self) -> usize
        ensures { result ≡ self.now.place }
    {
        self.place
    }

    /// The first key that is left.
    pub fn first_key(&self) -> Option<PanelKey>
        ensures { result ≡ first_key_of (left_of self.now) }
    {
        let (key, _) = self.entries.get(self.place)?;
        Some(*key)
    }

    /// Goes past a key that is not above those that are left, and answers its block, where it has one.
    pub fn pass(&mut self, key: &PanelKey) -> Option<&'a Block>
        requires { IsLeast key.now (left_of self.old) }
        ensures entries { self.new.entries ≡ self.old.entries }
        ensures passed { left_of self.old ≡ with_front key.now (option_copied result) (left_of self.new) }
        ensures below { T (below_all panel_key_cmp key.now (left_of self.new)) }
    {
        let (first, block) = self.entries.get(self.place)?;
        if first != key {
            return None;
        }
        self.place += 1;
        Some(block)
    }
}
