//! Values by the keys of cells.
//!
//! Their order is the one in which cells are told. What is there can be exchanged or taken out
//! without memory, so that nothing fails once a command is in the journal.

ghost use Rattle.std.specs.Prelude.{◌≡◌, List, ℕ, if◌then◌else◌, OnOk, OnErr};
ghost use Rattle.std.specs.Option.{option_copied, unwrap_or};
ghost use Rattle.std.specs.FinMap as map;
ghost use Rattle.std.specs.Map.Iter.{ShowsInOrder, ShowsValuesInOrder, deref_pair};

use crate::key::Key;
use std::alloc::{AllocError, Global};
use std::collections::BTreeMap;
use std::collections::btree_map::Iter;
use std::marker::Model;
use std::mem;

/// Values by key, in the keys' order. Contracts see a finite map.
#[derive(Debug, Drop)]
pub struct KeyMap<V> {
    tree: BTreeMap<Key, V>,
}

impl<V> Model for KeyMap<V> {
    ghost use Rattle.std.specs.FinMap as map;
    ghost use Rattle.std.specs.Prelude.{List, ℕ};
    ghost use Rattle.std.specs.Coded.{coded_list, coded_ℕ};
    ghost use Rattle.chart_model.specs.Keys.{key_cmp};

    ghost Value = { map.FinMap key_cmp V };

    ghost coded = { map.code (coded_list coded_ℕ) V.code };

    ghost view = { λ keys. map.from_entries keys.tree.entries };
}

impl<V: Drop> KeyMap<V> {
    /// A map without an entry. It takes no memory.
    pub fn new(alloc: Global) -> KeyMap<V>
        ensures { result ≡ map.empty }
    {
        KeyMap {
            tree: BTreeMap::new(alloc),
        }
    }

    /// The number of entries. It takes no memory.
    pub fn len(&self) -> usize
        ensures { result ≡ map.len self.now }
    {
        self.tree.len()
    }

    /// The value under a key. It takes no memory.
    pub fn get(&self, key: Key) -> Option<&V>
        ensures { option_copied result ≡ map.get self.now key }
    {
        self.tree.get(&key)
    }

    /// Whether there is a value under a key. It takes no memory.
    pub fn contains(&self, key: Key) -> bool
        ensures { result ≡ map.contains_key self.now key }
    {
        self.tree.contains_key(&key)
    }

    /// Puts a value under a key, in place of what was there. Where there is no memory nothing changes.
    pub fn insert(&mut self, key: Key, value: V) -> Result<(), AllocError>
        ensures ok { OnOk result (self.new ≡ map.insert self.old key value) }
        ensures err { OnErr result (self.new ≡ self.old) }
    {
        match self.tree.insert(key, value) {
            Ok(_) => Ok(()),
            Err(_) => Err(AllocError),
        }
    }

    /// Takes out the value under a key, and answers it. It takes no memory.
    pub fn remove(&mut self, key: Key) -> Option<V>
        ensures value { result ≡ map.get self.old key }
        ensures map { self.new ≡ map.remove self.old key }
    {
        self.tree.remove(&key)
    }

    /// Exchanges the value under a key for another. Where there is none nothing changes. It takes no
    /// memory.
    ///
    /// So a value is edited without a copy: taken out against an empty one, edited, and put back.
    pub fn swap(&mut self, key: Key, value: &mut V)
        ensures value { value.new ≡ unwrap_or (map.get self.old key) value.old }
        ensures map { self.new
            ≡ (if map.contains_key self.old key then map.insert self.old key value.old else self.old) }
    {
        if let Some(held) = self.tree.get_mut(&key) {
            mem::swap(held, value);
        }
    }

    /// The keys and their values in the keys' order. It takes no memory.
    pub fn iter(&self) -> Iter<'_, Key, V>
        ensures entries { result ≡ map.entries self.now }
        ensures runs { ShowsInOrder (deref_pair {K = List ℕ} {X = V}) }
        ensures values_run { ShowsValuesInOrder (deref_pair {K = List ℕ} {X = V}) }
    {
        self.tree.iter()
    }
}

impl<V: Clone> Clone for KeyMap<V> {
    /// Where the clones of the values are equal to them, so is the clone of the map.
    ghost is_clone = { λ m copy. ((x y : V) → V.is_clone x y → y ≡ x) → copy ≡ m };

    fn clone(&self) -> Result<KeyMap<V>, AllocError> {
        Ok(KeyMap {
            tree: self.tree.clone()?,
        })
    }
}
