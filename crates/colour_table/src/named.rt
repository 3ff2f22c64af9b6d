//! Values under names.
//!
//! A picture asks for a colour or a symbol at each of its elements, so a name is found in few steps however many there
//! are.

ghost use Rattle.std.specs.Prelude.{◌≡◌, List, ℕ, if◌then◌else◌, IfOk, OnOk, OnErr};
ghost use Rattle.std.specs.Option.{option_copied};
ghost use Rattle.std.specs.FinMap as map;
ghost use Rattle.colour_table.specs.Named.{name_cmp, with_new};

use chart_model::{Octets, Sequence};
use std::alloc::{AllocError, Global};
use std::collections::HashMap;
use std::marker::Model;

/// Values under names, which are bytes. Contracts see a finite map.
#[derive(Debug, Drop)]
pub struct NamedMap<V> {
    table: HashMap<Vec<u8>, V>,
}

impl<V> Model for NamedMap<V> {
    ghost use Rattle.std.specs.FinMap as map;
    ghost use Rattle.std.specs.Prelude.{List, ℕ};
    ghost use Rattle.std.specs.Coded.{coded_list, coded_ℕ};
    ghost use Rattle.colour_table.specs.Named.{name_cmp, entries_of};

    ghost Value = { map.FinMap name_cmp V };

    ghost coded = { map.code (coded_list coded_ℕ) V.code };

    ghost view = { λ named. map.from_entries (entries_of named.table.entries) };
}

impl<V: Drop> NamedMap<V> {
    /// No value under any name. It takes no memory.
    fn new(alloc: Global) -> NamedMap<V>
        ensures { result ≡ map.empty }
    {
        NamedMap {
            table: HashMap::new(alloc),
        }
    }

    /// The value under a name, or none. It takes no memory.
    pub fn get(&self, name: &[u8]) -> Option<&V>
        ensures { option_copied result ≡ map.get self.now name.now }
    {
        self.table.get(name)
    }

    /// Whether there is a value under a name. It takes no memory.
    fn contains(&self, name: &[u8]) -> bool
        ensures { result ≡ map.contains_key self.now name.now }
    {
        self.table.contains_key(name)
    }

    /// Puts a value under a name, in place of what was there.
    fn insert(&mut self, name: Vec<u8>, value: V) -> Result<(), AllocError>
        ensures { OnOk result (self.new ≡ map.insert self.old name.items value) }
    {
        match self.table.insert(name, value) {
            Ok(_) => Ok(()),
            Err(_) => Err(AllocError),
        }
    }

    /// Puts a value under a name, where there is none.
    fn insert_new(&mut self, alloc: Global, name: Octets, value: V) -> Result<(), AllocError>
        ensures { OnOk result (self.new ≡ with_new self.old (name, value)) }
    {
        if self.contains(name.as_slice()) {
            return Ok(());
        }
        self.insert(name.into_vec(alloc)?, value)
    }

    /// The first value under each name.
    pub fn of(alloc: Global, entries: Sequence<(Octets, V)>) -> Result<NamedMap<V>, AllocError>
        ensures { IfOk result (λ named. named ≡ map.from_entries entries) }
    {
        let mut named = NamedMap::new(alloc);
        for (name, value) in entries.into_vec() {
            named.insert_new(alloc, name, value)?;
        }
        Ok(named)
    }
}
