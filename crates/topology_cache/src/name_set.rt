//! Names in order, each once.
//!
//! An update brings names in any order, and names that are there already, so each is searched for before it is put in.
//! Contracts see a map, so that two sets are equal where their names are, however they came in.

ghost use Rattle.std.specs.Prelude.{◌≡◌, ◌==◌, IfOk, IfErr, OnOk, OnErr, length};
ghost use Rattle.std.specs.List.{HoldsAt};
ghost use Rattle.std.specs.List.Sorted.{IsPartitionPoint, IsSearchInRange};
ghost use Rattle.std.specs.declared.cmp.Ordering.TheVariants.{Less, Equal, Greater};
ghost use Rattle.std.specs.FinMap as finite;
ghost use Rattle.chart_model.specs.Names.{name_cmp};
ghost use Rattle.topology_cache.specs.Sets.{AreRising};

use crate::name_row::NameRow;
use chart_model::Name;
use std::alloc::{AllocError, Global};
use std::marker::Model;

/// Names in order, each once. Contracts see a finite map from each of them to nothing.
#[derive(Debug, Drop)]
pub(crate) struct NameSet {
    row: NameRow,
}

impl Model for NameSet {
    ghost use Rattle.topology_cache.specs.Users.{Names, names_code};
    ghost use Rattle.topology_cache.specs.Rows.{names_of};
    ghost use Rattle.topology_cache.specs.Sets.{AreRising, set_of};

    ghost Value = { Names };

    ghost coded = { names_code };

    ghost view = { λ set. set_of (names_of set.row) };

    ghost invariant = { λ set. AreRising (names_of set.row) };
}

/// Where a name stands, or where it would have to stand.
fn place_of(names: &[Name], name: Name) -> Result<usize, usize>
    requires { AreRising names.now }
    ensures bound { IsSearchInRange result (length names.now) }
    ensures found { IfOk result (HoldsAt (λ other. name_cmp other name ≡ Equal) names.now) }
    ensures parted { IfErr result
        (IsPartitionPoint (λ other. name_cmp other name ≡ Less)
        (λ other. name_cmp other name ≡ Greater) names.now) }
{
    names.binary_search(&name)
}

impl NameSet {
    /// One name. It takes no memory.
    pub(crate) fn of(name: Name) -> NameSet
        ensures { result ≡ finite.insert finite.empty name tt }
    {
        NameSet {
            row: NameRow::One(name),
        }
    }

    /// Whether there is no name. It takes no memory.
    pub(crate) fn is_empty(&self) -> bool
        ensures { result ≡ (finite.len self.now == 0) }
    {
        self.row.as_slice().is_empty()
    }

    /// The names in order. It takes no memory.
    pub(crate) fn as_slice(&self) -> &[Name]
        ensures { result.now ≡ finite.keys self.now }
    {
        self.row.as_slice()
    }

    /// Puts a name in, unless it is there. Where there is no memory nothing changes.
    pub(crate) fn insert(&mut self, alloc: Global, name: Name) -> Result<(), AllocError>
        ensures ok { OnOk result (self.new ≡ finite.insert self.old name tt) }
        ensures err { OnErr result (self.new ≡ self.old) }
    {
        match place_of(self.row.as_slice(), name) {
            Ok(_) => Ok(()),
            Err(place) => self.row.insert(alloc, place, name),
        }
    }

    /// Takes a name out, where it is there. It takes no memory.
    pub(crate) fn remove(&mut self, name: Name)
        ensures { self.new ≡ finite.remove self.old name }
    {
        if let Ok(place) = place_of(self.row.as_slice(), name) {
            self.row.remove(place);
        }
    }
}
