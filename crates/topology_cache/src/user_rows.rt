//! The users of records, record by record.
//!
//! Uses mostly come in the order of their records, so that a user goes to the last row or begins a new one. The tree,
//! in which single records are changed later, is made of the rows at the end.

ghost use Rattle.std.specs.Prelude.{◌≡◌, T, IfOk, IfErr, OnOk, length};
ghost use Rattle.std.specs.List.{HoldsAt};
ghost use Rattle.std.specs.List.Sorted.{IsPartitionPoint, IsSearchInRange};
ghost use Rattle.std.specs.declared.cmp.Ordering.TheVariants.{Less, Equal, Greater};
ghost use Rattle.std.specs.FinMap as finite;
ghost use Rattle.chart_model.specs.declared.name.Name.{Name};
ghost use Rattle.chart_model.specs.Names.{name_cmp};
ghost use Rattle.topology_cache.specs.Users.{HasNoEmpty, set_at};
ghost use Rattle.topology_cache.specs.Sets.{is_use, is_user};

use crate::name_set::NameSet;
use crate::usage::Use;
use chart_model::Name;
use std::alloc::{AllocError, Global};
use std::cmp::Ordering;
use std::collections::BTreeMap;
use std::marker::Model;

/// The users of records in the making, in one block in the order of the records. Contracts see the same map as of
/// [`crate::Users`].
#[derive(Debug, Drop)]
pub(crate) struct UserRows {
    /// None of the sets is empty.
    rows: Vec<(Name, NameSet)>,
}

impl Model for UserRows {
    ghost use Rattle.std.specs.FinMap as finite;
    ghost use Rattle.topology_cache.specs.Users.{UsersValue, users_code};
    ghost use Rattle.topology_cache.specs.Sets.{AreUserRows};

    ghost Value = { UsersValue };

    ghost coded = { users_code };

    ghost view = { λ users. finite.from_sorted users.rows.items };

    ghost invariant = { λ users. AreUserRows users.rows.items };
}

/// Where a record stands, or where it would have to stand. Records mostly come in order, which spares the search.
fn place_of(rows: &[(Name, NameSet)], edge: Name) -> Result<usize, usize>
    requires { T (finite.is_sorted name_cmp rows.now) }
    ensures bound { IsSearchInRange result (length rows.now) }
    ensures found { IfOk result (HoldsAt (λ row. name_cmp row.0 edge ≡ Equal) rows.now) }
    ensures parted { IfErr result
        (IsPartitionPoint (λ row. name_cmp row.0 edge ≡ Less)
        (λ row. name_cmp row.0 edge ≡ Greater) rows.now) }
{
    let Some(last) = rows.last() else {
        return Err(0);
    };
    match last.0.cmp(&edge) {
        Ordering::Less => Err(rows.len()),
        Ordering::Equal => Ok(rows.len() - 1),
        Ordering::Greater => rows.binary_search_by_key(&edge, |row| row.0),
    }
}

impl UserRows {
    /// No users. It takes no memory.
    fn new(alloc: Global) -> UserRows
        ensures { result ≡ finite.empty }
    {
        UserRows {
            rows: Vec::new(alloc),
        }
    }

    /// Puts a user to those of a record, unless it is one of them.
    fn add(&mut self, alloc: Global, one: Use) -> Result<(), AllocError>
        ensures { OnOk result (self.new ≡ finite.insert self.old one.target
            (finite.insert (set_at self.old one.target) one.user tt)) }
    {
        match place_of(self.rows.as_slice(), one.target) {
            Ok(place) => {
                let row = &mut self.rows[place];
                row.1.insert(alloc, one.user)?;
            }
            Err(place) => self
                .rows
                .insert(place, (one.target, NameSet::of(one.user)))?,
        }
        Ok(())
    }

    /// The same users as a tree.
    pub(crate) fn into_tree(self, alloc: Global) -> Result<BTreeMap<Name, NameSet>, AllocError>
        ensures same { IfOk result (λ sets. finite.from_entries {R = name_cmp} sets.entries ≡ self) }
        ensures filled { HasNoEmpty self }
    {
        self.rows.into_iter().collect(alloc)
    }
}

/// The users of each record that is used.
pub(crate) fn rows_of(alloc: Global, uses: &[Use]) -> Result<UserRows, AllocError>
    ensures { IfOk result (λ users. (edge name : Name) → is_user users edge name ≡ is_use uses.now edge name) }
{
    let mut users = UserRows::new(alloc);
    for one in uses {
        users.add(alloc, *one)?;
    }
    Ok(users)
}
