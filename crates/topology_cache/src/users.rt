//! The users of a chart's vector records.
//!
//! An update changes few features of a chart, and only what these point to, before and afterwards, has other users
//! then. Features are counted as steps when they are looked at, so that contracts can say how many it takes.

ghost use Rattle.std.specs.Prelude.{◌≡◌, ◌+◌, ◌≤◌, ◌&&◌, ◌||◌, not, List, [], ◌∷◌, ◌++◌};
ghost use Rattle.std.specs.Prelude.{OnOk, IfOk, length};
ghost use Rattle.std.specs.FinMap as finite;
ghost use Rattle.chart_model.specs.declared.name.Name.{Name};
ghost use Rattle.chart_model.specs.Names.{name_cmp};
ghost use Rattle.topology_cache.specs.Users.{users_at, set_at, AreUsersOf, HasChanged, feature_names};
ghost use Rattle.topology_cache.specs.Users.{same_name, points_to_any};
ghost use Rattle.topology_cache.specs.Sets.{is_user, pointers_at, AreBetween};

use crate::name_set::NameSet;
use crate::usage::{in_order, uses_of};
use crate::user_rows::{UserRows, rows_of};
use chart_model::codes::FEATURE;
use chart_model::{Cell, KeyMap, Name, NameList, Pointer};
use chart_ports::Steps;
use std::alloc::{AllocError, Global};
use std::collections::BTreeMap;
use std::marker::Model;
use std::sync::ledger::Ledger;

/// The features that point to each record of a chart, by the record's name. Only `users_of` makes one, and only
/// `absorb` changes one.
#[derive(Debug, Drop)]
pub struct Users {
    /// None of the sets is empty.
    sets: BTreeMap<Name, NameSet>,
}

impl Model for Users {
    ghost use Rattle.std.specs.FinMap as finite;
    ghost use Rattle.topology_cache.specs.Users.{UsersValue, users_code, HasNoEmpty};

    ghost Value = { UsersValue };

    ghost coded = { users_code };

    ghost view = { λ users. finite.from_entries users.sets.entries };

    ghost invariant = { λ users. HasNoEmpty (finite.from_entries users.sets.entries) };
}

/// Users by the keys of the charts.
pub type UsersMap = KeyMap<Users>;

/// The pointers of the feature with a name, and none where there is no such feature.
fn pointers_at(cell: &Cell, name: Name) -> &[Pointer]
    ensures { result.now ≡ pointers_at cell.now name }
{
    match cell.features.get(name) {
        Some(feature) => feature.pointers.as_slice(),
        None => &[],
    }
}

/// Takes a record out with its users. It takes no memory.
fn take_out(sets: &mut BTreeMap<Name, NameSet>, edge: Name)
    ensures { finite.from_entries {R = name_cmp} sets.new.entries
        ≡ finite.remove (finite.from_entries sets.old.entries) edge }
{
    let _ = sets.remove(&edge);
}

/// Counts a name of a feature as a step, and no other name.
fn count<C: Ledger>(name: Name, steps: &mut Steps<C>)
    ensures { steps.new ≡ steps.old + length (feature_names (name ∷ [])) }
{
    if name.rcnm == FEATURE {
        steps.tick();
    }
}

impl Users {
    /// The users that stand in rows.
    fn from_rows(alloc: Global, rows: UserRows) -> Result<Users, AllocError>
        ensures { IfOk result (λ users. users ≡ rows) }
    {
        Ok(Users {
            sets: rows.into_tree(alloc)?,
        })
    }

    /// The features that point to an edge, or to a node, in the order of their names, each once. It costs one look-up,
    /// and takes no memory.
    pub fn edge_users(&self, edge: Name) -> &[Name]
        ensures { result.now ≡ users_at self.now edge }
    {
        match self.sets.get(&edge) {
            Some(names) => names.as_slice(),
            None => &[],
        }
    }

    /// Puts a user to those of an edge, unless it is one of them.
    fn insert(&mut self, alloc: Global, edge: Name, user: Name) -> Result<(), AllocError>
        ensures { OnOk result (self.new ≡ finite.insert self.old edge (finite.insert (set_at self.old edge) user tt)) }
    {
        if let Some(names) = self.sets.get_mut(&edge) {
            return names.insert(alloc, user);
        }
        match self.sets.insert(edge, NameSet::of(user)) {
            Ok(_) => Ok(()),
            Err(_) => Err(AllocError),
        }
    }

    /// Takes a user from those of an edge, where it is one of them.
    fn remove(&mut self, edge: Name, user: Name)
        ensures { (other : Name) → set_at self.new other
            ≡ set_at (finite.insert self.old edge (finite.remove (set_at self.old edge) user)) other }
    {
        let Some(names) = self.sets.get_mut(&edge) else {
            return;
        };
        names.remove(user);
        if names.is_empty() {
            take_out(&mut self.sets, edge);
        }
    }

    /// Puts a user to those of each record that its pointers name.
    fn insert_all(
        &mut self,
        alloc: Global,
        user: Name,
        pointers: &[Pointer],
    ) -> Result<(), AllocError>
        ensures { OnOk result ((edge name : Name) → is_user self.new edge name
            ≡ ((points_to_any edge pointers.now && same_name user name) || is_user self.old edge name)) }
    {
        for pointer in pointers {
            self.insert(alloc, pointer.target, user)?;
        }
        Ok(())
    }

    /// Takes a user from those of each record that its pointers name.
    fn remove_all(&mut self, user: Name, pointers: &[Pointer])
        ensures { (edge name : Name) → is_user self.new edge name
            ≡ (not (points_to_any edge pointers.now && same_name user name) && is_user self.old edge name) }
    {
        for pointer in pointers {
            self.remove(pointer.target, user);
        }
    }

    /// Brings the users up to date at one name: the feature with it uses what it points to in the new chart.
    fn renew(&mut self, alloc: Global, old: &Cell, new: &Cell, name: Name) -> Result<(), AllocError>
        ensures { OnOk result ((done : List Name) → AreBetween old.now new.now done self.old
            → AreBetween old.now new.now (done ++ name ∷ []) self.new) }
    {
        self.remove_all(name, pointers_at(old, name));
        self.insert_all(alloc, name, pointers_at(new, name))
    }

    /// Brings the users of a chart up to date: they are then those of the new chart. The names have to hold each
    /// feature whose record differs; they may hold others too, and a name twice. No feature has the name of a vector
    /// record, so those change nothing.
    ///
    /// It counts each name of a feature as a step before it looks at the feature, so where there is no memory it may
    /// have counted fewer. Nothing is said of the users then. It costs a look-up for each pointer that these features
    /// have in either chart, however large the chart is.
    pub fn absorb<C: Ledger>(
        &mut self,
        alloc: Global,
        old: &Cell,
        new: &Cell,
        changed: &NameList,
        steps: &mut Steps<C>,
    ) -> Result<(), AllocError>
        requires users { AreUsersOf old.now self.old }
        requires changed { HasChanged old.now new.now changed.now }
        ensures users { OnOk result (AreUsersOf new.now self.new) }
        ensures counted { OnOk result (steps.new ≡ steps.old + length (feature_names changed.now)) }
        ensures at_most { steps.new ≤ steps.old + length (feature_names changed.now) }
    {
        let names = changed.as_slice();
        for name in names {
            count(*name, steps);
            self.renew(alloc, old, new, *name)?;
        }
        Ok(())
    }
}

/// The users of a chart's vector records. It looks at each feature once, and counts it as a step before it does so;
/// where there is no memory it may have counted fewer. It costs a sort of the features' pointers by what they point to,
/// which is one pass over them where features in the order of their names point to records in the order of theirs.
pub fn users_of<C: Ledger>(
    alloc: Global,
    cell: &Cell,
    steps: &mut Steps<C>,
) -> Result<Users, AllocError>
    ensures users { IfOk result (λ users. AreUsersOf cell.now users) }
    ensures counted { OnOk result (steps.new ≡ steps.old + finite.len cell.now.features) }
    ensures at_most { steps.new ≤ steps.old + finite.len cell.now.features }
{
    let uses = in_order(uses_of(alloc, cell, steps)?)?;
    let rows = rows_of(alloc, uses.as_slice())?;
    Users::from_rows(alloc, rows)
}
