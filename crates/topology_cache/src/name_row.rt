//! Names in a row, of which a few stand in place.
//!
//! Each edge that features point to has a row, and most rows hold a name or two: a vector for each would take more
//! memory than what is in it. A third name makes one, which stays when names go again.

ghost use Rattle.std.specs.Prelude.{◌≡◌, ◌<◌, ◌≤◌, [], ◌∷◌, IfOk, OnOk, OnErr, length};
ghost use Rattle.std.specs.List.{insert, remove};
ghost use Rattle.topology_cache.specs.Rows.{names_of};

use crate::pair::Pair;
use chart_model::Name;
use std::alloc::{AllocError, Global};
use std::slice;

/// Names in a row. Up to two stand in place: most edges bound one area or two, so that they take no memory of their
/// own.
#[derive(Debug, Drop)]
pub(crate) enum NameRow {
    Empty,
    One(Name),
    Two(Pair),
    Many(Vec<Name>),
}

/// The name that is left of two without the one in a place.
fn other(one: Name, two: Name, place: usize) -> Name
    requires { place ≤ 1 }
    ensures { result ∷ [] ≡ remove (one ∷ two ∷ []) place }
{
    if place == 0 { two } else { one }
}

/// Names in a row, and one more that is put into a place, in memory of their own.
fn more(alloc: Global, names: &[Name], place: usize, name: Name) -> Result<Vec<Name>, AllocError>
    requires { place ≤ length names.now }
    ensures { IfOk result (λ row. row.items ≡ insert names.now place name) }
{
    let mut row = Vec::with_capacity(alloc, 4)?;
    row.extend_from_slice(names)?;
    row.insert(place, name)?;
    Ok(row)
}

impl NameRow {
    /// The names. It takes no memory.
    pub(crate) fn as_slice(&self) -> &[Name]
        ensures { result.now ≡ names_of self.now }
    {
        match self {
            NameRow::Empty => &[],
            NameRow::One(name) => slice::from_ref(name),
            NameRow::Two(pair) => pair.names.as_slice(),
            NameRow::Many(names) => names.as_slice(),
        }
    }

    /// Puts a name into a place, from which those that stand there and behind it move on. Where there is no memory
    /// nothing changes.
    pub(crate) fn insert(
        &mut self,
        alloc: Global,
        place: usize,
        name: Name,
    ) -> Result<(), AllocError>
        requires { place ≤ length (names_of self.old) }
        ensures ok { OnOk result (names_of self.new ≡ insert (names_of self.old) place name) }
        ensures err { OnErr result (names_of self.new ≡ names_of self.old) }
    {
        match self {
            NameRow::Empty => *self = NameRow::One(name),
            NameRow::One(one) => *self = NameRow::Two(Pair::of(*one, place, name)),
            NameRow::Two(pair) => {
                *self = NameRow::Many(more(alloc, pair.names.as_slice(), place, name)?);
            }
            NameRow::Many(names) => names.insert(place, name)?,
        }
        Ok(())
    }

    /// Takes the name out that stands in a place. It takes no memory.
    pub(crate) fn remove(&mut self, place: usize)
        requires { place < length (names_of self.old) }
        ensures { names_of self.new ≡ remove (names_of self.old) place }
    {
        match self {
            NameRow::Empty => {}
            NameRow::One(_) => *self = NameRow::Empty,
            NameRow::Two(pair) => *self = NameRow::One(other(pair.names[0], pair.names[1], place)),
            NameRow::Many(names) => {
                names.remove(place);
            }
        }
    }
}
