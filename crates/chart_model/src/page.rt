//! Pages: the few records whose names lie side by side, in one block.
//!
//! An update copies the pages that it touches, so a page is small; the numbers of records mostly have no gaps, so the
//! place of a record is guessed from its number before it is searched for.

ghost use Rattle.std.specs.Prelude.{◌≡◌, ◌<◌, T, IfOk, IfErr, OnOk, OnErr, IfSome, IsTrue, length};
ghost use Rattle.std.specs.Option.{option_copied};
ghost use Rattle.std.specs.List.{HoldsAt};
ghost use Rattle.std.specs.List.Sorted.{IsPartitionPoint, IsSearchInRange};
ghost use Rattle.std.specs.declared.cmp.Ordering.TheVariants.{Less, Equal, Greater};
ghost use Rattle.std.specs.FinMap as map;
ghost use Rattle.chart_model.specs.Names.{name_cmp, edited_in};

use crate::name::Name;
use crate::name_map::Edit;
use crate::page_map::NUMBERS_PER_PAGE;
use std::alloc::{AllocError, Global};
use std::marker::Model;

/// Records by name, in the names' order. Contracts see a finite map.
#[derive(Debug, Drop)]
pub struct Page<V> {
    entries: Vec<(Name, V)>,
}

impl<V> Model for Page<V> {
    ghost use Rattle.std.specs.Prelude.{T};
    ghost use Rattle.std.specs.FinMap as map;
    ghost use Rattle.chart_model.specs.Names.{name_cmp, name_code};

    ghost Value = { map.FinMap name_cmp V };

    ghost coded = { map.code name_code V.code };

    ghost view = { λ page. map.from_sorted page.entries.items };

    ghost invariant = { λ page. T (map.is_sorted name_cmp page.entries.items) };
}

/// Where the record with a name stands on a page that has one for each number before it, if it does stand there.
/// Numbers mostly have no gaps, so this mostly spares the search.
fn guess<V>(entries: &[(Name, V)], name: Name) -> Option<usize>
    ensures bound { IfSome result (λ place. place < length entries.now) }
    ensures found { IfSome result (HoldsAt (λ entry. name_cmp entry.0 name ≡ Equal) entries.now) }
{
    let place = (name.rcid % NUMBERS_PER_PAGE) as usize;
    let entry = entries.get(place)?;
    if entry.0 == name { Some(place) } else { None }
}

/// Whether a name is behind those of all records. They are mostly put in rising order, so this mostly spares the
/// search too.
fn is_behind<V>(entries: &[(Name, V)], name: Name) -> bool
    requires { T (map.is_sorted name_cmp entries.now) }
    ensures { IsTrue result → IsPartitionPoint (λ entry. name_cmp entry.0 name ≡ Less)
        (λ entry. name_cmp entry.0 name ≡ Greater) entries.now (length entries.now) }
{
    match entries.last() {
        Some(last) => last.0.cmp(&name).is_lt(),
        None => false,
    }
}

/// Where the record with a name stands, or where it would have to stand.
fn place_of<V>(entries: &[(Name, V)], name: Name) -> Result<usize, usize>
    requires { T (map.is_sorted name_cmp entries.now) }
    ensures bound { IsSearchInRange result (length entries.now) }
    ensures found { IfOk result (HoldsAt (λ entry. name_cmp entry.0 name ≡ Equal) entries.now) }
    ensures parted { IfErr result
        (IsPartitionPoint (λ entry. name_cmp entry.0 name ≡ Less)
        (λ entry. name_cmp entry.0 name ≡ Greater) entries.now) }
{
    if let Some(place) = guess(entries, name) {
        return Ok(place);
    }
    if is_behind(entries, name) {
        return Err(entries.len());
    }
    entries.binary_search_by_key(&name, |entry| entry.0)
}

impl<V: Drop> Page<V> {
    /// A page with one record.
    pub fn of(alloc: Global, name: Name, value: V) -> Result<Page<V>, AllocError>
        ensures { IfOk result (λ page. page ≡ map.insert map.empty name value) }
    {
        let mut entries = Vec::with_capacity(alloc, 1)?;
        entries.push((name, value))?;
        Ok(Page { entries })
    }

    /// The number of records. It takes no memory.
    pub fn len(&self) -> usize
        ensures { result ≡ map.len self.now }
    {
        self.entries.len()
    }

    /// The records in the names' order. It takes no memory.
    pub fn as_slice(&self) -> &[(Name, V)]
        ensures { result.now ≡ map.entries self.now }
    {
        self.entries.as_slice()
    }

    /// The record under a name. It takes no memory.
    pub fn get(&self, name: Name) -> Option<&V>
        ensures { option_copied result ≡ map.get self.now name }
    {
        match place_of(self.entries.as_slice(), name) {
            Ok(place) => Some(&self.entries[place].1),
            Err(_) => None,
        }
    }

    /// Puts a record under a name, in place of what was there. Where there is no memory nothing changes.
    pub fn insert(&mut self, name: Name, value: V) -> Result<(), AllocError>
        ensures ok { OnOk result (self.new ≡ map.insert self.old name value) }
        ensures err { OnErr result (self.new ≡ self.old) }
    {
        match place_of(self.entries.as_slice(), name) {
            Ok(place) => self.entries[place] = (name, value),
            Err(place) => self.entries.insert(place, (name, value))?,
        }
        Ok(())
    }

    /// Edits the record under a name, where there is one. Where there is no memory nothing changes.
    pub fn edit<E: Edit<V> + Drop>(&mut self, name: Name, by: E) -> Result<(), AllocError>
        requires { IfSome (map.get self.old name) (E.fits by) }
        ensures ok { OnOk result (self.new ≡ edited_in (E.edited by) self.old name) }
        ensures err { OnErr result (self.new ≡ self.old) }
    {
        if let Ok(place) = place_of(self.entries.as_slice(), name) {
            let entry = &mut self.entries[place];
            by.edit(&mut entry.1)?;
        }
        Ok(())
    }

    /// Takes out the record under a name. It takes no memory.
    pub fn remove(&mut self, name: Name)
        ensures { self.new ≡ map.remove self.old name }
    {
        if let Ok(place) = place_of(self.entries.as_slice(), name) {
            self.entries.remove(place);
        }
    }
}

impl<V: Clone> Clone for Page<V> {
    ghost is_clone = { λ page copy. ((x y : V) → V.is_clone x y → y ≡ x) → copy ≡ page };

    fn clone(&self) -> Result<Page<V>, AllocError> {
        Ok(Page {
            entries: self.entries.clone()?,
        })
    }
}
