//! Values by the names of records.
//!
//! An update touches few records of a chart. So the chart after it shares all others with the chart
//! before, which stays whole.

ghost use Rattle.std.specs.Prelude.{◌≡◌, ◌+◌, if◌then◌else◌, None, IfOk, OnOk, OnErr, IfSome, IsSome};
ghost use Rattle.std.specs.Option.{option_copied};
ghost use Rattle.std.specs.FinMap as map;
ghost use Rattle.std.specs.Map.Iter.{ShowsInOrder, ShowsValuesInOrder, deref_pair};
ghost use Rattle.chart_model.specs.declared.name.Name.{Name};
ghost use Rattle.chart_model.specs.Names.{edited_in};
ghost use Rattle.chart_model.specs.Pages.{names_of, is_alone, ArePages};

use crate::name::Name;
use crate::name_iter::{NameIter, walks_in_order};
use crate::page::Page;
use crate::page_edits::{At, Put, TakeOut, Within};
use crate::page_map::{PageMap, PageName};
use crate::shared::Shared;
use std::alloc::{AllocError, Global};
use std::marker::Model;

/// A change of one value of a map.
pub trait Edit<V> {
    /// What the value has to be for it.
    ghost fits: { Self → V → Type 0 };

    /// The value after it.
    ghost edited: { Self → V → V };

    /// Changes the value in its place. Where there is no memory it stays as it was.
    fn edit(self, value: &mut V) -> Result<(), AllocError>
        requires { fits self value.old }
        ensures ok { OnOk result (value.new ≡ edited self value.old) }
        ensures err { OnErr result (value.new ≡ value.old) };
}

/// Values by name, in the names' order. Contracts see a finite map.
///
/// Copies share the values and the small pages on which they stand: a copy costs a pointer a page, and a
/// change copies the page that it touches, a pointer a value, and the one value that it edits.
#[derive(Debug, Drop)]
pub struct NameMap<V> {
    count: usize,
    pages: PageMap<Page<Shared<V>>>,
}

impl<V> Model for NameMap<V> {
    ghost use Rattle.std.specs.FinMap as map;
    ghost use Rattle.chart_model.specs.Names.{name_cmp, name_code};
    ghost use Rattle.chart_model.specs.Pages.{names_of, IsPaged};

    ghost Value = { map.FinMap name_cmp V };

    ghost coded = { map.code name_code V.code };

    ghost view = { λ names. names_of names.pages };

    ghost invariant = { λ names. IsPaged names.pages names.count };
}

/// The value under a name on a page. It takes no memory.
fn value_on<V: Drop>(records: &Page<Shared<V>>, name: Name) -> Option<&V>
    ensures { option_copied result ≡ map.get records.now name }
{
    match records.get(name) {
        Some(value) => Some(value.get()),
        None => None,
    }
}

/// Puts a value on its page, in place of what was there. Where there is no memory nothing changes.
fn put_on_page<V: Clone + Drop>(
    pages: &mut PageMap<Page<V>>,
    name: Name,
    value: V,
) -> Result<(), AllocError>
    requires exact { (x y : V) → V.is_clone x y → y ≡ x }
    requires paged { ArePages pages.old }
    ensures ok { OnOk result (names_of pages.new ≡ map.insert (names_of pages.old) name value) }
    ensures paged { OnOk result (ArePages pages.new) }
    ensures err { OnErr result (pages.new ≡ pages.old) }
{
    let page = PageName::of(name);
    let Some(first) = pages.edit(page, Put { name, value })? else {
        return Ok(());
    };
    let records = Page::of(pages.allocator(), first.name, first.value)?;
    pages.insert(page, records)
}

/// Whether a page has one value alone. It takes no memory.
fn has_one<V: Drop>(pages: &PageMap<Page<V>>, page: PageName) -> bool
    ensures { result ≡ is_alone (map.get pages.now page) }
{
    match pages.get(page) {
        Some(records) => records.len() == 1,
        None => false,
    }
}

/// Takes a value from its page, and the page too where no other is left on it. Where there is no memory
/// nothing changes.
fn take_off_page<V: Clone + Drop>(
    pages: &mut PageMap<Page<V>>,
    name: Name,
) -> Result<(), AllocError>
    requires exact { (x y : V) → V.is_clone x y → y ≡ x }
    requires paged { ArePages pages.old }
    requires there { IsSome (map.get (names_of pages.old) name) }
    ensures ok { OnOk result (names_of pages.new ≡ map.remove (names_of pages.old) name) }
    ensures paged { OnOk result (ArePages pages.new) }
    ensures err { OnErr result (pages.new ≡ pages.old) }
{
    let page = PageName::of(name);
    if has_one(pages, page) {
        pages.remove(page);
        return Ok(());
    }
    let _ = pages.edit(page, TakeOut { name })?;
    Ok(())
}

impl<V: Drop> NameMap<V> {
    /// A map without an entry. It takes no memory.
    pub fn new(alloc: Global) -> NameMap<V>
        ensures { result ≡ map.empty }
    {
        NameMap {
            count: 0,
            pages: PageMap::new(alloc),
        }
    }

    /// The number of entries. It takes no memory.
    pub fn len(&self) -> usize
        ensures { result ≡ map.len self.now }
    {
        self.count
    }

    /// The value under a name. It takes no memory.
    pub fn get(&self, name: Name) -> Option<&V>
        ensures { option_copied result ≡ map.get self.now name }
    {
        match self.pages.get(PageName::of(name)) {
            Some(records) => value_on(records, name),
            None => None,
        }
    }

    /// Whether there is a value under a name. It takes no memory.
    pub fn contains(&self, name: Name) -> bool
        ensures { result ≡ map.contains_key self.now name }
    {
        self.get(name).is_some()
    }

    /// One more than there are entries. A number that doesn't fit is want of memory: there are fewer names.
    fn one_more(&self) -> Result<usize, AllocError>
        ensures { IfOk result (λ count. count ≡ map.len self.now + 1) }
    {
        self.count.checked_add(1).ok_or(AllocError)
    }

    /// The number of entries with a value under that name too.
    fn count_with(&self, name: Name) -> Result<usize, AllocError>
        ensures { IfOk result (λ count. count
            ≡ (if map.contains_key self.now name then map.len self.now else map.len self.now + 1)) }
    {
        if self.contains(name) {
            return Ok(self.count);
        }
        self.one_more()
    }

    /// Puts a value under a name, in place of what was there, with the number of entries that there are then. Where
    /// there is no memory nothing changes.
    fn insert_counted(&mut self, name: Name, value: V, count: usize) -> Result<(), AllocError>
        requires { count ≡ map.len (map.insert self.old name value) }
        ensures ok { OnOk result (self.new ≡ map.insert self.old name value) }
        ensures err { OnErr result (self.new ≡ self.old) }
    {
        let value = Shared::of(self.pages.allocator(), value)?;
        put_on_page(&mut self.pages, name, value)?;
        self.count = count;
        Ok(())
    }

    /// Puts a value under a name, in place of what was there. Where there is no memory nothing changes.
    pub fn insert(&mut self, name: Name, value: V) -> Result<(), AllocError>
        ensures ok { OnOk result (self.new ≡ map.insert self.old name value) }
        ensures err { OnErr result (self.new ≡ self.old) }
    {
        let count = self.count_with(name)?;
        self.insert_counted(name, value, count)
    }

    /// Puts a value under a name that has none, which spares a look-up. Where there is no memory nothing changes.
    pub fn insert_new(&mut self, name: Name, value: V) -> Result<(), AllocError>
        requires absent { map.get self.old name ≡ None }
        ensures ok { OnOk result (self.new ≡ map.insert self.old name value) }
        ensures err { OnErr result (self.new ≡ self.old) }
    {
        let count = self.one_more()?;
        self.insert_counted(name, value, count)
    }

    /// Takes out the value under a name, where there is one. Where there is no memory nothing changes.
    pub fn remove(&mut self, name: Name) -> Result<(), AllocError>
        ensures ok { OnOk result (self.new ≡ map.remove self.old name) }
        ensures err { OnErr result (self.new ≡ self.old) }
    {
        if self.contains(name) {
            take_off_page(&mut self.pages, name)?;
            self.count -= 1;
        }
        Ok(())
    }

    /// Edits the value under a name, where there is one. Where there is no memory nothing changes.
    pub fn edit<E: Edit<V> + Drop>(&mut self, name: Name, by: E) -> Result<(), AllocError>
    where
        V: Clone,
        requires exact { (x y : V) → V.is_clone x y → y ≡ x }
        requires fits { IfSome (map.get self.old name) (E.fits by) }
        ensures ok { OnOk result (self.new ≡ edited_in (E.edited by) self.old name) }
        ensures err { OnErr result (self.new ≡ self.old) }
    {
        let by = Within { by };
        let _ = self.pages.edit(PageName::of(name), At { name, by })?;
        Ok(())
    }

    /// The names and their values in the names' order. It takes no memory.
    pub fn iter(&self) -> NameIter<'_, V>
        ensures entries { result ≡ map.entries self.now }
        ensures runs { ShowsInOrder (deref_pair {K = Name} {X = V}) }
        ensures values_run { ShowsValuesInOrder (deref_pair {K = Name} {X = V}) }
    {
        walks_in_order::<V>(self.pages.allocator());
        NameIter::over(self.pages.iter())
    }
}

impl<V: Drop> Clone for NameMap<V> {
    ghost is_clone = { λ names copy. copy ≡ names };

    fn clone(&self) -> Result<NameMap<V>, AllocError> {
        Ok(NameMap {
            count: self.count,
            pages: self.pages.clone()?,
        })
    }
}
