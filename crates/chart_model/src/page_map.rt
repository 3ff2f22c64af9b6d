//! Pages by their names, each behind a pointer that copies of the map share.
//!
//! So a copy of a chart costs a pointer for a page of 64 numbers, and an edit copies the one page that it touches, and
//! only where another map has that still.

ghost use Rattle.std.specs.Prelude.{◌≡◌, ◌/◌, if◌then◌else◌, Some, None, IfSome, IfOk, OnOk, OnErr};
ghost use Rattle.std.specs.Option.{option_copied};
ghost use Rattle.std.specs.FinMap as map;
ghost use Rattle.chart_model.specs.Pages.{page_of};
ghost use Rattle.chart_model.specs.Names.{edited_in};
ghost use Rattle.chart_model.specs.Shared.{values_behind};

use crate::name::Name;
use crate::name_map::Edit;
use std::alloc::{AllocError, Global};
use std::collections::BTreeMap;
use std::collections::btree_map::Iter;
use std::marker::Model;
use std::rc::Rc;

/// How many numbers share a page.
pub const NUMBERS_PER_PAGE: u32 = 64;

/// The name of a page: the kind of its records, and their numbers divided by [`NUMBERS_PER_PAGE`].
#[derive(Clone, Copy, Debug, PartialEq, Eq, PartialOrd, Ord)]
pub struct PageName {
    rcnm: u8,
    number: u32,
}

impl PageName {
    /// The page on which a record stands.
    pub fn of(name: Name) -> PageName
        ensures { result ≡ page_of name }
    {
        PageName {
            rcnm: name.rcnm,
            number: name.rcid / NUMBERS_PER_PAGE,
        }
    }
}

/// Pages by name, in the names' order. Contracts see a finite map.
#[derive(Debug, Drop)]
pub struct PageMap<T> {
    alloc: Global,
    tree: BTreeMap<PageName, Rc<T>>,
}

impl<T> Model for PageMap<T> {
    ghost use Rattle.std.specs.FinMap as map;
    ghost use Rattle.chart_model.specs.Pages.{page_cmp, page_code};
    ghost use Rattle.chart_model.specs.Shared.{values_behind};

    ghost Value = { map.FinMap page_cmp T };

    ghost coded = { map.code page_code T.code };

    ghost view = { λ pages. map.from_entries (values_behind pages.tree.entries) };
}

impl<T: Drop> PageMap<T> {
    /// A map without a page. It takes no memory.
    pub fn new(alloc: Global) -> PageMap<T>
        ensures { result ≡ map.empty }
    {
        PageMap {
            alloc,
            tree: BTreeMap::new(alloc),
        }
    }

    /// Where its pages are made.
    pub fn allocator(&self) -> Global {
        self.alloc
    }

    /// The page with a name. It takes no memory.
    pub fn get(&self, page: PageName) -> Option<&T>
        ensures { option_copied result ≡ map.get self.now page }
    {
        match self.tree.get(&page) {
            Some(shared) => Some(shared.as_ref()),
            None => None,
        }
    }

    /// Puts a page under a name, in place of what was there. Where there is no memory nothing changes.
    pub fn insert(&mut self, page: PageName, value: T) -> Result<(), AllocError>
        ensures ok { OnOk result (self.new ≡ map.insert self.old page value) }
        ensures err { OnErr result (self.new ≡ self.old) }
    {
        let shared = Rc::new(self.alloc, value)?;
        match self.tree.insert(page, shared) {
            Ok(_) => Ok(()),
            Err(_) => Err(AllocError),
        }
    }

    /// Takes out the page with a name. It takes no memory.
    pub fn remove(&mut self, page: PageName)
        ensures { self.new ≡ map.remove self.old page }
    {
        let _ = self.tree.remove(&page);
    }

    /// Edits the page with a name: one that is shared is copied before. Where there is no such page it gives the
    /// edit back. Where there is no memory nothing changes.
    pub fn edit<E: Edit<T> + Drop>(
        &mut self,
        page: PageName,
        by: E,
    ) -> Result<Option<E>, AllocError>
    where
        T: Clone,
        requires exact { (x y : T) → T.is_clone x y → y ≡ x }
        requires fits { IfSome (map.get self.old page) (E.fits by) }
        ensures ok { OnOk result (self.new ≡ edited_in (E.edited by) self.old page) }
        ensures unused { IfOk result (λ unused. unused ≡ (if map.contains_key self.old page then None else Some by)) }
        ensures err { OnErr result (self.new ≡ self.old) }
    {
        let Some(shared) = self.tree.get_mut(&page) else {
            return Ok(Some(by));
        };
        let own = Rc::make_mut(shared)?;
        by.edit(own)?;
        Ok(None)
    }

    /// The pages in the names' order. It takes no memory.
    pub fn iter(&self) -> Iter<'_, PageName, Rc<T>>
        ensures { values_behind result ≡ map.entries self.now }
    {
        self.tree.iter()
    }
}

impl<T: Drop> Clone for PageMap<T> {
    ghost is_clone = { λ pages copy. copy ≡ pages };

    fn clone(&self) -> Result<PageMap<T>, AllocError> {
        Ok(PageMap {
            alloc: self.alloc,
            tree: self.tree.clone()?,
        })
    }
}
