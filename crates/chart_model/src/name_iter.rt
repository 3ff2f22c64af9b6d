//! The walk over the records of a map, page by page.
//!
//! The records of a page are a slice, so the tree of pages is asked once for each page. No page of a map is empty:
//! where there is one left, there is a record.

ghost use Rattle.std.specs.Prelude.{◌≡◌, ◌++◌, length};
ghost use Rattle.std.specs.Iterator.{at_most};
ghost use Rattle.std.specs.FinMap as map;
ghost use Rattle.std.specs.Map.Iter.{TakesFirst, ShowsInOrder, ShowsValuesInOrder, deref_pair};
ghost use Rattle.chart_model.specs.declared.name.Name.{Name};
ghost use Rattle.chart_model.specs.Pages.{flatten, AreFull};
ghost use Rattle.chart_model.specs.Shared.{values_behind};

use crate::name::Name;
use crate::page::Page;
use crate::page_map::PageName;
use crate::shared::Shared;
use std::alloc::Global;
use std::collections::BTreeMap;
use std::collections::btree_map::Iter;
use std::marker::Model;
use std::rc::Rc;

/// The names and the values that are left, in the names' order. Contracts see their list.
#[derive(Drop)]
pub struct NameIter<'a, V> {
    pages: Iter<'a, PageName, Rc<Page<Shared<V>>>>,
    records: &'a [(Name, Shared<V>)],
}

impl<'a, V> Model for NameIter<'a, V> {
    ghost use Rattle.std.specs.Prelude.{List, ◌++◌};
    ghost use Rattle.chart_model.specs.declared.name.Name.{Name};
    ghost use Rattle.chart_model.specs.Pages.{flatten, AreFull};
    ghost use Rattle.chart_model.specs.Shared.{values_behind};

    ghost Value = { List (Name × V) };

    ghost view = { λ walk. walk.records.now ++ flatten (values_behind walk.pages) };

    ghost invariant = { λ walk. AreFull (values_behind walk.pages) };
}

impl<'a, V: Drop> NameIter<'a, V> {
    /// A walk over pages, each with a record at least.
    pub(crate) fn over(pages: Iter<'a, PageName, Rc<Page<Shared<V>>>>) -> NameIter<'a, V>
        requires { AreFull (values_behind pages) }
        ensures { result ≡ flatten (values_behind pages.entry) }
    {
        NameIter {
            pages,
            records: &[],
        }
    }
}

impl<'a, V: Drop> Iterator for NameIter<'a, V> {
    type Item = (&'a Name, &'a V);

    ghost next_gives = { TakesFirst deref_pair };

    ghost remaining = { λ walk. at_most (length walk) };

    fn next(&mut self) -> Option<(&'a Name, &'a V)> {
        if self.records.is_empty() {
            let (_, page) = self.pages.next()?;
            self.records = page.as_ref().as_slice();
        }
        let (first, others) = self.records.split_first()?;
        self.records = others;
        Some((&first.0, first.1.get()))
    }
}

/// What a walk shows, whatever it goes over.
pub(crate) fn walks_in_order<V: Drop>(alloc: Global)
    ensures runs { ShowsInOrder (deref_pair {K = Name} {X = V}) }
    ensures values_run { ShowsValuesInOrder (deref_pair {K = Name} {X = V}) }
{
    let names: BTreeMap<Name, V> = BTreeMap::new(alloc);
    let _ = names.iter();
}
