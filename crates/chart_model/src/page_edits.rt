//! Edits of one record, as edits of its page.
//!
//! A page and a record may each be shared with another chart. So an edit is handed inwards, through the page and then
//! through the record's pointer, and each of the two copies what it has only where that is shared still.

ghost use Rattle.std.specs.Prelude.{◌≡◌, IfSome};
ghost use Rattle.std.specs.FinMap as map;
ghost use Rattle.chart_model.specs.Names.{edited_in};

use crate::name::Name;
use crate::name_map::Edit;
use crate::page::Page;
use crate::shared::Shared;
use std::alloc::AllocError;

/// Puts a record under a name, in place of what was there.
#[derive(Drop)]
pub struct Put<V> {
    pub name: Name,
    pub value: V,
}

impl<V: Drop> Edit<Page<V>> for Put<V> {
    ghost fits = { λ _ _. Unit {0} };

    ghost edited = { λ put records. map.insert records put.name put.value };

    fn edit(self, page: &mut Page<V>) -> Result<(), AllocError> {
        page.insert(self.name, self.value)
    }
}

/// Takes out the record under a name.
#[derive(Drop)]
pub struct TakeOut {
    pub name: Name,
}

impl<V: Drop> Edit<Page<V>> for TakeOut {
    ghost fits = { λ _ _. Unit {0} };

    ghost edited = { λ out records. map.remove records out.name };

    fn edit(self, page: &mut Page<V>) -> Result<(), AllocError> {
        page.remove(self.name);
        Ok(())
    }
}

/// Edits the record under a name, where there is one.
#[derive(Drop)]
pub struct At<E> {
    pub name: Name,
    pub by: E,
}

impl<V: Drop, E: Edit<V> + Drop> Edit<Page<V>> for At<E> {
    ghost fits = { λ at records. IfSome (map.get records at.name) (E.fits at.by) };

    ghost edited = { λ at records. edited_in (E.edited at.by) records at.name };

    fn edit(self, page: &mut Page<V>) -> Result<(), AllocError> {
        page.edit(self.name, self.by)
    }
}

/// Edits the value that is shared, in a copy of its own where it is shared still.
#[derive(Drop)]
pub struct Within<E> {
    pub by: E,
}

impl<V: Clone + Drop, E: Edit<V> + Drop> Edit<Shared<V>> for Within<E> {
    ghost fits = { λ within value. ((x y : V) → V.is_clone x y → y ≡ x) × E.fits within.by value };

    ghost edited = { λ within value. E.edited within.by value };

    fn edit(self, shared: &mut Shared<V>) -> Result<(), AllocError> {
        shared.edit(self.by)
    }
}
