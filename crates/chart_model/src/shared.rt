//! Values that copies share.
//!
//! A record is large beside a pointer to it, and only one that is edited needs a copy.

ghost use Rattle.std.specs.Prelude.{◌≡◌, IfOk, OnOk, OnErr};

use crate::name_map::Edit;
use std::alloc::{AllocError, Global};
use std::marker::Model;
use std::rc::Rc;

/// A value that its copies share, until one of them is changed. Contracts see the value.
#[derive(Debug, Drop)]
pub struct Shared<V> {
    pointer: Rc<V>,
}

impl<V> Model for Shared<V> {
    ghost Value = { V };

    ghost coded = { V.code };

    ghost view = { λ shared. shared.pointer.value };
}

impl<V: Drop> Shared<V> {
    /// A value that nothing shares yet.
    pub fn of(alloc: Global, value: V) -> Result<Shared<V>, AllocError>
        ensures { IfOk result (λ shared. shared ≡ value) }
    {
        Ok(Shared {
            pointer: Rc::new(alloc, value)?,
        })
    }

    /// The value. It takes no memory.
    pub fn get(&self) -> &V
        ensures { result.now ≡ self.now }
    {
        self.pointer.as_ref()
    }

    /// Edits the value: where it is shared, a copy of its own. Where there is no memory nothing changes.
    pub fn edit<E: Edit<V> + Drop>(&mut self, by: E) -> Result<(), AllocError>
    where
        V: Clone,
        requires exact { (x y : V) → V.is_clone x y → y ≡ x }
        requires fits { E.fits by self.old }
        ensures ok { OnOk result (self.new ≡ E.edited by self.old) }
        ensures err { OnErr result (self.new ≡ self.old) }
    {
        let own = Rc::make_mut(&mut self.pointer)?;
        by.edit(own)
    }
}

impl<V: Drop> Clone for Shared<V> {
    ghost is_clone = { λ shared copy. copy ≡ shared };

    fn clone(&self) -> Result<Shared<V>, AllocError> {
        Ok(Shared {
            pointer: self.pointer.clone()?,
        })
    }
}
