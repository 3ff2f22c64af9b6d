//! Parts of lists that are shared.
//!
//! A file has many records of few fields, and fields of few values: with a vector for each, every one would take memory
//! of its own. The list stays as long as one of its parts does.

ghost use Rattle.std.specs.Prelude.{◌≡◌, ◌≤◌, length, IfOk};
ghost use Rattle.std.specs.List.{slice_range};

use std::alloc::AllocError;
use std::fmt::{Debug, Formatter, Write};
use std::marker::Model;
use std::rc::Rc;

/// Values that stand side by side in a list that other parts share, so that many short lists take the memory of one.
/// Contracts see a list.
#[derive(Drop)]
pub struct Part<T> {
    all: Rc<Vec<T>>,
    from: usize,
    to: usize,
}

impl<T> Model for Part<T> {
    ghost use Rattle.std.specs.Prelude.{◌≤◌, List, length};
    ghost use Rattle.std.specs.List.{slice_range};

    ghost Value = { List T };

    ghost view = { λ part. slice_range part.all.value.items part.from part.to };

    ghost invariant = { λ part. (part.from ≤ part.to) × (part.to ≤ length part.all.value.items) };
}

impl<T: Drop> Part<T> {
    /// The values of a list from one place up to another. It takes no memory.
    ///
    /// # Errors
    ///
    /// `AllocError` where the list has more parts than can be counted.
    pub(crate) fn of(all: &Rc<Vec<T>>, from: usize, to: usize) -> Result<Part<T>, AllocError>
        requires { (from ≤ to) × (to ≤ length all.now.value.items) }
        ensures { IfOk result (λ part. part ≡ slice_range all.now.value.items from to) }
    {
        Ok(Part {
            all: all.clone()?,
            from,
            to,
        })
    }

    /// The values. It takes no memory.
    pub fn as_slice(&self) -> &[T]
        ensures { result.now ≡ self.now }
    {
        &self.all.as_ref()[self.from..self.to]
    }
}

impl<T: Debug + Drop> Debug for Part<T> {
    fn fmt<W: Write>(&self, f: &mut Formatter<W>) -> std::fmt::Result {
        Debug::fmt(&self.as_slice(), f)
    }
}
