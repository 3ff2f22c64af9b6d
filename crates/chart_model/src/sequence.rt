//! Values in order, behind a type that contracts see as a plain list.
//!
//! A `Vec` in a public struct would show its capacity to every contract that compares such structs.

ghost use Rattle.std.specs.Prelude.{◌≡◌, ◌++◌, ◌∷◌, [], length, OnOk, OnErr};
ghost use Rattle.std.specs.List.{AllZip};
ghost use Rattle.std.specs.Cmp.Lexicographic.{lists_per, pointwise};

use std::alloc::{AllocError, Global};
use std::marker::Model;

/// Values in order. Contracts see a list.
#[derive(Debug, Drop)]
pub struct Sequence<T> {
    items: Vec<T>,
}

impl<T> Model for Sequence<T> {
    ghost use Rattle.std.specs.Prelude.{List};

    ghost Value = { List T };

    ghost view = { λ sequence. sequence.items.items };
}

impl<T> Sequence<T> {
    /// An empty sequence. It takes no memory.
    pub fn new(alloc: Global) -> Sequence<T>
        ensures { result ≡ [] }
    {
        Sequence {
            items: Vec::new(alloc),
        }
    }

    /// Takes over the values of a vector. It takes no memory.
    pub fn from_vec(items: Vec<T>) -> Sequence<T>
        ensures { result ≡ items.items }
    {
        Sequence { items }
    }

    /// Gives the values back as a vector. It takes no memory.
    pub fn into_vec(self) -> Vec<T>
        ensures { result.items ≡ self }
    {
        self.items
    }

    /// The values. It takes no memory.
    pub fn as_slice(&self) -> &[T]
        ensures { result.now ≡ self.now }
    {
        self.items.as_slice()
    }
}

impl<T: Drop> Sequence<T> {
    /// Adds a value at the end. Where there is no memory nothing changes.
    pub fn push(&mut self, item: T) -> Result<(), AllocError>
        ensures ok { OnOk result (self.new ≡ self.old ++ item ∷ []) }
        ensures err { OnErr result (self.new ≡ self.old) }
    {
        self.items.push(item)?;
        Ok(())
    }
}

impl<T: Clone> Clone for Sequence<T> {
    ghost is_clone = { λ sequence copy. AllZip T.is_clone sequence copy };

    fn clone(&self) -> Result<Sequence<T>, AllocError> {
        Ok(Sequence {
            items: self.items.clone()?,
        })
    }
}

impl<T: PartialEq> PartialEq for Sequence<T> {
    ghost eq = { pointwise T.eq };

    ghost laws = { lists_per T.laws };

    fn eq(&self, other: &Sequence<T>) -> bool {
        self.as_slice() == other.as_slice()
    }
}
