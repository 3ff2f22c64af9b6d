//! Bytes that own their memory.
//!
//! Contracts see an `Octets` as a list of bytes, so that two of them are equal where their bytes are,
//! whatever room each has left.

ghost use Rattle.std.specs.Prelude.{◌≡◌, ◌++◌, [], IfOk, OnOk, OnErr, nat_eq};
ghost use Rattle.std.specs.Cmp.{partial_equiv_from_equiv};
ghost use Rattle.std.specs.Cmp.Lexicographic.{pointwise, nat_list_eq_equiv};
ghost use Rattle.chart_model.specs.Octets.{bytes_of};

use crate::short::Short;
use std::alloc::{AllocError, Global};
use std::fmt::{Debug, Formatter, Write};
use std::marker::Model;

/// A list of bytes. A few stand in place, since most values of charts are short texts and names.
#[derive(Drop)]
pub struct Octets {
    bytes: Bytes,
}

/// Where the bytes are.
#[derive(Drop)]
enum Bytes {
    /// In place, and where more would take their memory.
    Short(Short, Global),
    Long(Vec<u8>),
}

impl Model for Octets {
    ghost use Rattle.std.specs.Prelude.{List, ℕ};
    ghost use Rattle.chart_model.specs.Octets.{bytes_of};

    ghost Value = { List ℕ };

    ghost view = { λ octets. bytes_of octets.bytes };
}

impl Octets {
    /// Takes over the bytes of a vector. It takes no memory.
    pub fn from_vec(bytes: Vec<u8>) -> Octets
        ensures { result ≡ bytes.items }
    {
        Octets {
            bytes: Bytes::Long(bytes),
        }
    }

    /// A copy of bytes, with no room beyond them.
    pub fn from_slice(alloc: Global, bytes: &[u8]) -> Result<Octets, AllocError>
        ensures { IfOk result (λ octets. octets ≡ bytes.now) }
    {
        let bytes = match Short::of(bytes) {
            Some(short) => Bytes::Short(short, alloc),
            None => Bytes::Long(Vec::from_slice(alloc, bytes)?),
        };
        Ok(Octets { bytes })
    }

    /// Adds bytes at the end. Where there is no memory nothing changes.
    pub fn extend_from_slice(&mut self, bytes: &[u8]) -> Result<(), AllocError>
        ensures ok { OnOk result (self.new ≡ self.old ++ bytes.now) }
        ensures err { OnErr result (self.new ≡ self.old) }
    {
        match &mut self.bytes {
            Bytes::Long(all) => all.extend_from_slice(bytes),
            Bytes::Short(..) => self.grow(bytes),
        }
    }

    /// Adds bytes at the end of a few, which go to memory of their own. It stands apart, so that bytes are added to a
    /// long list, as they nearly always are, in few steps.
    #[cold]
    #[inline(never)]
    fn grow(&mut self, bytes: &[u8]) -> Result<(), AllocError>
        ensures ok { OnOk result (self.new ≡ self.old ++ bytes.now) }
        ensures err { OnErr result (self.new ≡ self.old) }
    {
        let mut all = Vec::from_slice(self.allocator(), self.as_slice())?;
        all.extend_from_slice(bytes)?;
        self.bytes = Bytes::Long(all);
        Ok(())
    }

    /// Where its memory comes from.
    fn allocator(&self) -> Global {
        match &self.bytes {
            Bytes::Short(_, alloc) => *alloc,
            Bytes::Long(all) => *all.allocator(),
        }
    }

    /// Takes the bytes out. The room of a long list stays.
    pub fn clear(&mut self)
        ensures { self.new ≡ [] }
    {
        match &mut self.bytes {
            Bytes::Long(all) => all.clear(),
            Bytes::Short(_, alloc) => self.bytes = Bytes::Long(Vec::new(*alloc)),
        }
    }

    /// The bytes as a vector. A few are copied, and a long list is taken over.
    pub fn into_vec(self, alloc: Global) -> Result<Vec<u8>, AllocError>
        ensures { IfOk result (λ bytes. bytes.items ≡ self) }
    {
        match self.bytes {
            Bytes::Short(short, _) => Vec::from_slice(alloc, short.as_slice()),
            Bytes::Long(all) => Ok(all),
        }
    }

    /// The bytes. It takes no memory.
    pub fn as_slice(&self) -> &[u8]
        ensures { result.now ≡ self.now }
    {
        match &self.bytes {
            Bytes::Short(short, _) => short.as_slice(),
            Bytes::Long(all) => all.as_slice(),
        }
    }
}

impl Debug for Octets {
    fn fmt<W: Write>(&self, f: &mut Formatter<W>) -> std::fmt::Result {
        Debug::fmt(&self.as_slice(), f)
    }
}

impl PartialEq for Octets {
    ghost eq = { pointwise nat_eq };

    ghost laws = { partial_equiv_from_equiv nat_list_eq_equiv };

    fn eq(&self, other: &Octets) -> bool {
        self.as_slice() == other.as_slice()
    }
}

impl Clone for Octets {
    ghost is_clone = { λ octets copy. copy ≡ octets };

    fn clone(&self) -> Result<Octets, AllocError> {
        let bytes = match &self.bytes {
            Bytes::Short(short, alloc) => Bytes::Short(short.copy(), *alloc),
            Bytes::Long(all) => Bytes::Long(all.clone()?),
        };
        Ok(Octets { bytes })
    }
}
