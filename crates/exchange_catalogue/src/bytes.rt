//! Bytes in an order.
//!
//! Maps and sorts ask for an order of what they hold, which lists of bytes have here as they have in Rust.

ghost use Rattle.std.specs.Prelude.{◌≡◌, IfOk, nat_eq, refl};
ghost use Rattle.std.specs.Ordering.{as_partial_cmp};
ghost use Rattle.std.specs.Cmp.{partial_equiv_from_equiv};
ghost use Rattle.std.specs.Cmp.Lexicographic.{nat_list_cmp_total, nat_list_eq_equiv, pointwise, texts_po, texts_ties};
ghost use Rattle.chart_model.specs.Keys.{key_cmp};

use chart_model::Octets;
use std::alloc::{AllocError, Global};
use std::cmp::Ordering;
use std::marker::Model;

/// Bytes, of which one list stands before those that it begins. Contracts see a list.
#[derive(Drop)]
pub(crate) struct Bytes {
    octets: Octets,
}

impl Model for Bytes {
    ghost use Rattle.std.specs.Prelude.{List, ℕ};

    ghost Value = { List ℕ };

    ghost view = { λ bytes. bytes.octets };
}

impl Bytes {
    /// Takes over the bytes. It takes no memory.
    pub(crate) fn new(octets: Octets) -> Bytes
        ensures { result ≡ octets }
    {
        Bytes { octets }
    }

    /// A copy of the bytes.
    pub(crate) fn from_slice(alloc: Global, bytes: &[u8]) -> Result<Bytes, AllocError>
        ensures { IfOk result (λ copy. copy ≡ bytes.now) }
    {
        Ok(Bytes {
            octets: Octets::from_slice(alloc, bytes)?,
        })
    }

    /// The bytes. It takes no memory.
    pub(crate) fn as_slice(&self) -> &[u8]
        ensures { result.now ≡ self.now }
    {
        self.octets.as_slice()
    }

    /// Gives the bytes back. It takes no memory.
    pub(crate) fn into_octets(self) -> Octets
        ensures { result ≡ self }
    {
        self.octets
    }
}

impl PartialEq for Bytes {
    ghost eq = { pointwise nat_eq };

    ghost laws = { partial_equiv_from_equiv nat_list_eq_equiv };

    fn eq(&self, other: &Bytes) -> bool {
        self.as_slice() == other.as_slice()
    }
}

impl Eq for Bytes {
    ghost laws = { nat_list_eq_equiv };
}

impl PartialOrd for Bytes {
    ghost partial_cmp = { as_partial_cmp key_cmp };

    ghost laws = { texts_po };

    fn partial_cmp(&self, other: &Bytes) -> Option<Ordering> {
        Some(self.cmp(other))
    }
}

impl Ord for Bytes {
    ghost cmp = { key_cmp };

    ghost total = { nat_list_cmp_total };

    ghost matches_partial_cmp = { λ x y. refl };

    ghost matches_eq = { texts_ties };

    fn cmp(&self, other: &Bytes) -> Ordering {
        self.as_slice().cmp(&other.as_slice())
    }
}
