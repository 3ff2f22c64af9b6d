//! The name under which a cell is kept.
//!
//! Commands, replies and files name cells by it, so what it may be is tested once, where it is
//! made.

ghost use Rattle.std.specs.Prelude.{◌≡◌, ◌≤◌, ◌↔◌, ℕ, true, List, length, IsTrue, All};
ghost use Rattle.std.specs.Option.{SomeIff};
ghost use Rattle.std.specs.Prelude.{nat_eq, refl};
ghost use Rattle.std.specs.Ordering.{as_partial_cmp};
ghost use Rattle.std.specs.Cmp.{partial_equiv_from_equiv};
ghost use Rattle.std.specs.Cmp.Lexicographic.{nat_list_cmp_total, nat_list_eq_equiv, pointwise, texts_po, texts_ties};
ghost use Rattle.chart_model.specs.Keys.{key_cmp};
ghost use Rattle.chart_model.specs.Key.{IsKey, IsVisible, is_key as tests_key, key_cells};

use std::cmp::Ordering;
use std::marker::Model;

/// The most bytes that a key has.
const LIMIT: usize = 32;

/// The key of a cell: its data set's file name without the extension, 1 to 32 visible ASCII bytes
/// (0x21 to 0x7E).
///
/// It keeps its bytes in place, so that a copy takes no memory.
#[derive(Clone, Copy, Debug)]
pub struct Key {
    cells: [u8; 32],
    len: usize,
}

impl Model for Key {
    ghost use Rattle.std.specs.Prelude.{List, ℕ, length, take};
    ghost use Rattle.chart_model.specs.Key.{IsStored, key_cells, length-take-key, key_cells-take};

    ghost Value = { List ℕ };

    ghost view = { λ key. take key.len key.cells };

    ghost invariant = { λ key. IsStored key.cells key.len };

    ghost inverse = { λ bytes. record { cells = key_cells bytes; len = length bytes } };

    ghost inverse_ok = { λ key h i. record {
      cells = key_cells-take key.cells key.len h i;
      len = length-take-key key.cells key.len h i;
    } };
}

/// Whether each byte is a visible ASCII character.
fn is_visible(bytes: &[u8]) -> bool
    ensures { IsTrue result ↔ All IsVisible bytes.now }
{
    bytes.iter().all(|byte| matches!(byte, 0x21..=0x7E))
}

/// Whether the bytes are a key.
fn is_key(bytes: &[u8]) -> bool
    ensures { IsTrue result ↔ IsKey bytes.now }
{
    !bytes.is_empty() && bytes.len() <= LIMIT && is_visible(bytes)
}

/// What the test of definitions says of bytes is whether they are a key.
pub fn keys_are_tested()
    ensures { (bytes : List ℕ) → (tests_key bytes ≡ true) ↔ IsKey bytes }
{}

/// The bytes with zeros behind them.
fn cells_of(bytes: &[u8]) -> [u8; 32]
    requires { length bytes.now ≤ LIMIT }
    ensures { result ≡ key_cells bytes.now }
{
    let mut cells = [0; 32];
    cells[..bytes.len()].copy_from_slice(bytes);
    cells
}

impl Key {
    /// The key of these bytes, where they are one. It takes no memory.
    pub fn from_bytes(bytes: &[u8]) -> Option<Key>
        ensures { SomeIff result (IsKey bytes.now) bytes.now }
    {
        if !is_key(bytes) {
            return None;
        }
        let cells = cells_of(bytes);
        Some(Key {
            cells,
            len: bytes.len(),
        })
    }

    /// The bytes of the key. It takes no memory.
    pub fn as_slice(&self) -> &[u8]
        ensures bytes { result.now ≡ self.now }
        ensures key { IsKey result.now }
    {
        &self.cells[..self.len]
    }
}

impl PartialEq for Key {
    ghost eq = { pointwise nat_eq };

    ghost laws = { partial_equiv_from_equiv nat_list_eq_equiv };

    fn eq(&self, other: &Key) -> bool {
        self.as_slice() == other.as_slice()
    }
}

impl Eq for Key {
    ghost laws = { nat_list_eq_equiv };
}

impl PartialOrd for Key {
    ghost partial_cmp = { as_partial_cmp key_cmp };

    ghost laws = { texts_po };

    fn partial_cmp(&self, other: &Key) -> Option<Ordering> {
        Some(self.cmp(other))
    }
}

/// By bytes: a key stands before those that it begins.
impl Ord for Key {
    ghost cmp = { key_cmp };

    ghost total = { nat_list_cmp_total };

    ghost matches_partial_cmp = { λ x y. refl };

    ghost matches_eq = { texts_ties };

    fn cmp(&self, other: &Key) -> Ordering {
        self.as_slice().cmp(&other.as_slice())
    }
}
