//! A few bytes, in place.
//!
//! A chart has many texts of attributes, and most are short: a block of memory for each would cost
//! more than its bytes.

ghost use Rattle.std.specs.Prelude.{◌≡◌, ◌≤◌, length};
ghost use Rattle.std.specs.Option.{SomeIff};

use std::marker::Model;

/// The most bytes that stand in place: as many as take no more room than a vector does.
const LIMIT: usize = 23;

/// At most 23 bytes, in place, so that they take no memory of their own. Contracts see a list of bytes.
#[derive(Drop)]
pub(crate) struct Short {
    cells: [u8; 23],
    len: u8,
}

impl Model for Short {
    ghost use Rattle.std.specs.Prelude.{◌≡◌, ◌≤◌, List, ℕ, length, take};

    ghost Value = { List ℕ };

    ghost view = { λ short. take short.len short.cells };

    ghost invariant = { λ short. (short.len ≤ 23) × (length short.cells ≡ 23) };
}

impl Short {
    /// These bytes, where they are few enough.
    pub(crate) fn of(bytes: &[u8]) -> Option<Short>
        ensures { SomeIff result (length bytes.now ≤ 23) bytes.now }
    {
        if bytes.len() > LIMIT {
            return None;
        }
        let mut cells = [0; 23];
        cells[..bytes.len()].copy_from_slice(bytes);
        Some(Short {
            cells,
            len: bytes.len() as u8,
        })
    }

    /// The same bytes.
    pub(crate) fn copy(&self) -> Short
        ensures { result ≡ self.now }
    {
        Short {
            cells: self.cells,
            len: self.len,
        }
    }

    /// The bytes.
    pub(crate) fn as_slice(&self) -> &[u8]
        ensures { result.now ≡ self.now }
    {
        &self.cells[..self.len as usize]
    }
}
