//! The cells of which a depth is drawn.
//!
//! A depth of up to 9,999,999 centimetres has five digits of metres at most, and perhaps a sign before them. So six
//! places are enough, and digits take no memory.

ghost use Rattle.std.specs.Prelude.{◌≡◌, ◌+◌, ◌≤◌, ◌++◌, [], length};

use arrayvec::ArrayVec;
use std::marker::Model;

/// Up to six cells of two bytes. Contracts see their list.
#[derive(Debug, Drop)]
pub struct CellList {
    cells: ArrayVec<[u8; 2], 6>,
}

impl Model for CellList {
    ghost use Rattle.std.specs.Prelude.{List, ℕ};

    ghost Value = { List (List ℕ) };

    ghost view = { λ list. list.cells.items };
}

impl CellList {
    /// No cell.
    pub(crate) fn new() -> CellList
        ensures { result ≡ [] }
    {
        CellList {
            cells: ArrayVec::new(),
        }
    }

    /// Adds cells at the end.
    pub(crate) fn push_all(&mut self, cells: &[[u8; 2]])
        requires { length self.old + length cells.now ≤ 6 }
        ensures { self.new ≡ self.old ++ cells.now }
    {
        for cell in cells {
            self.cells.push(*cell);
        }
    }

    /// The cells, from left to right. It takes no memory.
    pub fn as_slice(&self) -> &[[u8; 2]]
        ensures cells { result.now ≡ self.now }
        ensures few { length self.now ≤ 6 }
    {
        self.cells.as_slice()
    }
}
