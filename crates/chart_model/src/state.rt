//! The cells that are held: their files and their charts.
//!
//! The live files are kept whole beside the chart that they build: a rollback builds the chart of the first of them
//! anew, and whether a file may follow is asked of the numbers that the last ones left.

ghost use Rattle.std.specs.Prelude.{◌≡◌, IfOk};

use crate::cell::Cell;
use crate::key_map::KeyMap;
use crate::octets::Octets;
use crate::sequence::Sequence;
use crate::shared::Shared;
use std::alloc::{AllocError, Global};
use std::marker::Model;

/// The edition and the update of a cell that is held: those of its last file that doesn't cancel it.
#[derive(Clone, Copy, Debug, PartialEq, Eq)]
pub struct Held {
    pub edition: u32,
    pub update: u32,
    /// Whether the last file cancels the cell.
    pub cancelled: bool,
}

/// Whole files in order, each at most 8,388,608 bytes. Copies of a list share its files.
pub type FileList = Sequence<Shared<Octets>>;

/// What is held of one cell: its live files, the base file first, and the chart that they build. A
/// cancelled cell has no chart.
#[derive(Debug, Drop)]
pub struct Holding {
    pub held: Held,
    pub files: FileList,
    pub chart: Option<Cell>,
}

impl Clone for Holding {
    ghost is_clone = { λ holding copy. copy ≡ holding };

    fn clone(&self) -> Result<Holding, AllocError> {
        Ok(Holding {
            held: self.held,
            files: self.files.clone()?,
            chart: self.chart.clone()?,
        })
    }
}

/// What is held, by the keys of the cells.
pub type HoldingMap = KeyMap<Holding>;

/// The cells that are held.
#[derive(Debug, Drop)]
pub struct State {
    pub cells: HoldingMap,
}

impl Model for State {
    ghost use Rattle.chart_model.specs.State.{StateValue, IsState, state_code};

    ghost Value = { StateValue };

    ghost coded = { state_code };

    ghost view = { λ state. record { cells = state.cells } };

    ghost invariant = { λ state. IsState (record { cells = state.cells }) };
}

impl State {
    /// An equal state.
    pub fn copy(&self, _alloc: Global) -> Result<State, AllocError>
        ensures { IfOk result (λ copy. copy ≡ self.now) }
    {
        Ok(State {
            cells: self.cells.clone()?,
        })
    }
}
