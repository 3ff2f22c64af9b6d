//! Charts that are held.
//!
//! A cell that is cancelled has no chart, as one that isn't held has none: whoever asks for a chart, as `draw` and
//! `reissue` do, refuses both in the same way (`no 73`).

ghost use Rattle.std.specs.Prelude.{◌≡◌, List, ℕ, IfSome};
ghost use Rattle.std.specs.Option.{option_copied};
ghost use Rattle.chart_closure.specs.Closed.{IsClosed};
ghost use Rattle.chart_model.specs.Cell.{CellValue};
ghost use Rattle.chart_model.specs.State.{IsState};
ghost use Rattle.chart_store.specs.Store.{state_of};
ghost use Rattle.session_core.specs.Held.{chart_of};

use chart_model::{Cell, HoldingMap, Key};
use chart_store::Store;

/// The cells that a store holds.
pub fn cells_of(store: &Store) -> &HoldingMap
    ensures cells { result.now ≡ (state_of store.now).cells }
    ensures held { IsState (record { cells = result.now }) }
    ensures closed { (key : List ℕ) → IfSome (chart_of result.now key) IsClosed }
{
    &store.state().cells
}

/// The chart of a cell, where the cell is held and not cancelled.
pub fn chart_of<'a>(cells: &'a HoldingMap, key: Key) -> Option<&'a Cell>
    ensures { option_copied result ≡ chart_of cells.now key }
{
    cells.get(key)?.chart.as_ref()
}
