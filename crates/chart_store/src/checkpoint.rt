//! What a checkpoint says.
//!
//! Its charts are taken from their own bytes, and no file of it is read.

ghost use Rattle.std.specs.Prelude.{◌≡◌, ◌≤◌, IfOk, IfSome, IsTrue, length};
ghost use Rattle.std.specs.Option.{option_copied};
ghost use Rattle.chart_closure.specs.Closed.{IsClosed};
ghost use Rattle.chart_store.specs.Checkpoint.{checkpoint_in, have_closed_charts, is_closed_chart};
ghost use Rattle.chart_store.specs.Loaded.{HELD_LIMIT};

use crate::live::LiveCells;
use chart_closure::{check, first_is_least};
use chart_model::{Cell, HoldingMap};
use chart_pages::{decode_store, states_are_spelled};
use std::alloc::{AllocError, Global};

/// Whether a chart, if there is one, is closed.
fn is_closed_chart(chart: Option<&Cell>) -> bool
    ensures { result ≡ is_closed_chart (option_copied chart.entry) }
{
    match chart {
        Some(chart) => check(chart).is_ok(),
        None => true,
    }
}

/// Whether each chart of the cells is closed.
fn have_closed_charts(cells: &HoldingMap) -> bool
    ensures { result ≡ have_closed_charts cells.now }
{
    for (_, here) in cells.iter() {
        if !is_closed_chart(here.chart.as_ref()) {
            return false;
        }
    }
    true
}

/// The cells that a checkpoint says are held, or none where it says no state.
pub(crate) fn read_checkpoint(
    alloc: Global,
    checkpoint: &[u8],
) -> Result<Option<LiveCells>, AllocError>
    requires { length checkpoint.now ≤ HELD_LIMIT }
    ensures { IfOk result (λ found. found ≡ checkpoint_in checkpoint.now) }
{
    states_are_spelled();
    first_is_least();
    if checkpoint.is_empty() {
        return Ok(Some(LiveCells::new(alloc)));
    }
    let Some(state) = decode_store(alloc, checkpoint)? else {
        return Ok(None);
    };
    if !have_closed_charts(&state.cells) {
        return Ok(None);
    }
    Ok(Some(LiveCells::of_state(state)))
}
