//! The chart that a data set builds.
//!
//! Changes are judged while they are lent, and then given away: the records that they insert take over their lists.

ghost use Rattle.std.specs.Prelude.{◌≡◌, ◌↔◌, ◌≤◌, true, false, None, IfOk, OnOk};
ghost use Rattle.std.specs.Option.{option_copied};
ghost use Rattle.chart_model.specs.Cell.{IsChartHeader};
ghost use Rattle.update_sequence.specs.Answers.{GivesBuilt};
ghost use Rattle.update_sequence.specs.Built.{begun, built, folded, header_after};
ghost use Rattle.update_sequence.specs.Moves.{MOST_MOVES, moves_of};

use crate::draft::Draft;
use crate::fault::BuildFault;
use chart_model::{Cell, ChangeList, Dataset, Header, UpdateRecord};
use std::alloc::{AllocError, Global};
use std::collections::VecDeque;
use update_apply::{Moves, copy_of, judge_change, make_change};

/// The header of a chart after an update: key, agency and scale of the base; edition, update and date
/// of issue of the update.
pub(crate) fn header_after(base: &Header, update: &Header) -> Header
    ensures { result ≡ header_after base.now update.now }
{
    Header {
        edition: update.edition,
        update: update.update,
        issued: update.issued,
        ..*base
    }
}

/// The chart before the first change: without a record where none is held, and else the held one under
/// its new header. It takes no memory.
pub(crate) fn begin(alloc: Global, chart: Option<Cell>, header: &Header) -> Cell
    requires { IsChartHeader header.now }
    ensures { result ≡ begun chart header.now }
{
    let Some(mut cell) = chart else {
        return Cell::new(alloc, *header);
    };
    cell.header = header_after(&cell.header, header);
    cell
}

/// Makes the changes, one after the other. Where they would move more items of lists than the budget lets them, memory
/// is wanting.
#[tactic(auto, unfolding(crate::specs::Built::folded))]
pub(crate) fn make_all(
    alloc: Global,
    cell: Cell,
    changes: VecDeque<UpdateRecord>,
    moves: Moves,
) -> Result<Cell, BuildFault>
    ensures made { GivesBuilt result (folded cell changes.items) }
    ensures within { OnOk result (moves_of cell changes.items ≤ moves) }
{
    let mut cell = cell;
    let mut moves = moves;
    for change in changes {
        judge_change(&cell, &change, &mut moves)?;
        make_change(alloc, &mut cell, change)?;
    }
    Ok(cell)
}

/// Equal changes.
fn copies_of(alloc: Global, changes: &[UpdateRecord]) -> Result<ChangeList, AllocError>
    ensures { IfOk result (λ copies. copies ≡ changes.now) }
{
    let mut copies = Vec::with_capacity(alloc, changes.len())?;
    for change in changes {
        copies.push(copy_of(change)?)?;
    }
    Ok(ChangeList::from_vec(copies))
}

/// A copy of the chart that is held.
fn copy_of_chart(alloc: Global, chart: Option<&Cell>) -> Result<Option<Cell>, AllocError>
    ensures { IfOk result (λ copy. copy ≡ option_copied chart.entry) }
{
    match chart {
        Some(chart) => Ok(Some(chart.copy(alloc)?)),
        None => Ok(None),
    }
}

/// Builds the chart of a data set: its changes, one after the other, on a chart without a record for a
/// base file and on the held one for an update. The chart that the last change leaves has to be
/// closed.
///
/// # Errors
///
/// The fault of the first change that can't be made, or else that of closure; `NoMemory`.
#[tactic(auto, unfolding(crate::specs::Built::built, crate::specs::Draft::finished))]
pub fn build(alloc: Global, chart: Option<&Cell>, dataset: &Dataset) -> Result<Cell, BuildFault>
    requires stands { dataset.now.cancels ≡ false }
    requires held { (option_copied chart ≡ None) ↔ (dataset.now.base ≡ true) }
    ensures built { GivesBuilt result (built (option_copied chart.entry) dataset.now) }

    // A chart is built of no file whose changes may move more items of lists, all together, than the budget has.
    ensures within { OnOk result
        (moves_of (begun (option_copied chart.entry) dataset.now.header) dataset.now.changes ≤ MOST_MOVES) }
{
    let chart = copy_of_chart(alloc, chart)?;
    let changes = copies_of(alloc, dataset.changes.as_slice())?;
    Draft::begun(alloc, chart, dataset.header, changes).finish(alloc)
}
