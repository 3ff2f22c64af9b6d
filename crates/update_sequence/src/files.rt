//! The chart that a list of whole files builds.
//!
//! The files were accepted before, so no fault of theirs is left to be told.

ghost use Rattle.std.specs.Prelude.{◌≡◌, ◌+◌, ◌≤◌, false, List, ℕ, IfOk, OnOk, IsOk};
ghost use Rattle.update_sequence.specs.Built.{built};
ghost use Rattle.update_sequence.specs.Rebuilt.{chart_with, rebuilt, data_records_of};
ghost use Rattle.update_sequence.specs.Sequence.{IsUpdateSequence};

use crate::draft::Draft;
use crate::read::read_data_set;
use chart_model::{Cell, Dataset, FileList};
use chart_ports::Steps;
use std::alloc::{AllocError, Global};
use std::sync::ledger::Ledger;

/// The chart after one more data set, which is known to build one unless it cancels the cell. So its closure isn't
/// checked again.
fn follow(alloc: Global, chart: Option<Cell>, dataset: Dataset) -> Result<Option<Cell>, AllocError>
    requires { dataset.cancels ≡ false → IsOk (built chart dataset) }
    ensures { IfOk result (λ after. after ≡ chart_with chart dataset) }
{
    if dataset.cancels {
        return Ok(None);
    }
    let draft = Draft::begun(alloc, chart, dataset.header, dataset.changes);
    match draft.make_rest(alloc) {
        Ok(cell) => Ok(Some(cell)),
        Err(_) => Err(AllocError),
    }
}

/// The chart that whole files build, one after the other from nothing; `None` where the last one
/// cancels the cell. Each data record of the files is a step.
///
/// The list is an update sequence: its first file is a base file, the others are updates of that cell, and each was
/// taken over after those before it. So only memory can be wanting.
pub fn rebuild<C: Ledger>(
    alloc: Global,
    files: &FileList,
    steps: &mut Steps<C>,
) -> Result<Option<Cell>, AllocError>
    requires { (key : List ℕ) × IsUpdateSequence key files.now }
    ensures chart { IfOk result (λ chart. chart ≡ rebuilt files.now) }
    ensures counted { OnOk result (steps.new ≡ steps.old + data_records_of files.now) }
    ensures at_most { steps.new ≤ steps.old + data_records_of files.now }
{
    let mut chart = None;
    for file in files.as_slice() {
        let Ok(dataset) = read_data_set(alloc, file.get().as_slice(), steps) else {
            return Err(AllocError);
        };
        chart = follow(alloc, chart, dataset)?;
    }
    Ok(chart)
}
