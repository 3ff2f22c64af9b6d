//! Cells that are rolled back.
//!
//! The files of the cell are taken over anew, one after the other from nothing, until the first that may be the last: so
//! the chart is the one that they leave, and files that could not be taken over so are no list to go back to.

ghost use Rattle.std.specs.Prelude.{◌≡◌, ◌↔◌, ◌==◌, ◌+◌, ◌*◌, ◌&&◌, ◌≤◌, ◌∷◌, ◌++◌, [], ℕ, true, Ok, Some, None, not};
ghost use Rattle.std.specs.Prelude.{All, IfOk, IfSome, IfNone, IsTrue, length};
ghost use Rattle.std.specs.Option.{option_copied};
ghost use Rattle.std.specs.FinMap as map;
ghost use Rattle.chart_difference.specs.Difference.{AreChanged};
ghost use Rattle.chart_model.specs.Dataset.{IsDataset};
ghost use Rattle.chart_model.specs.State.{IsFileLength};
ghost use Rattle.iso8211_records.specs.RecordFile.{data_records_in};
ghost use Rattle.update_sequence.specs.Reading.{data_set_in, tags_read};
ghost use Rattle.update_sequence.specs.Rebuilt.{data_records_of};
ghost use Rattle.update_sequence.specs.Sequence.{Follows, is_in_order};
ghost use Rattle.chart_store.specs.Following.{CanFollow, IsKeptWith, LeavesBehind};
ghost use Rattle.chart_store.specs.KeptFiles.{kept_by};
ghost use Rattle.chart_store.specs.Live.{IsLive};
ghost use Rattle.chart_store.specs.Loaded.{chart_of, files_of};
ghost use Rattle.chart_store.specs.Next.{IsNext, GivesNext};
ghost use Rattle.chart_store.specs.Outcome.{outcome_of_rollback};
ghost use Rattle.chart_store.specs.declared.next.Naming.TheVariants as Naming;

use crate::changed::changed_between;
use crate::fault::TakeFault;
use crate::holding::{chart_of, held_of};
use crate::live::{LiveCells, bytes_of};
use crate::load::held_after;
use crate::made::{Made, made_by};
use crate::next::{Naming, Next};
use crate::refusal::Refusal;
use chart_model::{Dataset, FileList, Holding, Key, Octets, Shared};
use chart_ports::Steps;
use std::alloc::{AllocError, Global};
use std::sync::ledger::Ledger;
use update_sequence::{
    ReadFault, accepted_files_follow, files_are_data_sets, judge, one_file_more, read_data_set,
    sequences_are_held, sequences_are_tested, sequences_grow,
};

/// Whether a data set is one of the cell, and stands in order: a base file comes first, and no other does.
fn is_in_order(key: Key, kept: Option<&Holding>, dataset: &Dataset) -> bool
    requires { IfSome (option_copied kept) (IsLive key) }
    ensures { IsTrue result ↔ ((dataset.now.header.key ≡ key)
        × (is_in_order dataset.now.base (files_of (option_copied kept.entry)) ≡ true)) }
{
    let in_order = match kept {
        Some(_) => !dataset.base,
        None => dataset.base,
    };
    in_order && dataset.header.key == key
}

/// What a data set leaves behind the files that are kept of its cell, or none where it can't follow them.
fn made_behind(
    alloc: Global,
    key: Key,
    kept: Option<&Holding>,
    dataset: Dataset,
) -> Result<Option<Made>, AllocError>
    requires kept { IfSome (option_copied kept) (IsLive key) }
    requires is { IsDataset dataset }
    requires order { dataset.base ≡ true → option_copied kept ≡ None }
    ensures made { IfOk result (λ found. IfSome found (λ made.
        LeavesBehind (option_copied kept.entry) dataset made.held made.chart)) }
    ensures none { IfOk result (λ found. IfNone found (¬ CanFollow (option_copied kept.entry) dataset)) }
{
    sequences_are_held();
    let Ok(effect) = judge(held_of(kept), &dataset) else {
        return Ok(None);
    };
    let held = held_after(kept, effect, &dataset.header);
    match made_by(
        alloc,
        chart_of(kept),
        dataset,
        effect,
        held,
        Naming::Unnamed,
    ) {
        Ok(made) => Ok(Some(made)),
        Err(TakeFault::Refused(_)) => Ok(None),
        Err(TakeFault::NoMemory) => Err(AllocError),
    }
}

/// What is kept with one file more, whose bytes are shared.
fn with_file(
    alloc: Global,
    kept: Option<Holding>,
    made: Made,
    file: &Shared<Octets>,
) -> Result<Holding, AllocError>
    ensures held { IfOk result (λ after. after.held ≡ made.held) }
    ensures chart { IfOk result (λ after. after.chart ≡ made.chart) }
    ensures files { IfOk result (λ after. after.files ≡ files_of kept ++ file.now ∷ []) }
{
    let mut files = match kept {
        Some(here) => here.files,
        None => FileList::new(alloc),
    };
    files.push(file.clone()?)?;
    Ok(Holding {
        held: made.held,
        files,
        chart: made.chart,
    })
}

/// What is kept of a cell with one file more, which is read as a data set, or none where it may not follow.
fn kept_with_data_set(
    alloc: Global,
    key: Key,
    kept: Option<Holding>,
    dataset: Dataset,
    file: &Shared<Octets>,
) -> Result<Option<Holding>, AllocError>
    requires kept { IfSome kept (IsLive key) }
    requires short { IsFileLength (length file.now) }
    requires reads { data_set_in file.now ≡ Ok dataset }
    ensures some { IfOk result (λ found. IfSome found (IsKeptWith key kept file.now)) }
    ensures none { IfOk result (λ found. IfNone found (¬ Follows key (files_of kept) file.now)) }
{
    one_file_more();
    accepted_files_follow();
    files_are_data_sets();
    if !is_in_order(key, kept.as_ref(), &dataset) {
        return Ok(None);
    }
    let Some(made) = made_behind(alloc, key, kept.as_ref(), dataset)? else {
        return Ok(None);
    };
    Ok(Some(with_file(alloc, kept, made, file)?))
}

/// What is kept of a cell with one file more, or none where it may not follow. Its data records are steps.
fn kept_with<C: Ledger>(
    alloc: Global,
    key: Key,
    kept: Option<Holding>,
    file: &Shared<Octets>,
    steps: &mut Steps<C>,
) -> Result<Option<Holding>, AllocError>
    requires kept { IfSome kept (IsLive key) }
    requires short { IsFileLength (length file.now) }
    ensures some { IfOk result (λ found. IfSome found (IsKeptWith key kept file.now)) }
    ensures none { IfOk result (λ found. IfNone found (¬ Follows key (files_of kept) file.now)) }
    ensures at_most { steps.new ≤ steps.old + data_records_in tags_read file.now }
{
    match read_data_set(alloc, file.get().as_slice(), steps) {
        Ok(dataset) => kept_with_data_set(alloc, key, kept, dataset, file),
        Err(ReadFault::NoMemory) => Err(AllocError),
        Err(_) => Ok(None),
    }
}

/// Whether what is kept ends with a file that has the update number and doesn't cancel the cell.
fn has_number(kept: &Holding, number: u32) -> bool
    ensures { result ≡ (not kept.now.held.cancelled && (kept.now.held.update == number)) }
{
    !kept.held.cancelled && kept.held.update == number
}

/// What is held of a cell by its files up to the first that has an update number, doesn't cancel the cell and may be the
/// last, or none where there is none. Each of their data records is a step.
fn kept_by<C: Ledger>(
    alloc: Global,
    key: Key,
    files: &FileList,
    number: u32,
    steps: &mut Steps<C>,
) -> Result<Option<Holding>, AllocError>
    requires short { All (λ file. IsFileLength (length file)) files.now }
    ensures kept { IfOk result (λ found. IfSome found (λ kept. kept_by key number files.now ≡ Some kept.files)) }
    ensures live { IfOk result (λ found. IfSome found (IsLive key)) }
    ensures none { IfOk result (λ found. IfNone found (kept_by key number files.now ≡ None)) }
    ensures at_most { steps.new ≤ steps.old + data_records_of files.now }
{
    one_file_more();
    sequences_grow();
    sequences_are_tested();
    let mut kept = None;
    for file in files.as_slice() {
        let Some(after) = kept_with(alloc, key, kept, file, steps)? else {
            return Ok(None);
        };
        if has_number(&after, number) {
            return Ok(Some(after));
        }
        kept = Some(after);
    }
    Ok(None)
}

/// What is held of a cell once these of its files are kept.
fn next_with(
    alloc: Global,
    live: &LiveCells,
    key: Key,
    here: &Holding,
    kept: Holding,
    naming: Naming,
) -> Result<Next, AllocError>
    requires here { map.get live.now.cells key ≡ Some here.now }
    requires kept { (number : ℕ) × (kept_by key number here.now.files ≡ Some kept.files) }
    requires live { IsLive key kept }
    ensures stands { IfOk result (IsNext live.now) }
    ensures key { IfOk result (λ next. next.key ≡ key) }
    ensures held { IfOk result (λ next. next.held ≡ kept.held) }
    ensures holding { IfOk result (λ next. next.holding ≡ Some kept) }
    ensures changed { naming ≡ Naming.Named →
        IfOk result (λ next. AreChanged here.now.chart (chart_of next.holding) next.changed) }
{
    sequences_are_held();
    let changed = changed_between(alloc, naming, here.chart.as_ref(), kept.chart.as_ref())?;
    let bytes = live.bytes() - bytes_of(here.files.as_slice()) + bytes_of(kept.files.as_slice());
    Ok(Next {
        key,
        held: kept.held,
        holding: Some(kept),
        bytes,
        changed,
    })
}

/// What is held once a cell is rolled back to an update number. Each file is read at most once.
pub(crate) fn next_of_rollback<C: Ledger>(
    alloc: Global,
    live: &LiveCells,
    key: Key,
    number: u32,
    naming: Naming,
    steps: &mut Steps<C>,
) -> Result<Next, TakeFault>
    ensures after { GivesNext result live.now (outcome_of_rollback live.now key number) }
    ensures stands { IfOk result (IsNext live.now) }
    ensures changed { naming ≡ Naming.Named → IfOk result (λ next.
        AreChanged (chart_of (map.get live.now.cells next.key)) (chart_of next.holding) next.changed) }
    ensures at_most { steps.new ≤ steps.old + 2 * data_records_of (files_of (map.get live.now.cells key)) }
{
    let Some(here) = live.cells().get(key) else {
        return Err(TakeFault::Refused(Refusal::NoCell(key)));
    };
    let Some(kept) = kept_by(alloc, key, &here.files, number, steps)? else {
        return Err(TakeFault::Refused(Refusal::NoUpdate {
            key,
            update: number,
        }));
    };
    Ok(next_with(alloc, live, key, here, kept, naming)?)
}
