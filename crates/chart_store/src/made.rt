//! What a file makes of its cell.
//!
//! Its changes become the records of the chart: they are given away one after the other, at once or in steps.

ghost use Rattle.std.specs.Prelude.{◌≡◌, ℕ, Option, Some, IfOk, IfSome};
ghost use Rattle.std.specs.Option.{option_copied};
ghost use Rattle.chart_difference.specs.Difference.{AreChanged};
ghost use Rattle.chart_model.specs.Cell.{CellValue};
ghost use Rattle.chart_model.specs.Dataset.{DatasetValue};
ghost use Rattle.update_sequence.specs.declared.effect.Effect.TheVariants as Effect;
ghost use Rattle.chart_store.specs.Begun.{AreOfUpdate, IsBegun, IsDraftOf, chart_finished};
ghost use Rattle.chart_store.specs.Fault.{GivesBy};
ghost use Rattle.chart_store.specs.Loaded.{chart_after};
ghost use Rattle.chart_store.specs.Taken.{MayBuild};
ghost use Rattle.chart_store.specs.declared.next.Naming.TheVariants as Naming;

use crate::changed::{Targets, changed_between, changed_by_update, targets_by};
use crate::fault::TakeFault;
use crate::next::Naming;
use chart_model::{Cell, Dataset, Held, NameList};
use std::alloc::{AllocError, Global};
use update_sequence::{Draft, Effect, drafts_advance, drafts_build_charts};

/// A file whose changes are begun.
#[derive(Drop)]
pub(crate) struct Begun {
    /// The chart that is being built: none where the file cancels its cell, or is given up for want of memory.
    pub draft: Option<Draft>,
    /// The records that the changes of an update name, where they are asked for.
    pub targets: Option<Targets>,
}

/// What a data set makes of its cell: the numbers and the chart then, and the names whose records differ.
#[derive(Drop)]
pub(crate) struct Made {
    pub held: Held,
    pub chart: Option<Cell>,
    pub changed: NameList,
}

/// Begins the changes of an update.
fn begin_update(
    alloc: Global,
    chart: &Cell,
    dataset: Dataset,
    naming: Naming,
) -> Result<Begun, AllocError>
    requires { MayBuild (Some chart.now) Effect.Extend dataset }
    ensures { IfOk result (IsBegun (Some chart.now) Effect.Extend dataset 0) }
{
    drafts_advance();
    let targets = targets_by(alloc, naming, dataset.changes.as_slice())?;
    let draft = Draft::of_update(alloc, chart, dataset)?;
    Ok(Begun {
        draft: Some(draft),
        targets,
    })
}

/// Begins the changes of a data set, as it was judged.
pub(crate) fn begin(
    alloc: Global,
    before: Option<&Cell>,
    dataset: Dataset,
    effect: Effect,
    naming: Naming,
) -> Result<Begun, AllocError>
    requires { MayBuild (option_copied before) effect dataset }
    ensures { IfOk result (IsBegun (option_copied before.entry) effect dataset 0) }
{
    drafts_advance();
    match (effect, before) {
        (Effect::Extend, Some(chart)) => begin_update(alloc, chart, dataset, naming),
        (Effect::Extend, None) => unreachable!(),
        (Effect::Replace, _) => Ok(Begun {
            draft: Some(Draft::of_base(alloc, dataset)),
            targets: None,
        }),
        (Effect::Cancel, _) => Ok(Begun {
            draft: None,
            targets: None,
        }),
    }
}

/// The chart that a draft comes to.
fn chart_of_draft(alloc: Global, draft: Draft) -> Result<Option<Cell>, TakeFault>
    ensures { GivesBy (λ after. after) result (chart_finished draft) }
{
    Ok(Some(draft.finish(alloc)?))
}

/// The chart once all changes are made: none where the file cancels its cell.
fn finished(alloc: Global, effect: Effect, draft: Option<Draft>) -> Result<Option<Cell>, TakeFault>
    ensures { (chart : Option CellValue) (dataset : DatasetValue) (done : ℕ) → MayBuild chart effect dataset →
        IfSome draft (IsDraftOf chart dataset done) →
        GivesBy (λ after. after) result (chart_after chart effect dataset) }
{
    drafts_advance();
    drafts_build_charts();
    if effect == Effect::Cancel {
        return Ok(None);
    }
    let Some(draft) = draft else {
        return Err(TakeFault::NoMemory);
    };
    chart_of_draft(alloc, draft)
}

/// The names whose records differ, where they are worked out.
fn changed_by(
    alloc: Global,
    naming: Naming,
    before: Option<&Cell>,
    now: Option<&Cell>,
    targets: Option<Targets>,
) -> Result<NameList, AllocError>
    requires { IfSome targets (λ targets. AreOfUpdate targets (option_copied before) (option_copied now)) }
    ensures { naming ≡ Naming.Named →
        IfOk result (AreChanged (option_copied before.entry) (option_copied now.entry)) }
{
    match targets {
        Some(targets) => changed_by_update(alloc, before, now, targets),
        None => changed_between(alloc, naming, before, now),
    }
}

/// What a file makes of its cell, by the numbers that are held then: the changes that are left are made.
pub(crate) fn finish(
    alloc: Global,
    before: Option<&Cell>,
    effect: Effect,
    begun: Begun,
    held: Held,
    naming: Naming,
) -> Result<Made, TakeFault>
    requires { (dataset : DatasetValue) × (done : ℕ) × IsBegun (option_copied before) effect dataset done begun }
    ensures chart { (dataset : DatasetValue) (done : ℕ) → IsBegun (option_copied before.entry) effect dataset done begun →
        GivesBy (λ made. made.chart) result (chart_after (option_copied before.entry) effect dataset) }
    ensures held { IfOk result (λ made. made.held ≡ held) }
    ensures changed { naming ≡ Naming.Named →
        IfOk result (λ made. AreChanged (option_copied before.entry) made.chart made.changed) }
{
    let Begun { draft, targets } = begun;
    let chart = finished(alloc, effect, draft)?;
    let changed = changed_by(alloc, naming, before, chart.as_ref(), targets)?;
    Ok(Made {
        held,
        chart,
        changed,
    })
}

/// What a data set makes of its cell, as it was judged: by the effect and the numbers that are held then.
pub(crate) fn made_by(
    alloc: Global,
    before: Option<&Cell>,
    dataset: Dataset,
    effect: Effect,
    held: Held,
    naming: Naming,
) -> Result<Made, TakeFault>
    requires { MayBuild (option_copied before) effect dataset }
    ensures chart { GivesBy (λ made. made.chart) result (chart_after (option_copied before.entry) effect dataset) }
    ensures held { IfOk result (λ made. made.held ≡ held) }
    ensures changed { naming ≡ Naming.Named →
        IfOk result (λ made. AreChanged (option_copied before.entry) made.chart made.changed) }
{
    let begun = begin(alloc, before, dataset, effect, naming)?;
    finish(alloc, before, effect, begun, held, naming)
}
