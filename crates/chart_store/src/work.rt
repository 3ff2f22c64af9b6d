//! The work on a file that was read and judged.
//!
//! It stands apart from the file, whose bytes are kept as they came, and from what is held, which stays as it was.

ghost use Rattle.std.specs.Prelude.{◌≡◌, ◌≢◌, ◌+◌, ◌≤◌, ◌<◌, ◌^◌, ℕ, min, length, Ok, Err, IfErr, IfOk, OnOk, take};
ghost use Rattle.std.specs.Option.{option_copied};
ghost use Rattle.chart_store.specs.Begun.{IsBegun, Stops};
ghost use Rattle.chart_store.specs.Loaded.{chart_of, held_of};
ghost use Rattle.chart_store.specs.Taken.{MayBuild};
ghost use Rattle.update_sequence.specs.Draft.{Advances};
ghost use Rattle.chart_store.specs.declared.fault.TakeFault.TheVariants as TakeFault;
ghost use Rattle.chart_store.specs.declared.refusal.Refusal.{Refusal};

use crate::fault::TakeFault;
use crate::holding::{chart_of, held_of};
use crate::made::{Begun, begin};
use crate::next::Naming;
use chart_model::{Cell, Dataset, Header, Held, Holding, Key};
use std::alloc::{AllocError, Global};
use update_sequence::{Draft, Effect, drafts_advance};

/// The work on a file: what it was judged by, and how far it has come.
#[derive(Drop)]
pub(crate) struct Work {
    pub header: Header,
    /// The numbers that were held of its cell when it was judged.
    pub before: Option<Held>,
    /// The chart that was held of it.
    pub chart: Option<Cell>,
    pub effect: Effect,
    pub begun: Begun,
    /// How many changes the file has.
    pub total: u32,
    /// How many of them are made.
    pub done: u32,
}

/// An equal chart, which shares its records.
fn copy_of(alloc: Global, chart: Option<&Cell>) -> Result<Option<Cell>, AllocError>
    ensures { IfOk result (λ copy. copy ≡ option_copied chart.entry) }
{
    match chart {
        Some(chart) => Ok(Some(chart.copy(alloc)?)),
        None => Ok(None),
    }
}

/// How many changes a data set has. More than 32 bits count are in no file.
fn count_of(dataset: &Dataset) -> Result<u32, AllocError>
    ensures count { IfOk result (λ count. count ≡ length dataset.now.changes) }
    ensures fits { OnOk result (length dataset.now.changes < 4294967296) }
{
    u32::try_from(dataset.changes.as_slice().len()).map_err(|_| AllocError)
}

impl Work {
    /// The cell that the file is of.
    pub(crate) fn key(&self) -> Key
        ensures { result ≡ self.now.header.key }
    {
        self.header.key
    }

    /// The work on a data set, as it was judged by what is held of its cell. None of its changes is made.
    pub(crate) fn on(
        alloc: Global,
        here: Option<&Holding>,
        dataset: Dataset,
        effect: Effect,
        naming: Naming,
    ) -> Result<Work, AllocError>
        requires { MayBuild (chart_of (option_copied here)) effect dataset }
        ensures header { IfOk result (λ work. work.header ≡ dataset.header) }
        ensures before { IfOk result (λ work. work.before ≡ held_of (option_copied here.entry)) }
        ensures chart { IfOk result (λ work. work.chart ≡ chart_of (option_copied here.entry)) }
        ensures effect { IfOk result (λ work. work.effect ≡ effect) }
        ensures total { IfOk result (λ work. work.total ≡ length dataset.changes) }
        ensures fits { OnOk result (length dataset.changes < 4294967296) }
        ensures done { IfOk result (λ work. work.done ≡ 0) }
        ensures begun { IfOk result (λ work. IsBegun work.chart effect dataset 0 work.begun) }
    {
        let header = dataset.header;
        let total = count_of(&dataset)?;
        let chart = copy_of(alloc, chart_of(here))?;
        let begun = begin(alloc, chart.as_ref(), dataset, effect, naming)?;
        Ok(Work {
            header,
            before: held_of(here).copied(),
            chart,
            effect,
            begun,
            total,
            done: 0,
        })
    }
}

/// Makes the next changes of a draft, or those that are left where they are fewer, and counts them.
///
/// # Errors
///
/// The fault of the first change that can't be made; those before it are made then.
pub(crate) fn make(
    alloc: Global,
    draft: &mut Draft,
    n: u32,
    done: &mut u32,
) -> Result<(), TakeFault>
    requires { done.old + length draft.old.rest < 2 ^ 32 }
    ensures made { OnOk result (Advances draft.old draft.new (min n (length draft.old.rest))) }
    ensures counted { OnOk result (done.new ≡ done.old + min n (length draft.old.rest)) }
    ensures stopped { IfErr result (λ told. (refusal : Refusal) → told ≡ TakeFault.Refused refusal →
        Stops done.old done.new n refusal draft.old draft.new) }
    ensures no_fewer { done.old ≤ done.new }
    ensures no_more { done.new ≤ done.old + n }
    ensures within { done.new ≤ done.old + length draft.old.rest }
{
    drafts_advance();
    for _ in 0..n {
        if draft.left() == 0 {
            return Ok(());
        }
        draft.make_next(alloc)?;
        *done += 1;
    }
    Ok(())
}
