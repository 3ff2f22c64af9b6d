//! Files that are loaded.
//!
//! Refusals are found in the order in which they are told: the cheap ones, by length and numbers,
//! before a chart is built.

ghost use Rattle.std.specs.Prelude.{◌≡◌, ◌≢◌, ◌+◌, ◌-◌, ◌<◌, ◌≤◌, ℕ, List, Ok, Err, length, IfOk, IfSome, OnOk};
ghost use Rattle.std.specs.Option.{option_copied};
ghost use Rattle.std.specs.FinMap as map;
ghost use Rattle.chart_closure.specs.Closed.{IsClosed};
ghost use Rattle.chart_difference.specs.Difference.{AreChanged};
ghost use Rattle.chart_model.specs.Dataset.{DatasetValue};
ghost use Rattle.chart_model.specs.State.{IsFileLength, IsHolding};
ghost use Rattle.update_sequence.specs.Reading.{data_set_in};
ghost use Rattle.chart_store.specs.Begun.{IsBegun, IsWorkOf};
ghost use Rattle.chart_store.specs.Fault.{GivesBy};
ghost use Rattle.chart_store.specs.Loaded.{HELD_LIMIT, loaded, bytes_of, files_of, live_bytes, store_within, come_to};
ghost use Rattle.chart_store.specs.Loaded.{held_of, chart_of, held_after, cell_after, state_by_effect};
ghost use Rattle.chart_store.specs.Next.{IsNext, GivesNext, GivesNextState};
ghost use Rattle.chart_store.specs.Staging.{IsStagedOn, judged_in, key_in, staged_by, staged_data_set};
ghost use Rattle.chart_store.specs.Taken.{replaced_bytes};
ghost use Rattle.chart_store.specs.declared.next.Naming.TheVariants as Naming;

use crate::fault::TakeFault;
use crate::holding::{chart_of, files_after, held_of};
use crate::live::{CELLS_LIMIT, LiveCells, STORE_LIMIT, bytes_of};
use crate::made::{Made, finish};
use crate::next::{Naming, Next};
use crate::refusal::Refusal;
use crate::staged::Staged;
use crate::work::Work;
use chart_model::{Dataset, Header, Held, Holding, Key, Octets};
use chart_ports::Steps;
use std::alloc::Global;
use std::sync::ledger::Ledger;
use update_sequence::{
    Effect, charts_are_cells, charts_are_closed, files_are_data_sets, headers_follow, judge,
    read_data_set,
};

/// The most bytes of a file that is loaded.
pub const FILE_LIMIT: u64 = 8_388_608;

/// The key of the cell that a data set is of.
fn key_of(dataset: &Dataset) -> Key
    ensures { result ≡ dataset.now.header.key }
{
    dataset.header.key
}

/// The numbers that are held of a cell after a file.
pub(crate) fn held_after(before: Option<&Holding>, effect: Effect, header: &Header) -> Held
    ensures { result ≡ held_after (option_copied before.entry) effect header.now }
{
    let own = Held {
        edition: header.edition,
        update: header.update,
        cancelled: false,
    };
    if effect != Effect::Cancel {
        return own;
    }
    let held = held_of(before).copied().unwrap_or(own);
    Held {
        cancelled: true,
        ..held
    }
}

/// The bytes of the live files that a file replaces.
fn replaced_bytes(before: Option<&Holding>, effect: Effect) -> u64
    requires { bytes_of (files_of (option_copied before)) ≤ HELD_LIMIT }
    ensures { result ≡ replaced_bytes (option_copied before.entry) effect }
{
    match (before, effect) {
        (Some(here), Effect::Replace) => bytes_of(here.files.as_slice()),
        _ => 0,
    }
}

/// The bytes of all live files once a file is taken over.
fn bytes_after(live: &LiveCells, key: Key, effect: Effect, file: &[u8]) -> u64
    requires { IsFileLength (length file.now) }
    ensures { result
        ≡ live_bytes live.now.cells - replaced_bytes (map.get live.now.cells key) effect + length file.now }
{
    let before = live.cells().get(key);
    live.bytes() - replaced_bytes(before, effect) + file.len() as u64
}

/// What is held once a file is taken over, where there is room for it.
fn with_file(
    alloc: Global,
    live: &LiveCells,
    key: Key,
    effect: Effect,
    made: Made,
    file: Octets,
) -> Result<Next, TakeFault>
    requires short { IsFileLength (length file) }
    requires holds { IsHolding key (cell_after (map.get live.now.cells key) effect made.held made.chart file) }
    requires closed { IfSome made.chart IsClosed }
    ensures after { GivesNextState result live.now (store_within (map.insert live.now.cells key
        (cell_after (map.get live.now.cells key) effect made.held made.chart file))) }
    ensures stands { IfOk result (IsNext live.now) }
    ensures key { IfOk result (λ next. next.key ≡ key) }
    ensures held { IfOk result (λ next. next.held ≡ made.held) }
    ensures changed { IfOk result (λ next. next.changed ≡ made.changed) }
    ensures chart { IfOk result (λ next. chart_of next.holding ≡ made.chart) }
{
    let bytes = bytes_after(live, key, effect, file.as_slice());
    if bytes > STORE_LIMIT {
        return Err(TakeFault::Refused(Refusal::StoreFull(bytes)));
    }
    let files = files_after(alloc, live.cells().get(key), effect, file)?;
    let Made {
        held,
        chart,
        changed,
    } = made;
    Ok(Next {
        key,
        held,
        holding: Some(Holding { held, files, chart }),
        bytes,
        changed,
    })
}

/// The work on a data set and its file, as far as it is judged.
fn work_on(
    alloc: Global,
    live: &LiveCells,
    dataset: Dataset,
    naming: Naming,
) -> Result<Work, TakeFault>
    requires { (file : List ℕ) × (data_set_in file ≡ Ok dataset) }
    ensures judged { GivesBy (λ work. work.effect) result
        (judged_in live.now dataset (map.get live.now.cells dataset.header.key)) }
    ensures header { IfOk result (λ work. work.header ≡ dataset.header) }
    ensures before { IfOk result (λ work. work.before ≡ held_of (map.get live.now.cells dataset.header.key)) }
    ensures chart { IfOk result (λ work. work.chart ≡ chart_of (map.get live.now.cells dataset.header.key)) }
    ensures total { IfOk result (λ work. work.total ≡ length dataset.changes) }
    ensures fits { OnOk result (length dataset.changes < 4294967296) }
    ensures done { IfOk result (λ work. work.done ≡ 0) }
    ensures begun { IfOk result (λ work. IsBegun work.chart work.effect dataset 0 work.begun) }
{
    files_are_data_sets();
    let key = key_of(&dataset);
    let before = live.cells().get(key);
    let effect = judge(held_of(before), &dataset)?;
    if live.is_full_for(key) {
        return Err(TakeFault::Refused(Refusal::CellsFull(CELLS_LIMIT)));
    }
    Ok(Work::on(alloc, before, dataset, effect, naming)?)
}

/// Stages a file that is a data set.
fn staged_with(
    alloc: Global,
    live: &LiveCells,
    dataset: Dataset,
    file: Octets,
    naming: Naming,
) -> Result<Staged, TakeFault>
    requires reads { data_set_in file ≡ Ok dataset }
    requires short { IsFileLength (length file) }
    ensures staged { GivesBy (λ staged. staged) result
        (staged_data_set live.now dataset file (map.get live.now.cells dataset.header.key)) }
    ensures on { IfOk result (IsStagedOn live.now) }
    ensures file { IfOk result (λ staged. staged.file ≡ file) }
{
    let work = work_on(alloc, live, dataset, naming)?;
    Ok(Staged { file, work })
}

/// Stages a file by what is held of its cell. Each data record that is come to is a step.
#[tactic(auto, unfolding(crate::specs::Staging::staged_by))]
pub(crate) fn stage<C: Ledger>(
    alloc: Global,
    live: &LiveCells,
    file: Octets,
    naming: Naming,
    steps: &mut Steps<C>,
) -> Result<Staged, TakeFault>
    ensures staged { GivesBy (λ staged. staged) result (staged_by live.now file) }
    ensures on { IfOk result (IsStagedOn live.now) }
    ensures file { IfOk result (λ staged. staged.file ≡ file) }
    ensures read { result ≢ Err TakeFault.NoMemory → steps.new ≡ steps.old + come_to file }
    ensures at_most { steps.new ≤ steps.old + come_to file }
{
    if file.as_slice().len() as u64 > FILE_LIMIT {
        return Err(TakeFault::Refused(Refusal::FileLong(FILE_LIMIT)));
    }
    let dataset = read_data_set(alloc, file.as_slice(), steps)?;
    staged_with(alloc, live, dataset, file, naming)
}

/// What is held once the changes of a file that are left are made, and it is put in.
fn next_by_effect(
    alloc: Global,
    live: &LiveCells,
    file: Octets,
    work: Work,
    naming: Naming,
) -> Result<Next, TakeFault>
    requires is { IsWorkOf file work }
    requires before { held_of (map.get live.now.cells work.header.key) ≡ work.before }
    requires chart { chart_of (map.get live.now.cells work.header.key) ≡ work.chart }
    ensures after { (dataset : DatasetValue) → data_set_in file ≡ Ok dataset → GivesNextState result live.now
        (state_by_effect live.now dataset file (map.get live.now.cells dataset.header.key) work.effect) }
    ensures stands { IfOk result (IsNext live.now) }
    ensures key { IfOk result (λ next. next.key ≡ work.header.key) }
    ensures held { IfOk result (λ next. next.held
        ≡ held_after (map.get live.now.cells work.header.key) work.effect work.header) }
    ensures changed { naming ≡ Naming.Named → IfOk result (λ next.
        AreChanged (chart_of (map.get live.now.cells work.header.key)) (chart_of next.holding) next.changed) }
{
    files_are_data_sets();
    charts_are_closed();
    charts_are_cells();
    headers_follow();
    let Work {
        header,
        effect,
        begun,
        ..
    } = work;
    let before = live.cells().get(header.key);
    let held = held_after(before, effect, &header);
    let made = finish(alloc, chart_of(before), effect, begun, held, naming)?;
    with_file(alloc, live, header.key, effect, made, file)
}

/// What is held once a file that was staged on what is held of its cell is taken over.
pub(crate) fn next_of_work(
    alloc: Global,
    live: &LiveCells,
    file: Octets,
    work: Work,
    naming: Naming,
) -> Result<Next, TakeFault>
    requires is { IsWorkOf file work }
    requires before { held_of (map.get live.now.cells (key_in file)) ≡ work.before }
    requires chart { chart_of (map.get live.now.cells (key_in file)) ≡ work.chart }
    ensures after { GivesNext result live.now (loaded live.now file) }
    ensures stands { IfOk result (IsNext live.now) }
    ensures changed { naming ≡ Naming.Named → IfOk result (λ next.
        AreChanged (chart_of (map.get live.now.cells next.key)) (chart_of next.holding) next.changed) }
{
    if live.is_full_for(work.key()) {
        return Err(TakeFault::Refused(Refusal::CellsFull(CELLS_LIMIT)));
    }
    next_by_effect(alloc, live, file, work, naming)
}

/// What is held once a file is loaded: it is staged, and all its changes are made. Each data record that is come to is a
/// step.
pub(crate) fn next_of_file<C: Ledger>(
    alloc: Global,
    live: &LiveCells,
    file: Octets,
    naming: Naming,
    steps: &mut Steps<C>,
) -> Result<Next, TakeFault>
    ensures after { GivesNext result live.now (loaded live.now file) }
    ensures stands { IfOk result (IsNext live.now) }
    ensures changed { naming ≡ Naming.Named → IfOk result (λ next.
        AreChanged (chart_of (map.get live.now.cells next.key)) (chart_of next.holding) next.changed) }
    ensures read { result ≢ Err TakeFault.NoMemory → steps.new ≡ steps.old + come_to file }
    ensures at_most { steps.new ≤ steps.old + come_to file }
{
    let Staged { file, work } = stage(alloc, live, file, naming, steps)?;
    next_of_work(alloc, live, file, work, naming)
}
