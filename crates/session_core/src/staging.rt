//! A file that is staged: the lines `begin` and `step`.
//!
//! It is read and judged at once, and its changes are made in steps, with all other lines between them. A command that
//! is accepted for its cell meanwhile overtakes it: what it was staged on isn't held any more, so it is not taken over.

ghost use Rattle.std.specs.Prelude.{◌≡◌, ◌≢◌, ◌+◌, ◌≤◌, Err, IfOk, IsTrue, Some, option_map};
ghost use Rattle.chart_model.specs.Answers as answers;
ghost use Rattle.chart_model.specs.State.{StateValue};
ghost use Rattle.chart_store.specs.Loaded.{FILE_LIMIT as LIMIT};
ghost use Rattle.chart_store.specs.Staged.{staged_of};
ghost use Rattle.chart_store.specs.Store.{count_of, state_of};
ghost use Rattle.session_core.specs.declared.fault.EventFault.TheVariants.{DeskFault};
ghost use Rattle.session_core.specs.Answers.{refusal_of_event};
ghost use Rattle.session_core.specs.Fetch.{AreFetched, Fetches, KeepsShelf, file_in};
ghost use Rattle.session_core.specs.Model.{Model, overtaken, overtaken_by, with_staging};
ghost use Rattle.session_core.specs.Session.{GivesEvent, staging_of};
ghost use Rattle.session_core.specs.Staging.{StandsOn, change_turn, stage_turn, staged_in, staging_at};
ghost use Rattle.session_core.specs.Steps.{most_steps_to_stage, records_to_stage};

use crate::fault::EventFault;
use crate::fetch::fetch;
use crate::refusal::LineRefusal;
use chart_ports::{Shelf, Steps};
use chart_store::{Accepted, FILE_LIMIT, Staged, Store, SubmitFault};
use script_reader::{Reply, Word};
use std::alloc::Global;
use std::sync::ledger::Ledger;

/// A file that is staged, and what has overtaken it.
#[derive(Drop)]
pub struct Staging {
    pub staged: Staged,
    /// How many commands had been accepted when it was staged.
    pub begun: u64,
    /// The number of the last command that was accepted since for its cell.
    pub last: Option<u64>,
}

impl Staging {
    /// A file that was staged just now.
    fn new(staged: Staged, begun: u64) -> Staging
        ensures { staging_of result ≡ staging_at begun (staged_of staged) }
    {
        Staging {
            staged,
            begun,
            last: None,
        }
    }

    /// Notes that a command was accepted.
    fn note(&mut self, done: &Accepted)
        ensures { staging_of self.new ≡ overtaken_by done.now.key done.now.count (staging_of self.old) }
    {
        if *self.staged.key() == done.key {
            self.last = Some(done.count);
        }
    }
}

/// Notes that a command was accepted, where a file is staged.
pub fn note(staging: &mut Option<Staging>, done: &Accepted)
    ensures { option_map staging_of staging.new
        ≡ overtaken done.now.key done.now.count (option_map staging_of staging.old) }
{
    if let Some(staging) = staging {
        staging.note(done);
    }
}

/// The file of this name, staged on what a store holds.
fn stage<L: Shelf, C: Ledger>(
    alloc: Global,
    name: Word,
    store: &Store,
    shelf: &mut L,
    steps: &mut Steps<C>,
) -> Result<Staging, EventFault>
    ensures found { (fetches : Fetches)
        × AreFetched L.tells (L.files shelf.old) (L.faults shelf.old) (L.faults shelf.new) fetches
        × answers.GivesBy refusal_of_event staging_of result
        (staged_in (count_of store.now) (state_of store.now) (file_in LIMIT name (fetches LIMIT name)))
        × (steps.new ≤ steps.old + records_to_stage (file_in LIMIT name (fetches LIMIT name))) }
    ensures on { IfOk result (λ staging. StandsOn (state_of store.now) (Some (staging_of staging))) }
    ensures desk { result ≢ Err DeskFault }
    ensures keeps { KeepsShelf L.tells L.files L.faults shelf.old shelf.new }
{
    let file = fetch(alloc, name, FILE_LIMIT, shelf)?;
    let staged = store.stage(alloc, file, steps)?;
    Ok(Staging::new(staged, store.count()))
}

/// Stages the file of this name, unless one is staged, and tells its cell and how many changes it has.
pub fn begin<L: Shelf, C: Ledger>(
    alloc: Global,
    name: Word,
    staging: &mut Option<Staging>,
    store: &Store,
    shelf: &mut L,
    steps: &mut Steps<C>,
) -> Result<Reply, EventFault>
    ensures given { (fetches : Fetches)
        × AreFetched L.tells (L.files shelf.old) (L.faults shelf.old) (L.faults shelf.new) fetches
        × ((model : Model) → model.state ≡ state_of store.now → model.count ≡ count_of store.now →
        model.staging ≡ option_map staging_of staging.old →
        GivesEvent result model (with_staging model (option_map staging_of staging.new))
        (stage_turn model name (fetches LIMIT name) model.staging))
        × (steps.new ≤ steps.old + most_steps_to_stage (option_map staging_of staging.old)
        (file_in LIMIT name (fetches LIMIT name))) }
    ensures on { StandsOn (state_of store.now) (option_map staging_of staging.old) →
        StandsOn (state_of store.now) (option_map staging_of staging.new) }
    ensures desk { result ≢ Err DeskFault }
    ensures keeps { KeepsShelf L.tells L.files L.faults shelf.old shelf.new }
{
    if staging.is_some() {
        return Err(EventFault::Refused(LineRefusal::Busy));
    }
    let begun = stage(alloc, name, store, shelf, steps)?;
    let reply = Reply::Begin(*begun.staged.key(), begun.staged.total());
    *staging = Some(begun);
    Ok(reply)
}

/// Makes the next n changes of the file that is staged, or those that are left where they are fewer, and tells how many
/// are made. Where one of them can't be made nothing is staged any more, so its refusal is a reply already.
pub fn change(alloc: Global, n: u32, staging: &mut Option<Staging>) -> Result<Reply, EventFault>
    ensures given { (model : Model) → model.staging ≡ option_map staging_of staging.old →
        GivesEvent result model (with_staging model (option_map staging_of staging.new))
        (change_turn model n model.staging) }
    ensures on { (state : StateValue) → StandsOn state (option_map staging_of staging.old) →
        StandsOn state (option_map staging_of staging.new) }
    ensures desk { result ≢ Err DeskFault }
{
    let Some(mut begun) = staging.take() else {
        return Err(EventFault::Refused(LineRefusal::NothingBegun));
    };
    match begun.staged.step(alloc, n) {
        Ok(()) => {
            let reply = Reply::Step(begun.staged.done(), begun.staged.total());
            *staging = Some(begun);
            Ok(reply)
        }
        Err(SubmitFault::Refused(refusal)) => Ok(LineRefusal::Store(refusal).reply(alloc)?),
        Err(fault) => Err(EventFault::from(fault)),
    }
}
