//! Stores that are given a file in steps, with other work between them.
//!
//! A commit may be asked for only where what is held of the cell is as it was when the file was staged. So a command
//! that is accepted for that cell takes the staged file away.

ghost use Rattle.std.specs.Prelude.{◌≡◌, ◌≢◌, ◌<◌, Some, IfOk, IfSome};
ghost use Rattle.chart_store.specs.Staging.{key_in};

use crate::files::{Given, command_of, file_of};
use crate::stores::Told;
use crate::texts::{refused, shown, submitted};
use chart_ports::{Desk, Steps};
use chart_store::{
    Accepted, Staged, Store, SubmitFault, begun_saves_are_kept, commands_change_their_cell_alone,
    open_store,
};
use std::alloc::{AllocError, Global};
use std::marker::Brand;
use std::sync::ledger::{Blank, Ledger};

/// What is done with a store.
#[derive(Clone, Copy)]
pub enum Move<'a> {
    /// Stages a file with these data records.
    Stage(&'a [&'a [u8]]),
    /// Makes so many of its changes.
    Step(u32),
    Commit,
    Submit(Given<'a>),
    /// Begins to save what is held.
    Save,
    /// Writes a slice of the save.
    Slice,
}

/// A store, and the file that is staged on what it holds.
#[derive(Drop)]
struct Run {
    store: Store,
    staged: Option<Staged>,
}

/// The staged file, unless a command of its cell was accepted.
fn not_overtaken(staged: Option<Staged>, answer: &Result<Accepted, SubmitFault>) -> Option<Staged>
    ensures same { IfSome result (λ still. staged ≡ Some still) }
    ensures other { IfOk answer.now (λ done. IfSome result (λ still. key_in still.file ≢ done.key)) }
{
    let staged = staged?;
    match answer {
        Ok(done) if done.key == *staged.key() => None,
        _ => Some(staged),
    }
}

impl Run {
    ghost use Rattle.std.specs.Prelude.{◌≡◌, ◌⊎◌, ◌+◌, ◌<◌, ◌≤◌, ℕ, IsTrue};
    ghost use Rattle.chart_store.specs.Saving.{HasBegun};
    ghost use Rattle.chart_store.specs.Staging.{IsStagedOn};
    ghost use Rattle.chart_store.specs.Store.{IsKept, count_of, is_sound, state_of, store_of};

    /// How far the staged file is.
    fn progress(&self, alloc: Global) -> Result<String, AllocError> {
        let Some(staged) = &self.staged else {
            return String::from_str(alloc, "nothing is staged");
        };
        let key = String::from_utf8_lossy(alloc, staged.key().as_slice())?;
        format!(in alloc; "{key} {}/{}", staged.done(), staged.total())
    }

    /// Stages a file.
    fn stage<C: Ledger>(
        &mut self,
        alloc: Global,
        steps: &mut Steps<C>,
        records: &[&[u8]],
    ) -> Result<String, AllocError>
        ensures same { self.new.store ≡ self.old.store }
        ensures on { IfSome self.new.staged (IsStagedOn (state_of self.new.store)) }
    {
        self.staged = None;
        match self.store.stage(alloc, file_of(alloc, records)?, steps) {
            Ok(staged) => self.staged = Some(staged),
            Err(fault) => return refused(alloc, &fault),
        }
        self.progress(alloc)
    }

    /// Makes some of the changes of the staged file.
    fn step(&mut self, alloc: Global, n: u32) -> Result<String, AllocError>
        requires on { IfSome self.old.staged (IsStagedOn (state_of self.old.store)) }
        ensures same { self.new.store ≡ self.old.store }
        ensures on { IfSome self.new.staged (IsStagedOn (state_of self.new.store)) }
    {
        let Some(mut staged) = self.staged.take() else {
            return self.progress(alloc);
        };
        let answer = staged.step(alloc, n);
        self.staged = Some(staged);
        let progress = self.progress(alloc)?;
        match answer {
            Ok(()) => Ok(progress),
            Err(fault) => format!(in alloc; "{progress} {}", refused(alloc, &fault)?),
        }
    }

    /// Takes the staged file over.
    fn commit<D: Desk>(&mut self, alloc: Global, desk: &mut D) -> Result<String, AllocError>
        requires sound { IsTrue (is_sound self.old.store) }
        requires count { count_of self.old.store < 9223372036854775808 }
        requires kept { IsTrue D.tells → IsKept (D.contents desk.old) (D.may_leave desk.old) self.old.store }
        requires on { IfSome self.old.staged (IsStagedOn (state_of self.old.store)) }
        ensures count { count_of self.new.store ≤ count_of self.old.store + 1 }
        ensures kept { IsTrue D.tells → IsTrue (is_sound self.new.store) →
            IsKept (D.contents desk.new) (D.may_leave desk.new) self.new.store }
        ensures on { IfSome self.new.staged (IsStagedOn (state_of self.new.store)) }
    {
        let Some(staged) = self.staged.take() else {
            return self.progress(alloc);
        };
        let answer = self.store.commit(alloc, staged, desk);
        submitted(alloc, &answer)
    }

    /// Gives the store a command. One of the cell of the staged file takes that away.
    fn submit<D: Desk, C: Ledger>(
        &mut self,
        alloc: Global,
        desk: &mut D,
        steps: &mut Steps<C>,
        given: Given,
    ) -> Result<String, AllocError>
        requires sound { IsTrue (is_sound self.old.store) }
        requires count { count_of self.old.store < 9223372036854775808 }
        requires kept { IsTrue D.tells → IsKept (D.contents desk.old) (D.may_leave desk.old) self.old.store }
        requires on { IfSome self.old.staged (IsStagedOn (state_of self.old.store)) }
        ensures count { count_of self.new.store ≤ count_of self.old.store + 1 }
        ensures kept { IsTrue D.tells → IsTrue (is_sound self.new.store) →
            IsKept (D.contents desk.new) (D.may_leave desk.new) self.new.store }
        ensures on { IfSome self.new.staged (IsStagedOn (state_of self.new.store)) }
    {
        commands_change_their_cell_alone();
        let command = command_of(alloc, given)?;
        let staged = self.staged.take();
        let answer = self.store.submit(alloc, command, desk, steps);
        self.staged = not_overtaken(staged, &answer);
        submitted(alloc, &answer)
    }

    /// Begins to save what is held, where no save is under way.
    fn save(&mut self, alloc: Global) -> Result<String, AllocError>
        requires sound { IsTrue (is_sound self.old.store) }
        requires on { IfSome self.old.staged (IsStagedOn (state_of self.old.store)) }
        ensures begun { (store_of self.new.store ≡ store_of self.old.store)
            ⊎ ((slices : ℕ) × HasBegun slices self.old.store self.new.store) }
        ensures on { IfSome self.new.staged (IsStagedOn (state_of self.new.store)) }
    {
        if self.store.is_saving() {
            return String::from_str(alloc, "a save is under way");
        }
        match self.store.begin_save(alloc) {
            Ok(slices) => format!(in alloc; "{slices} slices"),
            Err(fault) => refused(alloc, &fault),
        }
    }

    /// Writes a slice of the save that is under way.
    fn slice<D: Desk>(&mut self, alloc: Global, desk: &mut D) -> Result<String, AllocError>
        requires sound { IsTrue (is_sound self.old.store) }
        requires kept { IsTrue D.tells → IsKept (D.contents desk.old) (D.may_leave desk.old) self.old.store }
        requires on { IfSome self.old.staged (IsStagedOn (state_of self.old.store)) }
        ensures count { count_of self.new.store ≡ count_of self.old.store }
        ensures kept { IsTrue D.tells → IsTrue (is_sound self.new.store) →
            IsKept (D.contents desk.new) (D.may_leave desk.new) self.new.store }
        ensures on { IfSome self.new.staged (IsStagedOn (state_of self.new.store)) }
    {
        if !self.store.is_saving() {
            return String::from_str(alloc, "no save is under way");
        }
        match self.store.save_step(desk, 1) {
            Ok(state) => format!(in alloc; "{state:?}"),
            Err(fault) => refused(alloc, &fault),
        }
    }

    /// Makes a move: what is answered.
    fn answer<D: Desk, C: Ledger>(
        &mut self,
        alloc: Global,
        desk: &mut D,
        steps: &mut Steps<C>,
        next: Move,
    ) -> Result<String, AllocError>
        requires sound { IsTrue (is_sound self.old.store) }
        requires count { count_of self.old.store < 9223372036854775808 }
        requires kept { IsTrue D.tells → IsKept (D.contents desk.old) (D.may_leave desk.old) self.old.store }
        requires on { IfSome self.old.staged (IsStagedOn (state_of self.old.store)) }
        ensures count { count_of self.new.store ≤ count_of self.old.store + 1 }
        ensures kept { IsTrue D.tells → IsTrue (is_sound self.new.store) →
            IsKept (D.contents desk.new) (D.may_leave desk.new) self.new.store }
        ensures on { IfSome self.new.staged (IsStagedOn (state_of self.new.store)) }
    {
        begun_saves_are_kept::<D>();
        match next {
            Move::Stage(records) => self.stage(alloc, steps, records),
            Move::Step(n) => self.step(alloc, n),
            Move::Commit => self.commit(alloc, desk),
            Move::Submit(given) => self.submit(alloc, desk, steps, given),
            Move::Save => self.save(alloc),
            Move::Slice => self.slice(alloc, desk),
        }
    }

    /// Makes a move, and tells what is answered and what is held then.
    fn make<D: Desk, C: Ledger>(
        &mut self,
        alloc: Global,
        desk: &mut D,
        steps: &mut Steps<C>,
        next: Move,
    ) -> Result<Told, AllocError>
        requires sound { IsTrue (is_sound self.old.store) }
        requires count { count_of self.old.store < 9223372036854775808 }
        requires kept { IsTrue D.tells → IsKept (D.contents desk.old) (D.may_leave desk.old) self.old.store }
        requires on { IfSome self.old.staged (IsStagedOn (state_of self.old.store)) }
        ensures count { count_of self.new.store ≤ count_of self.old.store + 1 }
        ensures kept { IsTrue D.tells → IsTrue (is_sound self.new.store) →
            IsKept (D.contents desk.new) (D.may_leave desk.new) self.new.store }
        ensures on { IfSome self.new.staged (IsStagedOn (state_of self.new.store)) }
    {
        Ok(Told {
            answer: self.answer(alloc, desk, steps, next)?,
            held: shown(alloc, &self.store.state().cells)?,
        })
    }
}

/// Opens a store on a desk.
fn opened<D: Desk, C: Ledger>(
    alloc: Global,
    desk: &mut D,
    steps: &mut Steps<C>,
    moves: &[Move],
) -> Result<Vec<Told>, AllocError> {
    let Ok(store) = open_store(alloc, desk, steps) else {
        return Ok(Vec::new(alloc));
    };
    let mut run = Run {
        store,
        staged: None,
    };
    let mut told = Vec::new(alloc);
    for next in moves {
        if !run.store.is_sound() {
            return Ok(told);
        }
        told.push(run.make(alloc, desk, steps, *next)?)?;
    }
    Ok(told)
}

/// The same, with a counter of its own.
fn run_with<D: Desk, C: Ledger>(
    alloc: Global,
    desk: &mut D,
    moves: &[Move],
    blank: Blank,
) -> Result<Vec<Told>, AllocError>
    requires name { blank.name ≡ C.name }
    requires parts { blank.parts ≡ C.parts }
    requires share { 0 < C.parts }
{
    let mut steps = Steps::<C>::new(blank);
    opened(alloc, desk, &mut steps, moves)
}

/// Opens a store on a desk and makes moves one after the other, up to one at which the desk fails: what is told at each.
pub fn told_by<D: Desk>(
    alloc: Global,
    desk: &mut D,
    moves: &[Move],
) -> Result<Vec<Told>, AllocError> {
    run_with::<D, Brand>(alloc, desk, moves, Blank::new(1))
}
