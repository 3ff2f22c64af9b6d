//! Files that are staged: read and judged, and not yet taken over.
//!
//! A file of many changes takes its time. Staged, it is taken over in steps, so that other work may be done between
//! them.

ghost use Rattle.std.specs.Prelude.{◌≡◌};

use crate::fault::TakeFault;
use crate::submit_fault::SubmitFault;
use crate::work::{Work, make};
use chart_model::{Key, Octets};
use std::alloc::Global;
use std::marker::Model;
use update_sequence::{Effect, changes_are_made_in_turn, drafts_advance, files_are_data_sets};

/// A file that is staged: some of its changes are made, aside from what is held. Contracts see the file, what was held of
/// its cell when it was staged, and how many of its changes are made.
#[derive(Drop)]
pub struct Staged {
    pub(crate) file: Octets,
    pub(crate) work: Work,
}

impl Model for Staged {
    ghost use Rattle.chart_store.specs.Begun.{IsWorkOf};
    ghost use Rattle.chart_store.specs.Staging.{StagedValue, staged_code};

    ghost Value = { StagedValue };

    ghost coded = { staged_code };

    ghost view = { λ staged. record {
      file = staged.file;
      held = staged.work.before;
      chart = staged.work.chart;
      done = staged.work.done;
    } };

    ghost invariant = { λ staged. IsWorkOf staged.file staged.work };
}

impl Staged {
    ghost use Rattle.std.specs.Prelude.{◌≡◌, ◌≢◌, ◌≤◌, length, Err, IfErr};
    ghost use Rattle.chart_model.specs.Answers.{GivesBy};
    ghost use Rattle.chart_store.specs.declared.submit_fault.SubmitFault.TheVariants.{DeskFault};
    ghost use Rattle.chart_store.specs.Staging.{GoesOn, IsStopped, changes_in, key_in, step_of};
    ghost use Rattle.chart_store.specs.Submitted.{RefusedHas, told};

    /// The cell that the file is of. It takes no memory.
    pub fn key(&self) -> &Key
        ensures { result.now ≡ key_in self.now.file }
    {
        &self.work.header.key
    }

    /// How many changes the file has: none where it cancels its cell. It takes no memory.
    pub fn total(&self) -> u32
        ensures { result ≡ length (changes_in self.now.file) }
    {
        self.work.total
    }

    /// How many of its changes are made. It takes no memory.
    pub fn done(&self) -> u32
        ensures done { result ≡ self.now.done }
        ensures within { result ≤ length (changes_in self.now.file) }
    {
        self.work.done
    }

    /// Makes the next changes, or those that are left where they are fewer.
    ///
    /// # Errors
    ///
    /// The refusal of the first change that can't be made, and those before it are made then; `NoMemory`, and from then
    /// on each step and the commit answer `NoMemory`, since the file is given up. No `DeskFault`.
    pub fn step(&mut self, alloc: Global, n: u32) -> Result<(), SubmitFault>
        ensures steps { GivesBy told (λ done. self.new) result (step_of n self.old) }
        // It stays the same file, staged on the same; nothing that is made is taken back.
        ensures goes_on { GoesOn n self.old self.new }
        ensures stopped { IfErr result (RefusedHas (λ refusal. IsStopped self.new)) }
        ensures no_desk { result ≢ Err DeskFault }
    {
        changes_are_made_in_turn();
        drafts_advance();
        files_are_data_sets();
        let work = &mut self.work;
        if work.effect == Effect::Cancel {
            return Ok(());
        }
        let Some(mut draft) = work.begun.draft.take() else {
            return Err(SubmitFault::NoMemory);
        };
        match make(alloc, &mut draft, n, &mut work.done) {
            Ok(()) => {
                work.begun.draft = Some(draft);
                return Ok(());
            }
            Err(TakeFault::Refused(refusal)) => {
                work.begun.draft = Some(draft);
                return Err(SubmitFault::Refused(refusal));
            }
            Err(TakeFault::NoMemory) => Err(SubmitFault::NoMemory),
        }
    }
}
