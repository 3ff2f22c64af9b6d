//! Files taken over in steps: staged, stepped and committed.
//!
//! What is held stays as it is until the commit, and so does the disk. So other commands may be accepted meanwhile, of
//! other cells.

ghost use Rattle.std.specs.Prelude.{◌≡◌};

use crate::accepted::Accepted;
use crate::load::{next_of_work, stage};
use crate::next::Naming;
use crate::record::record_of_load;
use crate::staged::Staged;
use crate::store::Store;
use crate::submit_fault::SubmitFault;
use chart_model::Octets;
use chart_ports::{Desk, Steps};
use std::alloc::Global;
use std::sync::ledger::Ledger;

impl Store {
    ghost use Rattle.std.specs.Prelude.{◌≡◌, ◌≢◌, ◌↔◌, ◌+◌, ◌<◌, ◌≤◌, List, ℕ, true, false, Err, IfOk, IsTrue, OnOk};
    ghost use Rattle.std.specs.Prelude.{IfSome, OnErr, Some};
    ghost use Rattle.std.specs.FinMap as map;
    ghost use Rattle.bank_journal.specs.Fault.{HasDeskCause};
    ghost use Rattle.bank_pair.specs.Pair.{with_frame};
    ghost use Rattle.chart_difference.specs.Difference.{AreChanged};
    ghost use Rattle.chart_model.specs.Answers as answers;
    ghost use Rattle.chart_model.specs.declared.command.Command.TheVariants.{Load};
    ghost use Rattle.chart_ports.specs.Disk.{LeavesNoMoreOfOthers, SameOthers};
    ghost use Rattle.chart_ports.specs.Moments.{LeavesOnly, MayBeLeft, images_of};
    ghost use Rattle.chart_ports.specs.declared.images.Images.{Images};
    ghost use Rattle.chart_store.specs.declared.submit_fault.SubmitFault.TheVariants.{DeskFault, NoMemory};
    ghost use Rattle.chart_store.specs.Images.{StandFor};
    ghost use Rattle.chart_store.specs.Live.{state_or};
    ghost use Rattle.chart_store.specs.Loaded.{chart_of, come_to};
    ghost use Rattle.chart_store.specs.Outcome.{accepted, record_size, room_after};
    ghost use Rattle.chart_store.specs.Staging.{IsStagedOn, staged_by};
    ghost use Rattle.chart_store.specs.Store.{IsKept, StandsForEither, count_of, pair_of};
    ghost use Rattle.chart_store.specs.Store.{is_sound, room_of, save_of, state_of, store_of};
    ghost use Rattle.chart_store.specs.Submitted.{GivesAccepted, told};

    /// Stages a file: it is read and judged by what is held of its cell, and none of its changes is made. Each data record
    /// that is come to is a step. Nothing of the store changes, and the desk isn't asked.
    ///
    /// # Errors
    ///
    /// The first refusal of those that a load tells before it makes a change; `NoMemory`. No `DeskFault`.
    pub fn stage<C: Ledger>(
        &self,
        alloc: Global,
        file: Octets,
        steps: &mut Steps<C>,
    ) -> Result<Staged, SubmitFault>
        ensures staged { answers.Gives told result (staged_by (state_of self.now) file) }
        ensures on { IfOk result (IsStagedOn (state_of self.now)) }
        ensures no_desk { result ≢ Err DeskFault }
        ensures read { result ≢ Err NoMemory → steps.new ≡ steps.old + come_to file }
        ensures at_most { steps.new ≤ steps.old + come_to file }
    {
        Ok(stage(alloc, &self.live, file, Naming::Named, steps)?)
    }

    /// Takes a staged file over: the changes that are left are made, and it is accepted, and on the disk when this
    /// returns, or refused, as the load of the file is.
    ///
    /// All memory is taken before the record is written. A crash at any moment leaves files that hold what was held
    /// before, or what the file leaves.
    ///
    /// # Errors
    ///
    /// The first refusal of the load; `NoMemory`, also where it came to a step before. Then all is as it was, on the disk
    /// too. `DeskFault` only where the desk's count rose: what is held is as it was, and the store is used no more.
    pub fn commit<D: Desk>(
        &mut self,
        alloc: Global,
        staged: Staged,
        desk: &mut D,
    ) -> Result<Accepted, SubmitFault>
        requires sound { IsTrue (is_sound self.old) }
        requires count { count_of self.old < 9223372036854775808 }
        requires kept { IsTrue D.tells → IsKept (D.contents desk.old) (D.may_leave desk.old) self.old }
        requires on { IsStagedOn (state_of self.old) staged }

        ensures outcome { GivesAccepted result (state_of self.new)
            (accepted (state_of self.old) (room_of self.old) (Load staged.file)) }
        ensures changed { IfOk result (λ done. AreChanged (chart_of (map.get (state_of self.old).cells done.key))
            (chart_of (map.get (state_of self.new).cells done.key)) done.changed) }
        ensures old { IfOk result (λ done. done.old ≡ chart_of (map.get (state_of self.old).cells done.key)) }
        ensures count { IfOk result (λ done. (done.count ≡ count_of self.old + 1) × (count_of self.new ≡ done.count)) }
        // The record takes its room in the current bank, and in the other one while a save is under way.
        ensures room { OnOk result (room_of self.new
            ≡ room_after (room_of self.old) (record_size (Load staged.file))) }
        ensures save { OnOk result (IfSome (save_of self.old) (λ save. (frame : List ℕ) ×
            (save_of self.new ≡ Some (with_frame frame save)))) }

        // A refusal and want of memory change nothing; a fault of the desk leaves what is held, and ends the store.
        ensures unchanged { result ≢ Err DeskFault →
            OnErr result ((store_of self.new ≡ store_of self.old) × (desk.new ≡ desk.old)) }
        ensures held { OnErr result ((state_of self.new ≡ state_of self.old)
            × (count_of self.new ≡ count_of self.old)) }
        ensures sound { (is_sound self.new ≡ false) ↔ (result ≡ Err DeskFault) }

        ensures kept { IsTrue D.tells → result ≢ Err DeskFault →
            IsKept (D.contents desk.new) (D.may_leave desk.new) self.new }
        // When it returns, whatever a crash leaves stands for what is held, where what a read gave before did.
        ensures stands { IsTrue D.tells → StandFor (images_of (D.contents desk.old)) (state_of self.old) →
            result ≢ Err DeskFault → (images : Images) →
            MayBeLeft (D.may_leave desk.new) images → StandFor images (state_of self.new) }
        // So does what a read gives then.
        ensures stood { IsTrue D.tells → StandFor (images_of (D.contents desk.old)) (state_of self.old) →
            result ≢ Err DeskFault → StandFor (images_of (D.contents desk.new)) (state_of self.new) }
        // A crash at any moment of it leaves what stands for what was held, or for what the file leaves.
        ensures moments { IsTrue D.tells → StandFor (images_of (D.contents desk.old)) (state_of self.old) →
            LeavesOnly D.clock D.might desk.old desk.new (StandsForEither (D.said desk.old) (state_of self.old)
            (state_or (state_of self.old)
            (accepted (state_of self.old) (room_of self.old) (Load staged.file)))) }

        // It leaves the head, the other bank and what is said.
        ensures others { IsTrue D.tells →
            SameOthers (pair_of self.old).file (D.contents desk.old) (D.contents desk.new) }
        ensures crash_others { IsTrue D.tells →
            LeavesNoMoreOfOthers (pair_of self.old).file (D.may_leave desk.old) (D.may_leave desk.new) }
        ensures said { IsTrue D.tells → D.said desk.new ≡ D.said desk.old }

        ensures cause { HasDeskCause DeskFault (D.faults desk.old) (D.faults desk.new) result }
    {
        let Staged { file, work } = staged;
        let (framed, file) = record_of_load(alloc, file)?;
        let next = next_of_work(alloc, &self.live, file, work, Naming::Named)?;
        self.keep(framed, next, desk)
    }
}
