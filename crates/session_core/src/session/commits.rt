//! The line `commit`.
//!
//! A file that was staged is taken over as a `load` of it would be, but that the changes that are left are all that is
//! made. Where a command was accepted for its cell since, what it was staged on isn't held any more, and it is refused.

use crate::changes::Success;
use crate::fault::EventFault;
use crate::refusal::LineRefusal;
use crate::session::Session;
use crate::staging::Staging;
use chart_ports::{Desk, Steps};
use chart_store::{Staged, commands_change_their_cell_alone, kept_stores_are_read};
use script_reader::Reply;
use std::alloc::Global;
use std::sync::ledger::Ledger;

impl Session {
    ghost use Rattle.std.specs.Prelude.{◌≡◌, ◌≢◌, ◌+◌, ◌<◌, ◌^◌, None, Ok, Err, IsTrue, OnOk};
    ghost use Rattle.bank_journal.specs.Fault.{HasDeskCause};
    ghost use Rattle.chart_ports.specs.Moments.{LeavesOnly, images_of};
    ghost use Rattle.chart_store.specs.Images.{StandFor};
    ghost use Rattle.chart_store.specs.Staged.{staged_of};
    ghost use Rattle.chart_store.specs.Staging.{IsStagedOn};
    ghost use Rattle.chart_store.specs.Store.{StandsForEither, count_of, state_of};
    ghost use Rattle.session_core.specs.declared.fault.EventFault.TheVariants.{DeskFault as EventFailed};
    ghost use Rattle.session_core.specs.declared.fault.EventFault.TheVariants.{NoMemory as NoMemoryForEvent};
    ghost use Rattle.session_core.specs.Order.{commit_order, order_turn};
    ghost use Rattle.session_core.specs.Session.{AcceptsOne, GivesEvent, IsReady, KeepsOthers, file_of};
    ghost use Rattle.session_core.specs.Session.{model_of, scenes_of, staging_in, store_of};
    ghost use Rattle.session_core.specs.Staging.{commit_turn};
    ghost use Rattle.session_core.specs.Steps.{TakesAtMost};

    /// Takes over a file that was staged, where nothing is staged any more, and tells its reply where it isn't refused.
    fn take_over<D: Desk, C: Ledger>(
        &mut self,
        alloc: Global,
        staged: Staged,
        desk: &mut D,
        steps: &mut Steps<C>,
    ) -> Result<Reply, EventFault>
        requires ready { IsReady D.tells (D.contents desk.old) (D.may_leave desk.old) self.old }
        requires count { count_of (store_of self.old) < 2 ^ 63 }
        requires none { staging_in self.old ≡ None }
        requires on { IsStagedOn (state_of (store_of self.old)) (staged_of staged) }
        ensures given { GivesEvent result (model_of self.old) (model_of self.new)
            (order_turn (model_of self.old) (Ok (commit_order (staged_of staged).file))) }
        ensures moments { IsTrue D.tells → StandFor (images_of (D.contents desk.old)) (model_of self.old).state →
            LeavesOnly D.clock D.might desk.old desk.new (StandsForEither (D.said desk.old) (model_of self.old).state
            (order_turn (model_of self.old) (Ok (commit_order (staged_of staged).file))).model.state) }
        ensures stood { IsTrue D.tells → StandFor (images_of (D.contents desk.old)) (model_of self.old).state →
            result ≢ Err EventFailed → StandFor (images_of (D.contents desk.new)) (model_of self.new).state }
        ensures scenes { scenes_of self.new ≡ scenes_of self.old }
        ensures accepted { OnOk result (count_of (store_of self.new) ≡ count_of (store_of self.old) + 1) }
        ensures accepts { AcceptsOne EventFailed result self.old self.new }
        ensures untouched { result ≢ Err EventFailed →
            count_of (store_of self.new) ≡ count_of (store_of self.old) → desk.new ≡ desk.old }
        ensures cause { HasDeskCause EventFailed (D.faults desk.old) (D.faults desk.new) result }
        ensures said { IsTrue D.tells → D.said desk.new ≡ D.said desk.old }
        ensures others { KeepsOthers D.tells D.contents D.may_leave (file_of self.old) desk.old desk.new }
        ensures ready { result ≢ Err EventFailed → result ≢ Err NoMemoryForEvent →
            IsReady D.tells (D.contents desk.new) (D.may_leave desk.new) self.new }
        ensures steps { TakesAtMost 0 (model_of self.old).state (model_of self.new).state steps.old steps.new }
    {
        commands_change_their_cell_alone();
        let done = self.store.commit(alloc, staged, desk)?;
        self.keep_up(alloc, &done, steps)?;
        Ok(Success::Commit.reply(&done))
    }

    /// Ends a file that is staged: it is taken over, or refused where a command was accepted for its cell since. Nothing
    /// is staged then, so a refusal is a reply already.
    pub(crate) fn commit<D: Desk, C: Ledger>(
        &mut self,
        alloc: Global,
        desk: &mut D,
        steps: &mut Steps<C>,
    ) -> Result<Reply, EventFault>
        requires ready { IsReady D.tells (D.contents desk.old) (D.may_leave desk.old) self.old }
        requires count { count_of (store_of self.old) < 2 ^ 63 }
        ensures given { GivesEvent result (model_of self.old) (model_of self.new)
            (commit_turn (model_of self.old) (model_of self.old).staging) }
        ensures moments { IsTrue D.tells → StandFor (images_of (D.contents desk.old)) (model_of self.old).state →
            LeavesOnly D.clock D.might desk.old desk.new (StandsForEither (D.said desk.old) (model_of self.old).state
            (commit_turn (model_of self.old) (model_of self.old).staging).model.state) }
        ensures stood { IsTrue D.tells → StandFor (images_of (D.contents desk.old)) (model_of self.old).state →
            result ≢ Err EventFailed → StandFor (images_of (D.contents desk.new)) (model_of self.new).state }
        ensures scenes { scenes_of self.new ≡ scenes_of self.old }
        ensures accepts { AcceptsOne EventFailed result self.old self.new }
        ensures untouched { result ≢ Err EventFailed →
            count_of (store_of self.new) ≡ count_of (store_of self.old) → desk.new ≡ desk.old }
        ensures cause { HasDeskCause EventFailed (D.faults desk.old) (D.faults desk.new) result }
        ensures said { IsTrue D.tells → D.said desk.new ≡ D.said desk.old }
        ensures others { KeepsOthers D.tells D.contents D.may_leave (file_of self.old) desk.old desk.new }
        ensures ready { result ≢ Err EventFailed → result ≢ Err NoMemoryForEvent →
            IsReady D.tells (D.contents desk.new) (D.may_leave desk.new) self.new }
        ensures steps { TakesAtMost 0 (model_of self.old).state (model_of self.new).state steps.old steps.new }
    {
        kept_stores_are_read::<D>();
        let Some(staging) = self.staging.take() else {
            return Err(EventFault::Refused(LineRefusal::NothingBegun));
        };
        let Staging {
            staged,
            begun,
            last,
        } = staging;
        if let Some(last) = last {
            return Ok(LineRefusal::Overtaken(begun, last).reply(alloc)?);
        }
        match self.take_over(alloc, staged, desk, steps) {
            Err(EventFault::Refused(refusal)) => Ok(refusal.reply(alloc)?),
            answer => answer,
        }
    }
}
