//! Records appended to a pair of banks.
//!
//! While a save is under way a record's frame is kept too, since it has to stand behind the checkpoint in the other
//! bank: so a record is refused for which either of them has no room.

ghost use Rattle.std.specs.Prelude.{◌≡◌, ◌+◌, ◌^◌, ◌<◌, None, Some, IfErr, IsErrOf, OnOk};
ghost use Rattle.bank_journal.specs.declared.fault.AppendFault.TheVariants.{DeskFault};
ghost use Rattle.bank_journal.specs.Fault.{FullHas};
ghost use Rattle.bank_pair.specs.Pair.{lack_of};

use crate::pair::Pair;
use bank_journal::{AppendFault, Framed};
use chart_ports::Desk;
use std::alloc::AllocError;

/// The most bytes of a bank.
const LIMIT: u64 = 268_435_456;

/// Sees that a bank of so many bytes has room for so many more.
fn ask_room(length: u64, need: u64) -> Result<(), AppendFault>
    requires { length + need < 2 ^ 64 }
    ensures room { OnOk result (lack_of length need ≡ None) }
    ensures full { IfErr result (FullHas (λ length_now more.
        lack_of length need ≡ Some (record { length = length_now; need = more }))) }
    ensures no_desk { ¬ IsErrOf result DeskFault }
{
    if length + need > LIMIT {
        return Err(AppendFault::Full { length, need });
    }
    Ok(())
}

impl Pair {
    ghost use Rattle.std.specs.Prelude.{◌≢◌, ◌≤◌, ◌↔◌, List, ℕ, Err, IsTrue, OnErr, length, option_map};
    ghost use Rattle.chart_ports.specs.Disk.{LeavesNoMoreOfOthers, SameOthers};
    ghost use Rattle.chart_ports.specs.Moments.{LeavesOnly};
    ghost use Rattle.bank_journal.specs.Content.{Content};
    ghost use Rattle.bank_journal.specs.declared.fault.AppendFault.TheVariants.{Full};
    ghost use Rattle.bank_journal.specs.Bank.{with_body, frame_of, IsBodyLength};
    ghost use Rattle.bank_journal.specs.Fault.{HasDeskCause};
    ghost use Rattle.bank_pair.specs.Handle.{spare_of, value_of};
    ghost use Rattle.bank_pair.specs.Pair.{IsPairInStep, Lack, LeavesEither, lack_beside, lack_for, with_frame};

    /// Takes room for one record more, which an append uses up while a save is under way. It fails only where there is
    /// none.
    pub fn reserve(&mut self) -> Result<(), AllocError>
        ensures spare { OnOk result (1 ≤ spare_of self.new) }
        ensures value { value_of self.new ≡ value_of self.old }
        ensures kept { spare_of self.old ≤ spare_of self.new }
        ensures cause { OnErr result (spare_of self.old ≡ 0) }
    {
        self.since.reserve(1)
    }

    /// Sees that the current bank has room for so many bytes more, and then that the other one has, while a save is
    /// under way.
    fn ask_both(&self, need: u64) -> Result<(), AppendFault>
        requires { need < 2 ^ 63 }
        ensures room { OnOk result (lack_for (value_of self.now) need ≡ None) }
        ensures full { IfErr result (FullHas (λ length_now more.
            lack_for (value_of self.now) need ≡ Some (record { length = length_now; need = more }))) }
        ensures no_desk { ¬ IsErrOf result DeskFault }
    {
        ask_room(self.bank.gate() + 1, need)?;
        if self.save.is_some() {
            ask_room(self.gate + 1, need)?;
        }
        Ok(())
    }

    /// Keeps a record's frame for the save that is under way, if one is.
    fn keep(&mut self, framed: Framed)
        requires spare { 1 ≤ spare_of self.old }
        requires room { lack_beside (value_of self.old).save (length framed) ≡ None }
        ensures bank { self.new.bank ≡ self.old.bank }
        ensures save { (value_of self.new).save ≡ option_map (with_frame framed) (value_of self.old).save }
    {
        if self.save.is_some() {
            self.gate += framed.as_slice().len() as u64;
            self.since.push_reserved(framed);
        }
    }

    /// Appends a record to the current bank, and keeps its frame while a save is under way. It takes no memory.
    ///
    /// A save goes on undisturbed: the other bank is not touched.
    ///
    /// # Errors
    ///
    /// `Full` exactly where the current bank would get longer than 268,435,456 bytes, or else, while a save is under
    /// way, the other one would; nothing is changed then. `DeskFault` only where the desk's count rose; the pair is
    /// used no more then, and has to be opened again.
    pub fn append<D: Desk>(&mut self, desk: &mut D, framed: Framed) -> Result<(), AppendFault>
        requires spare { 1 ≤ spare_of self.old }
        requires in_step { IsTrue D.tells → (content : Content) ×
            IsPairInStep (D.contents desk.old) (D.may_leave desk.old) (value_of self.old) content }

        // In step with a content and given the frame of a body, it is in step with both when it returns Ok.
        ensures appended { IsTrue D.tells → OnOk result ((content : Content) (body : List ℕ) →
            IsPairInStep (D.contents desk.old) (D.may_leave desk.old) (value_of self.old) content →
            IsBodyLength (length body) → framed ≡ frame_of body →
            IsPairInStep (D.contents desk.new) (D.may_leave desk.new) (value_of self.new) (with_body content body)) }

        // A crash at any moment of it leaves the records before it, or those and the new one.
        ensures moments { IsTrue D.tells → (content : Content) (body : List ℕ) →
            IsPairInStep (D.contents desk.old) (D.may_leave desk.old) (value_of self.old) content →
            IsBodyLength (length body) → framed ≡ frame_of body →
            LeavesOnly D.clock D.might desk.old desk.new
            (LeavesEither (D.said desk.old) content (with_body content body)) }

        // It leaves the head, the other bank and what is said.
        ensures others { IsTrue D.tells →
            SameOthers (value_of self.old).file (D.contents desk.old) (D.contents desk.new) }
        ensures crash_others { IsTrue D.tells →
            LeavesNoMoreOfOthers (value_of self.old).file (D.may_leave desk.old) (D.may_leave desk.new) }
        ensures said { IsTrue D.tells → D.said desk.new ≡ D.said desk.old }

        // A record that passes a limit changes nothing, and any other is appended unless the desk fails.
        ensures full { (lack : Lack) → (result ≡ Err (Full lack.length lack.need)) ↔
            (lack_for (value_of self.old) (length framed) ≡ Some lack) }
        ensures unchanged { lack_for (value_of self.old) (length framed) ≢ None →
            (self.new ≡ self.old) × (desk.new ≡ desk.old) }

        ensures file { (value_of self.new).file ≡ (value_of self.old).file }
        ensures gate { OnOk result ((value_of self.new).gate ≡ (value_of self.old).gate + length framed) }
        ensures save { OnOk result ((value_of self.new).save
            ≡ option_map (with_frame framed) (value_of self.old).save) }
        ensures cause { HasDeskCause DeskFault (D.faults desk.old) (D.faults desk.new) result }
    {
        self.ask_both(framed.as_slice().len() as u64)?;
        self.bank.append(desk, &framed)?;
        self.keep(framed);
        Ok(())
    }
}
