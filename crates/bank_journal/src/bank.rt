//! An open bank.
//!
//! It keeps no bytes of its file: what is held is made of the records once, when the bank is
//! opened, and from then on a bank is only added to.

ghost use Rattle.std.specs.Prelude.{◌<◌};
ghost use Rattle.std.specs.Int.{IsInRange};

use crate::fault::AppendFault;
use crate::framing::Framed;
use crate::whole::write_through;
use chart_ports::Desk;

/// The most bytes of a bank.
const LIMIT: u64 = 268_435_456;

/// The byte of an open gate.
const OPEN: u8 = 1;

/// An open bank: the number of its file, and the place of its closed gate. It keeps no records, and
/// the desk is handed in at each call.
#[derive(Debug, Drop)]
pub struct Bank {
    file: u8,
    gate: u64,
    ghost bank: { IsInRange 1 2 file },
    ghost gate_in: { gate < 9223372036854775808 },
}

impl Bank {
    ghost use Rattle.std.specs.Prelude.{◌≡◌, ◌+◌, ◌↔◌, List, ℕ, Err, IfErr, IsErrOf, IsTrue, OnOk, length};
    ghost use Rattle.chart_ports.specs.Disk.{LeavesNoMoreOfOthers, SameOthers};
    ghost use Rattle.chart_ports.specs.Moments.{LeavesOnly};
    ghost use Rattle.bank_journal.specs.Content.{Content};
    ghost use Rattle.bank_journal.specs.declared.fault.AppendFault.TheVariants.{DeskFault, Full};
    ghost use Rattle.bank_journal.specs.Bank.{with_body, frame_of, IsBodyLength};
    ghost use Rattle.bank_journal.specs.Fault.{FullHas, HasDeskCause};
    ghost use Rattle.bank_journal.specs.Handle.{file_of, place_of};
    ghost use Rattle.bank_journal.specs.Moments.{IsBeforeOrAfter, IsInStep, LeavesFile};

    /// The bank of a file, 1 or 2, whose closed gate stands at this place. Nothing is read: whether the file has such a
    /// bank is for the caller to know.
    pub fn at(file: u8, gate: u64) -> Bank
        requires bank { IsInRange 1 2 file }
        requires gate { gate < 9223372036854775808 }
        ensures file { file_of result ≡ file }
        ensures gate { place_of result ≡ gate }
    {
        Bank { file, gate }
    }

    /// The number of its file, 1 or 2.
    pub fn file(&self) -> u8
        ensures { result ≡ file_of self.now }
    {
        self.file
    }

    /// The place of its closed gate, behind the last record.
    pub fn gate(&self) -> u64
        ensures { result ≡ place_of self.now }
    {
        self.gate
    }

    /// Appends a record. It takes no memory.
    ///
    /// The record is written whole behind the closed gate, with a closed gate of its own behind it, and
    /// brought to the disk; then the gate before it is opened by a write of its own. So whatever a crash
    /// leaves of either write, the record is there whole or not at all.
    ///
    /// # Errors
    ///
    /// `Full` exactly where the bank would get longer than 268,435,456 bytes; nothing is changed then.
    /// `DeskFault` only where the desk's count rose; the bank is used no more then, and has to be opened
    /// again.
    pub fn append<D: Desk>(&mut self, desk: &mut D, framed: &Framed) -> Result<(), AppendFault>
        requires in_step { IsTrue D.tells → (content : Content) × IsInStep (D.contents desk.old (file_of self.old))
            (D.may_leave desk.old (file_of self.old)) (place_of self.old) content }

        // In step with a content and given the frame of a body, it is in step with both when it returns Ok.
        ensures appended { IsTrue D.tells → OnOk result ((content : Content) (body : List ℕ) →
            IsInStep (D.contents desk.old (file_of self.old)) (D.may_leave desk.old (file_of self.old))
            (place_of self.old) content →
            IsBodyLength (length body) → framed.now ≡ frame_of body →
            IsInStep (D.contents desk.new (file_of self.old)) (D.may_leave desk.new (file_of self.old))
            (place_of self.new) (with_body content body)) }

        // A crash at any moment of it leaves the records before it, or those and the new one.
        ensures moments { IsTrue D.tells → (content : Content) (body : List ℕ) →
            IsInStep (D.contents desk.old (file_of self.old)) (D.may_leave desk.old (file_of self.old))
            (place_of self.old) content →
            IsBodyLength (length body) → framed.now ≡ frame_of body →
            LeavesOnly D.clock D.might desk.old desk.new (LeavesFile (file_of self.old)
            (D.may_leave desk.old) (D.said desk.old) (IsBeforeOrAfter content body)) }

        // It leaves the other files and what is said.
        ensures others { IsTrue D.tells → SameOthers (file_of self.old) (D.contents desk.old) (D.contents desk.new) }
        ensures crash_others { IsTrue D.tells → LeavesNoMoreOfOthers (file_of self.old)
            (D.may_leave desk.old) (D.may_leave desk.new) }
        ensures said { IsTrue D.tells → D.said desk.new ≡ D.said desk.old }

        // A record that passes the limit changes nothing, and any other is appended unless the desk fails.
        ensures full { (result ≡ Err (Full (place_of self.old + 1) (length framed.now))) ↔
            (268435456 < place_of self.old + 1 + length framed.now) }
        ensures told { IfErr result (FullHas (λ length_now need.
            (length_now ≡ place_of self.old + 1) × (need ≡ length framed.now))) }
        ensures unchanged { 268435456 < place_of self.old + 1 + length framed.now →
            (self.new ≡ self.old) × (desk.new ≡ desk.old) }

        ensures file { file_of self.new ≡ file_of self.old }
        ensures gate { OnOk result (place_of self.new ≡ place_of self.old + length framed.now) }
        ensures cause { HasDeskCause DeskFault (D.faults desk.old) (D.faults desk.new) result }
    {
        let bytes = framed.as_slice();
        let length = self.gate + 1;
        let need = bytes.len() as u64;
        if length + need > LIMIT {
            return Err(AppendFault::Full { length, need });
        }
        write_through(desk, self.file, length, bytes)?;
        // Behind a gate that is open, what a crash leaves of the record would count: it has to be on the disk first.
        write_through(desk, self.file, self.gate, &[OPEN])?;
        self.gate += need;
        Ok(())
    }
}
