//! The end of a save: the other bank becomes the current one.
//!
//! The head is written last, when the other bank is on the disk. It is one byte whose lowest bit decides, so a crash
//! inside its write leaves a head that names one bank or the other, and either is whole.

ghost use Rattle.std.specs.Prelude.{◌≡◌, ◌≤◌, ℕ, List, None, IsTrue, OnErr, OnOk};
ghost use Rattle.chart_ports.specs.Count.{HasCause};
ghost use Rattle.chart_ports.specs.Moments.{LeavesOnly};

use crate::copying::end_bank;
use crate::pair::Pair;
use crate::slices::HEADER;
use bank_journal::{Bank, write_through};
use chart_ports::{Desk, Failed};

/// The number of the head's file.
const HEAD: u8 = 0;

impl Pair {
    ghost use Rattle.bank_journal.specs.Content.{Content};
    ghost use Rattle.bank_pair.specs.Head.{other_than};
    ghost use Rattle.bank_pair.specs.Handle.{spare_of, value_of};
    ghost use Rattle.bank_pair.specs.Pair.{AreFramed, IsPairInStep, IsWritten, LeavesEither, Saves, saved_content};
    ghost use Rattle.bank_pair.specs.Saving.{SaveValue, gate_of_save};

    /// Ends the save that is under way: the other bank becomes the current one. It takes no memory.
    ///
    /// The records that were appended since the save began are copied behind its checkpoint, and the other bank is
    /// brought to the disk. Then the head is written, which is one byte, and brought to the disk. So whatever a crash
    /// leaves of the head, it names a bank that is whole.
    ///
    /// # Errors
    ///
    /// `Failed` only where the desk's count rose. The pair is used no more then, and has to be opened again.
    pub fn flip<D: Desk>(&mut self, desk: &mut D) -> Result<(), Failed>
        requires written { IsWritten (value_of self.old) }
        requires in_step { IsTrue D.tells → (content : Content) ×
            IsPairInStep (D.contents desk.old) (D.may_leave desk.old) (value_of self.old) content }

        // In step with a content, it is in step with the checkpoint and the records since when it returns Ok.
        ensures turned { IsTrue D.tells → OnOk result ((content : Content) (save : SaveValue) (bodies : List (List ℕ)) →
            IsPairInStep (D.contents desk.old) (D.may_leave desk.old) (value_of self.old) content →
            Saves (value_of self.old) save → AreFramed save.since bodies →
            IsPairInStep (D.contents desk.new) (D.may_leave desk.new) (value_of self.new) (saved_content save bodies)) }
        ensures file { OnOk result ((value_of self.new).file ≡ other_than (value_of self.old).file) }
        ensures gate { OnOk result ((save : SaveValue) →
            Saves (value_of self.old) save → (value_of self.new).gate ≡ gate_of_save save) }
        ensures save { OnOk result ((value_of self.new).save ≡ None) }
        ensures spare { OnOk result (spare_of self.old ≤ spare_of self.new) }
        ensures err { OnErr result (self.new ≡ self.old) }

        // A crash at any moment of it leaves what the current bank said, or the checkpoint and the records since.
        ensures moments { IsTrue D.tells → (content : Content) (save : SaveValue) (bodies : List (List ℕ)) →
            IsPairInStep (D.contents desk.old) (D.may_leave desk.old) (value_of self.old) content →
            Saves (value_of self.old) save → AreFramed save.since bodies →
            LeavesOnly D.clock D.might desk.old desk.new
            (LeavesEither (D.said desk.old) content (saved_content save bodies)) }

        // It leaves the bank that was the current one, and what is said.
        ensures current { IsTrue D.tells →
            D.contents desk.new (value_of self.old).file ≡ D.contents desk.old (value_of self.old).file }
        ensures said { IsTrue D.tells → D.said desk.new ≡ D.said desk.old }

        ensures cause { HasCause (D.faults desk.old) (D.faults desk.new) result }
    {
        let file = self.other_file();
        let Some(save) = &self.save else {
            return Ok(());
        };
        let end = (HEADER + save.checkpoint.as_slice().len()) as u64;
        end_bank(desk, file, end, self.since.as_slice())?;
        // What a crash leaves of the bank counts as soon as the head names it: it is on the disk by now.
        write_through(desk, HEAD, 0, &[file - 1])?;
        self.bank = Bank::at(file, self.gate);
        self.save = None;
        self.since.clear();
        Ok(())
    }
}
