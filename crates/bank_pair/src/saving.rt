//! A save, from its beginning to its last slice.
//!
//! A checkpoint may be nearly as long as a bank, 268,435,456 bytes. So it is written in slices of 65,536, between which
//! records may be appended, and into the other bank alone: what a crash leaves of it doesn't count.

ghost use Rattle.std.specs.Prelude.{◌≡◌, ◌≢◌, ◌↔◌, ◌+◌, ◌*◌, ◌<◌, ◌≤◌, [], ℕ, List, None, Some};
ghost use Rattle.std.specs.Prelude.{Err, IfErr, IfOk, IsTrue, OnErr, OnOk, length, take};
ghost use Rattle.chart_ports.specs.Count.{HasCause};
ghost use Rattle.chart_ports.specs.Disk.{LeavesNoMoreOfOthers, SameOthers};
ghost use Rattle.chart_ports.specs.Moments.{LeavesOnly};
ghost use Rattle.bank_pair.specs.Saving.{LeavesAnything, with_header};

use crate::fault::SaveFault;
use crate::pair::{Pair, Save};
use crate::slices::{HEADER, slices_of, write_numbered};
use chart_model::Octets;
use chart_ports::{Desk, Failed};

/// The most bytes of a bank.
const LIMIT: u64 = 268_435_456;

impl Save {
    /// Writes the next slice into a file, and answers whether it was the last. The first call empties the file.
    fn write_next<D: Desk>(&mut self, desk: &mut D, file: u8) -> Result<bool, Failed>
        requires is_file { file ≤ 2 }
        requires fits { length self.old.checkpoint < 268435456 }
        requires left { self.old.written < self.old.slices }
        requires before { IsTrue D.tells → self.old.written ≢ 0 →
            D.contents desk.old file ≡ take (self.old.written * 65536) (with_header self.old.checkpoint) }

        ensures slice { IsTrue D.tells → OnOk result
            (D.contents desk.new file ≡ take (self.new.written * 65536) (with_header self.new.checkpoint)) }
        ensures checkpoint { self.new.checkpoint ≡ self.old.checkpoint }
        ensures slices { self.new.slices ≡ self.old.slices }
        ensures written { OnOk result (self.new.written ≡ self.old.written + 1) }
        ensures err { OnErr result (self.new.written ≡ self.old.written) }
        ensures last { IfOk result (λ last. IsTrue last ↔ (self.new.written ≡ self.new.slices)) }

        ensures others { IsTrue D.tells → SameOthers file (D.contents desk.old) (D.contents desk.new) }
        ensures crash_others { IsTrue D.tells →
            LeavesNoMoreOfOthers file (D.may_leave desk.old) (D.may_leave desk.new) }
        ensures said { IsTrue D.tells → D.said desk.new ≡ D.said desk.old }
        ensures moments { IsTrue D.tells → LeavesOnly D.clock D.might desk.old desk.new
            (LeavesAnything file (D.may_leave desk.old) (D.said desk.old)) }
        ensures cause { HasCause (D.faults desk.old) (D.faults desk.new) result }
    {
        write_numbered(desk, file, self.checkpoint.as_slice(), self.written)?;
        self.written += 1;
        Ok(self.written == self.slices)
    }
}

impl Pair {
    ghost use Rattle.bank_journal.specs.Content.{Content};
    ghost use Rattle.bank_pair.specs.declared.fault.SaveFault.TheVariants.{Full};
    ghost use Rattle.bank_pair.specs.Head.{other_than};
    ghost use Rattle.bank_pair.specs.Handle.{spare_of, value_of};
    ghost use Rattle.bank_pair.specs.Pair.{HasSliceLeft, HasSlices, IsPairInStep, LeavesContent, Saves, with_slice};
    ghost use Rattle.bank_pair.specs.Saving.{AreSlicesOf, SaveValue};

    /// The file of the bank that is not the current one, 1 or 2.
    pub(crate) fn other_file(&self) -> u8
        ensures { result ≡ other_than (value_of self.now).file }
    {
        3 - self.bank.file()
    }

    /// Begins to save a checkpoint, and answers in how many slices it is written. It takes no memory, and asks no desk:
    /// the other bank is emptied when the first slice is written.
    ///
    /// # Errors
    ///
    /// `Full` exactly where the other bank would get longer than 268,435,456 bytes; nothing is changed then.
    pub fn begin_save(&mut self, checkpoint: Octets) -> Result<u32, SaveFault>
        requires idle { (value_of self.old).save ≡ None }
        ensures begun { IfOk result (λ slices. Saves (value_of self.new)
            (record { checkpoint = checkpoint; slices = slices; written = 0; since = [] })) }
        ensures slices { IfOk result (λ slices. AreSlicesOf checkpoint slices) }

        // No slice is written yet, so any other bank is in step with it.
        ensures unwritten { OnOk result ((bytes : List ℕ) → HasSlices bytes (value_of self.new).save) }

        // The current bank stays as it is.
        ensures file { (value_of self.new).file ≡ (value_of self.old).file }
        ensures gate { (value_of self.new).gate ≡ (value_of self.old).gate }
        ensures spare { spare_of self.new ≡ spare_of self.old }

        ensures full { (result ≡ Err (Full (length checkpoint + 9))) ↔ (268435456 < length checkpoint + 9) }
        ensures told { IfErr result (λ fault. fault ≡ Full (length checkpoint + 9)) }
        ensures err { OnErr result (self.new ≡ self.old) }
    {
        let gate = HEADER as u64 + checkpoint.as_slice().len() as u64;
        if gate + 1 > LIMIT {
            return Err(SaveFault::Full { need: gate + 1 });
        }
        let slices = slices_of(checkpoint.as_slice());
        let save = Save {
            checkpoint,
            slices,
            written: 0,
        };
        self.gate = gate;
        self.save = Some(save);
        Ok(slices)
    }

    /// Writes the next slice of the save that is under way into the other bank, and answers whether it was the last. It
    /// takes no memory, and brings nothing to the disk. The first slice is written over nothing: the other bank is
    /// emptied before.
    ///
    /// # Errors
    ///
    /// `Failed` only where the desk's count rose. The pair is used no more then, and has to be opened again.
    pub fn write_slice<D: Desk>(&mut self, desk: &mut D) -> Result<bool, Failed>
        requires left { HasSliceLeft (value_of self.old) }
        requires in_step { IsTrue D.tells → (content : Content) ×
            IsPairInStep (D.contents desk.old) (D.may_leave desk.old) (value_of self.old) content }

        // In step with a content, it is in step with it when it returns Ok, and has a slice more.
        ensures in_step { IsTrue D.tells → OnOk result ((content : Content) →
            IsPairInStep (D.contents desk.old) (D.may_leave desk.old) (value_of self.old) content →
            IsPairInStep (D.contents desk.new) (D.may_leave desk.new) (value_of self.new) content) }
        ensures written { OnOk result ((save : SaveValue) →
            Saves (value_of self.old) save → Saves (value_of self.new) (with_slice save)) }
        ensures last { IfOk result (λ last. (save : SaveValue) →
            Saves (value_of self.new) save → (IsTrue last ↔ (save.written ≡ save.slices))) }

        // A crash at any moment of it leaves what the current bank says.
        ensures moments { IsTrue D.tells → (content : Content) →
            IsPairInStep (D.contents desk.old) (D.may_leave desk.old) (value_of self.old) content →
            LeavesOnly D.clock D.might desk.old desk.new (LeavesContent (D.said desk.old) content) }

        // It leaves the current bank, the head and what is said.
        ensures others { IsTrue D.tells →
            SameOthers (other_than (value_of self.old).file) (D.contents desk.old) (D.contents desk.new) }
        ensures crash_others { IsTrue D.tells →
            LeavesNoMoreOfOthers (other_than (value_of self.old).file) (D.may_leave desk.old) (D.may_leave desk.new) }
        ensures said { IsTrue D.tells → D.said desk.new ≡ D.said desk.old }
        ensures file { (value_of self.new).file ≡ (value_of self.old).file }
        ensures gate { (value_of self.new).gate ≡ (value_of self.old).gate }
        ensures spare { spare_of self.new ≡ spare_of self.old }
        ensures err { OnErr result (value_of self.new ≡ value_of self.old) }

        ensures cause { HasCause (D.faults desk.old) (D.faults desk.new) result }
    {
        let file = self.other_file();
        let Some(save) = &mut self.save else {
            return Ok(true);
        };
        save.write_next(desk, file)
    }
}
