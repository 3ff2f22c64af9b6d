//! A pair of banks opened.
//!
//! The files are brought to the disk before they are read, so that a crash cannot leave another head or another bank
//! than those that were read.

ghost use Rattle.std.specs.Prelude.{◌≡◌, ◌<◌, ◌≤◌, ℕ, None, Ok, Err, IfOk, IfErr, IsTrue, OnOk, length};
ghost use Rattle.std.specs.Int.{IsInRange};
ghost use Rattle.chart_ports.specs.Count.{HasCause};
ghost use Rattle.chart_ports.specs.Disk.{LeavesNoMore, LeavesNoMoreOfOthers, Only, SameFiles, SameOthers};
ghost use Rattle.chart_ports.specs.Moments.{LeavesOnly, images_of};
ghost use Rattle.bank_journal.specs.declared.fault.BankFault.TheVariants.{DeskFault};
ghost use Rattle.bank_journal.specs.Bank.{gate_of};
ghost use Rattle.bank_journal.specs.Fault.{ForeignHas, HasDeskCause};
ghost use Rattle.bank_journal.specs.Moments.{nine_zeros};
ghost use Rattle.bank_pair.specs.Handle.{value_of};
ghost use Rattle.bank_pair.specs.Head.{bank_named, content_named};
ghost use Rattle.bank_pair.specs.Pair.{IsPairInStep, LeavesNamed};

use crate::pair::Pair;
use bank_journal::{BankContent, BankFault, open_bank};
use chart_ports::{Desk, Failed};
use std::alloc::Global;

/// The number of the head's file.
const HEAD: u8 = 0;

/// Brings each file to the disk: a crash then leaves what a read gives.
fn sync_files<D: Desk>(desk: &mut D) -> Result<(), Failed>
    ensures settled { IsTrue D.tells → OnOk result ((file : ℕ) → file ≤ 2 →
        Only (D.contents desk.new file) (D.may_leave desk.new file)) }
    ensures files { IsTrue D.tells → OnOk result (SameFiles (D.contents desk.old) (D.contents desk.new)) }
    ensures crash { IsTrue D.tells → LeavesNoMore (D.may_leave desk.old) (D.may_leave desk.new) }
    ensures said { IsTrue D.tells → D.said desk.new ≡ D.said desk.old }
    ensures moments { IsTrue D.tells → LeavesOnly D.clock D.might desk.old desk.new
        (LeavesNamed (D.contents desk.old) (D.may_leave desk.old) (D.said desk.old)) }
    ensures cause { HasCause (D.faults desk.old) (D.faults desk.new) result }
{
    for file in 0..3 {
        desk.sync(file)?;
    }
    Ok(())
}

/// Reads the number of the file that the head names. Of an empty head the byte stays 0.
fn read_head<D: Desk>(desk: &mut D) -> Result<u8, Failed>
    ensures named { IsTrue D.tells → IfOk result (λ file. file ≡ bank_named (D.contents desk.old 0)) }
    ensures bank { IfOk result (λ file. IsInRange 1 2 file) }
    ensures files { IsTrue D.tells → SameFiles (D.contents desk.old) (D.contents desk.new) }
    ensures crash { IsTrue D.tells → LeavesNoMore (D.may_leave desk.old) (D.may_leave desk.new) }
    ensures said { IsTrue D.tells → D.said desk.new ≡ D.said desk.old }
    ensures moments { IsTrue D.tells → LeavesOnly D.clock D.might desk.old desk.new
        (LeavesNamed (D.contents desk.old) (D.may_leave desk.old) (D.said desk.old)) }
    ensures cause { HasCause (D.faults desk.old) (D.faults desk.new) result }
{
    let mut head = [0];
    desk.read_at(HEAD, 0, &mut head)?;
    Ok(1 + head[0] % 2)
}

/// Brings each file to the disk, and reads the number of the file that the head names.
fn open_head<D: Desk>(desk: &mut D) -> Result<u8, Failed>
    ensures named { IsTrue D.tells → IfOk result (λ file. file ≡ bank_named (D.contents desk.old 0)) }
    ensures bank { IfOk result (λ file. IsInRange 1 2 file) }
    ensures settled { IsTrue D.tells → OnOk result ((file : ℕ) → file ≤ 2 →
        Only (D.contents desk.new file) (D.may_leave desk.new file)) }
    ensures files { IsTrue D.tells → OnOk result (SameFiles (D.contents desk.old) (D.contents desk.new)) }
    ensures crash { IsTrue D.tells → LeavesNoMore (D.may_leave desk.old) (D.may_leave desk.new) }
    ensures said { IsTrue D.tells → D.said desk.new ≡ D.said desk.old }
    ensures moments { IsTrue D.tells → LeavesOnly D.clock D.might desk.old desk.new
        (LeavesNamed (D.contents desk.old) (D.may_leave desk.old) (D.said desk.old)) }
    ensures cause { HasCause (D.faults desk.old) (D.faults desk.new) result }
{
    sync_files(desk)?;
    read_head(desk)
}

/// Opens the bank that the head names, which is read once, into one buffer. No save is under way then; the other bank
/// isn't read.
///
/// A bank of at most nine bytes is the empty one, whatever they are, and is written out.
///
/// # Errors
///
/// `Foreign` exactly where the bank that the head names has no reading, with the place of its first fault;
/// `DeskFault` only where the desk's count rose; `NoMemory`, also where the file has more bytes than memory can.
pub fn open_pair<D: Desk>(alloc: Global, desk: &mut D) -> Result<(Pair, BankContent), BankFault>
    // What is opened is what a read of the bank that the head names gives, and what is refused has its first fault
    // there.
    ensures content { IsTrue D.tells → IfOk result (λ opened.
        content_named (images_of (D.contents desk.old)) ≡ Ok opened.1) }
    ensures foreign { IsTrue D.tells → IfErr result (ForeignHas (λ bank offset.
        (bank ≡ bank_named (D.contents desk.old 0)) ×
        (content_named (images_of (D.contents desk.old)) ≡ Err offset))) }
    ensures in_step { IsTrue D.tells → IfOk result (λ opened.
        IsPairInStep (D.contents desk.new) (D.may_leave desk.new) (value_of opened.0) opened.1) }
    ensures gate { IfOk result (λ opened. (value_of opened.0).gate ≡ gate_of opened.1) }
    ensures idle { IfOk result (λ opened. (value_of opened.0).save ≡ None) }

    // Nine bytes or fewer of that bank are replaced, and more are left; what is refused is left too.
    ensures short { IsTrue D.tells → length (D.contents desk.old (bank_named (D.contents desk.old 0))) ≤ 9 →
        OnOk result (D.contents desk.new (bank_named (D.contents desk.old 0)) ≡ nine_zeros) }
    ensures long { IsTrue D.tells → 9 < length (D.contents desk.old (bank_named (D.contents desk.old 0))) →
        OnOk result (SameFiles (D.contents desk.old) (D.contents desk.new)) }
    ensures refused { IsTrue D.tells → IfErr result (ForeignHas (λ _ _.
        SameFiles (D.contents desk.old) (D.contents desk.new))) }

    // It leaves the other files and what is said.
    ensures others { IsTrue D.tells → OnOk result
        (SameOthers (bank_named (D.contents desk.old 0)) (D.contents desk.old) (D.contents desk.new)) }
    ensures crash_others { IsTrue D.tells → LeavesNoMoreOfOthers (bank_named (D.contents desk.old 0))
        (D.may_leave desk.old) (D.may_leave desk.new) }
    ensures said { IsTrue D.tells → D.said desk.new ≡ D.said desk.old }

    // A crash at any moment of it leaves what it might have left before, or the same bank named, which reads the same
    // or has the same first fault.
    ensures moments { IsTrue D.tells → LeavesOnly D.clock D.might desk.old desk.new
        (LeavesNamed (D.contents desk.old) (D.may_leave desk.old) (D.said desk.old)) }

    ensures cause { HasDeskCause DeskFault (D.faults desk.old) (D.faults desk.new) result }
{
    let file = open_head(desk)?;
    let (bank, content) = open_bank(alloc, desk, file)?;
    let pair = Pair {
        bank,
        save: None,
        since: Vec::new(alloc),
        gate: 0,
    };
    Ok((pair, content))
}
