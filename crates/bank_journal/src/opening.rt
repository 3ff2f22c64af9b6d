//! A bank opened.
//!
//! It is read once and whole, so that what it holds is known before anything is written to it.

ghost use Rattle.std.specs.Prelude.{◌≡◌, ◌<◌, ◌≤◌, Ok, Err, IfOk, IfErr, IsErrOf, IsTrue, OnOk, length};
ghost use Rattle.std.specs.Int.{IsInRange};
ghost use Rattle.chart_ports.specs.Disk.{LeavesNoMoreOfOthers, Only, SameFiles, SameOthers};
ghost use Rattle.chart_ports.specs.Moments.{LeavesOnly};
ghost use Rattle.bank_journal.specs.declared.fault.BankFault.TheVariants.{DeskFault};
ghost use Rattle.bank_journal.specs.Bank.{gate_of, empty_content};
ghost use Rattle.bank_journal.specs.Fault.{ForeignHas, HasDeskCause};
ghost use Rattle.bank_journal.specs.Handle.{file_of, place_of};
ghost use Rattle.bank_journal.specs.Moments.{IsInStep, LeavesFile, nine_zeros};
ghost use Rattle.bank_journal.specs.Reading.{bank_of};

use crate::bank::Bank;
use crate::content::BankContent;
use crate::fault::BankFault;
use crate::reading::{HEADER, WalkFault, read_bank};
use crate::whole::{read_whole, write_through};
use chart_ports::Desk;
use std::alloc::Global;

/// The most bytes of a bank that is the empty one whatever they are.
const LONGEST_EMPTY: usize = 9;

/// A bank without checkpoint and records: the layout 0, the checkpoint's length 0, and a closed gate.
const EMPTY: [u8; 9] = [0; 9];

/// The bank that more than nine bytes are.
fn read_opened(alloc: Global, file: u8, bytes: Vec<u8>) -> Result<(Bank, BankContent), BankFault>
    requires bank { IsInRange 1 2 file }
    requires long { 9 < length bytes.items }
    ensures content { IfOk result (λ opened. bank_of bytes.items ≡ Ok opened.1) }
    ensures file { IfOk result (λ opened. file_of opened.0 ≡ file) }
    ensures gate { IfOk result (λ opened. place_of opened.0 ≡ gate_of opened.1) }
    ensures foreign { IfErr result (ForeignHas (λ bank offset. (bank ≡ file) × (bank_of bytes.items ≡ Err offset))) }
    ensures no_desk { ¬ IsErrOf result DeskFault }
{
    match read_bank(alloc, bytes) {
        Ok((content, gate)) => Ok((Bank::at(file, gate as u64), content)),
        Err(WalkFault::Foreign(place)) => Err(BankFault::Foreign(file, place as u64)),
        Err(WalkFault::NoMemory) => Err(BankFault::NoMemory),
    }
}

/// The empty bank, written over at most nine bytes and brought to the disk.
fn write_empty<D: Desk>(
    alloc: Global,
    desk: &mut D,
    file: u8,
) -> Result<(Bank, BankContent), BankFault>
    requires bank { IsInRange 1 2 file }
    requires short { IsTrue D.tells → length (D.contents desk.old file) ≤ 9 }
    requires settled { IsTrue D.tells → Only (D.contents desk.old file) (D.may_leave desk.old file) }
    ensures content { IfOk result (λ opened. opened.1 ≡ empty_content) }
    ensures file { IfOk result (λ opened. file_of opened.0 ≡ file) }
    ensures gate { IfOk result (λ opened. place_of opened.0 ≡ gate_of opened.1) }
    ensures in_step { IsTrue D.tells → IfOk result (λ opened.
        IsInStep (D.contents desk.new file) (D.may_leave desk.new file) (place_of opened.0) opened.1) }
    ensures zeros { IsTrue D.tells → OnOk result (D.contents desk.new file ≡ nine_zeros) }
    ensures not_foreign { IfErr result (ForeignHas (λ _ _. ⊥)) }

    ensures others { IsTrue D.tells → SameOthers file (D.contents desk.old) (D.contents desk.new) }
    ensures crash_others { IsTrue D.tells → LeavesNoMoreOfOthers file (D.may_leave desk.old) (D.may_leave desk.new) }
    ensures said { IsTrue D.tells → D.said desk.new ≡ D.said desk.old }
    ensures moments { IsTrue D.tells → LeavesOnly D.clock D.might desk.old desk.new (LeavesFile file
        (D.may_leave desk.old) (D.said desk.old) (λ image. bank_of image ≡ bank_of (D.contents desk.old file))) }

    ensures cause { HasDeskCause DeskFault (D.faults desk.old) (D.faults desk.new) result }
{
    write_through(desk, file, 0, &EMPTY)?;
    let bank = Bank::at(file, HEADER as u64);
    Ok((bank, BankContent::empty(alloc)))
}

/// Opens the bank in a file, which is read once, into one buffer: what is opened are parts of it.
///
/// A bank of at most nine bytes is the empty one, whatever they are. It is written out, at every opening, and
/// brought to the disk before any record is: so a record never stands behind bytes that a crash can still change.
///
/// # Errors
///
/// `Foreign` exactly where the bytes have no reading, with the place of their first fault; `DeskFault` only where
/// the desk's count rose; `NoMemory`, also where the file has more bytes than memory can.
pub fn open_bank<D: Desk>(
    alloc: Global,
    desk: &mut D,
    file: u8,
) -> Result<(Bank, BankContent), BankFault>
    requires file { IsInRange 1 2 file }
    requires settled { IsTrue D.tells → Only (D.contents desk.old file) (D.may_leave desk.old file) }

    // What is opened is what a read gives, and what is refused has its first fault there.
    ensures content { IsTrue D.tells → IfOk result (λ opened. bank_of (D.contents desk.old file) ≡ Ok opened.1) }
    ensures foreign { IsTrue D.tells → IfErr result (ForeignHas (λ bank offset.
        (bank ≡ file) × (bank_of (D.contents desk.old file) ≡ Err offset))) }
    ensures in_step { IsTrue D.tells → IfOk result (λ opened.
        IsInStep (D.contents desk.new file) (D.may_leave desk.new file) (place_of opened.0) opened.1) }
    ensures file { IfOk result (λ opened. file_of opened.0 ≡ file) }
    ensures gate { IfOk result (λ opened. place_of opened.0 ≡ gate_of opened.1) }

    // Nine bytes or fewer are replaced, and more are left.
    ensures short { IsTrue D.tells → length (D.contents desk.old file) ≤ 9 →
        OnOk result (D.contents desk.new file ≡ nine_zeros) }
    ensures long { IsTrue D.tells → 9 < length (D.contents desk.old file) →
        SameFiles (D.contents desk.old) (D.contents desk.new) }

    // It leaves the other files and what is said.
    ensures others { IsTrue D.tells → SameOthers file (D.contents desk.old) (D.contents desk.new) }
    ensures crash_others { IsTrue D.tells → LeavesNoMoreOfOthers file (D.may_leave desk.old) (D.may_leave desk.new) }
    ensures said { IsTrue D.tells → D.said desk.new ≡ D.said desk.old }

    // A crash at any moment of it leaves a file that reads as a read of it gave, or has the same first fault.
    ensures moments { IsTrue D.tells → LeavesOnly D.clock D.might desk.old desk.new (LeavesFile file
        (D.may_leave desk.old) (D.said desk.old) (λ image. bank_of image ≡ bank_of (D.contents desk.old file))) }

    ensures cause { HasDeskCause DeskFault (D.faults desk.old) (D.faults desk.new) result }
{
    let bytes = read_whole(alloc, desk, file)?;
    if bytes.len() > LONGEST_EMPTY {
        return read_opened(alloc, file, bytes);
    }
    write_empty(alloc, desk, file)
}
