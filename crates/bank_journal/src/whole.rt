//! A whole file read, and bytes brought to the disk.
//!
//! All that a bank writes goes through here, so that no write is left without its sync.

ghost use Rattle.std.specs.Prelude.{◌≡◌, ◌≤◌, IfOk, IfErr, IsTrue, OnOk, length};
ghost use Rattle.chart_ports.specs.Count.{HasCause};
ghost use Rattle.chart_ports.specs.Disk.{LeavesNoMore, LeavesNoMoreOfOthers, Only, SameFiles, SameOthers, Torn};
ghost use Rattle.chart_ports.specs.Disk.{with_bytes};
ghost use Rattle.chart_ports.specs.Moments.{LeavesOnly};
ghost use Rattle.bank_journal.specs.declared.fault.BankFault.TheVariants.{DeskFault};
ghost use Rattle.bank_journal.specs.Fault.{ForeignHas, HasDeskCause};
ghost use Rattle.bank_journal.specs.Moments.{LeavesFile};

use crate::fault::BankFault;
use chart_ports::{Desk, Failed};
use std::alloc::Global;

/// Reads a whole file at once.
///
/// # Errors
///
/// `DeskFault` only where the desk's count rose; `NoMemory`, also where so many bytes can't be in memory.
pub(crate) fn read_whole<D: Desk>(
    alloc: Global,
    desk: &mut D,
    file: u8,
) -> Result<Vec<u8>, BankFault>
    requires is_file { file ≤ 2 }
    requires settled { IsTrue D.tells → Only (D.contents desk.old file) (D.may_leave desk.old file) }
    ensures bytes { IsTrue D.tells → IfOk result (λ bytes. bytes.items ≡ D.contents desk.old file) }
    ensures not_foreign { IfErr result (ForeignHas (λ _ _. ⊥)) }

    // It leaves the files and what is said.
    ensures files { IsTrue D.tells → SameFiles (D.contents desk.old) (D.contents desk.new) }
    ensures said { IsTrue D.tells → D.said desk.new ≡ D.said desk.old }
    ensures crash { IsTrue D.tells → LeavesNoMore (D.may_leave desk.old) (D.may_leave desk.new) }
    ensures moments { IsTrue D.tells → LeavesOnly D.clock D.might desk.old desk.new
        (LeavesFile file (D.may_leave desk.old) (D.said desk.old) (λ image. image ≡ D.contents desk.old file)) }

    ensures cause { HasDeskCause DeskFault (D.faults desk.old) (D.faults desk.new) result }
{
    let length = desk.length(file)?;
    let mut bytes = vec![in alloc; 0; length as usize]?;
    let count = desk.read_at(file, 0, &mut bytes)?;
    bytes.truncate(count);
    Ok(bytes)
}

/// Writes bytes at a place of a file, 0 to 2, and brings them to the disk.
///
/// # Errors
///
/// `Failed` only where the desk's count rose. The file is used no more then.
pub fn write_through<D: Desk>(desk: &mut D, file: u8, at: u64, bytes: &[u8]) -> Result<(), Failed>
    requires is_file { file ≤ 2 }
    requires within { IsTrue D.tells → at ≤ length (D.contents desk.old file) }
    requires settled { IsTrue D.tells → Only (D.contents desk.old file) (D.may_leave desk.old file) }
    ensures done { IsTrue D.tells → OnOk result
        (D.contents desk.new file ≡ with_bytes at bytes.now (D.contents desk.old file)) }
    ensures settled { IsTrue D.tells → OnOk result (Only (D.contents desk.new file) (D.may_leave desk.new file)) }
    ensures others { IsTrue D.tells → SameOthers file (D.contents desk.old) (D.contents desk.new) }
    ensures crash_others { IsTrue D.tells → LeavesNoMoreOfOthers file (D.may_leave desk.old) (D.may_leave desk.new) }
    ensures said { IsTrue D.tells → D.said desk.new ≡ D.said desk.old }

    // At each moment of it the range holds any bytes, and all else is as before.
    ensures moments { IsTrue D.tells → LeavesOnly D.clock D.might desk.old desk.new (LeavesFile file
        (D.may_leave desk.old) (D.said desk.old) (Torn at (length bytes.now) (D.contents desk.old file))) }

    ensures cause { HasCause (D.faults desk.old) (D.faults desk.new) result }
{
    desk.write_at(file, at, bytes)?;
    desk.sync(file)
}
