//! Records copied behind a checkpoint, into a bank that no head names.
//!
//! A record isn't synced here before its gate is opened, as one is that is appended to the current bank: whatever a
//! crash leaves of this file, no head names it yet. So one sync at the end is enough, however many records there are.

ghost use Rattle.std.specs.Prelude.{◌≡◌, ◌+◌, ◌<◌, ◌≤◌, ℕ, List, [], ◌∷◌, ◌++◌, IsTrue, OnOk, length, take};
ghost use Rattle.std.specs.List.{sum_by};
ghost use Rattle.chart_ports.specs.Count.{HasCause};
ghost use Rattle.chart_ports.specs.Disk.{LeavesNoMoreOfOthers, Only, SameOthers};
ghost use Rattle.chart_ports.specs.Moments.{LeavesOnly};
ghost use Rattle.bank_pair.specs.Copying.{records_of};
ghost use Rattle.bank_pair.specs.Pair.{AreFramed};
ghost use Rattle.bank_pair.specs.Saving.{LeavesAnything};

use bank_journal::Framed;
use chart_ports::{Desk, Failed};

/// The byte of a closed gate.
const CLOSED: u8 = 0;

/// The byte of an open gate.
const OPEN: u8 = 1;

/// Opens the closed gate that ends a file, and writes a record's frame behind it.
fn copy_record<D: Desk>(desk: &mut D, file: u8, gate: u64, frame: &[u8]) -> Result<(), Failed>
    requires is_file { file ≤ 2 }
    requires fits { gate < 268435456 }
    requires ends { IsTrue D.tells → length (D.contents desk.old file) ≡ gate + 1 }
    ensures copied { IsTrue D.tells → OnOk result
        (D.contents desk.new file ≡ take gate (D.contents desk.old file) ++ 1 ∷ frame.now) }
    ensures others { IsTrue D.tells → SameOthers file (D.contents desk.old) (D.contents desk.new) }
    ensures crash_others { IsTrue D.tells → LeavesNoMoreOfOthers file (D.may_leave desk.old) (D.may_leave desk.new) }
    ensures said { IsTrue D.tells → D.said desk.new ≡ D.said desk.old }
    ensures moments { IsTrue D.tells → LeavesOnly D.clock D.might desk.old desk.new
        (LeavesAnything file (D.may_leave desk.old) (D.said desk.old)) }
    ensures cause { HasCause (D.faults desk.old) (D.faults desk.new) result }
{
    desk.write_at(file, gate, &[OPEN])?;
    desk.write_at(file, gate + 1, frame)
}

/// Writes a closed gate at the end of a file, and copies records to it one after the other: each opens the closed gate
/// before it, and its frame ends in a closed one.
fn copy_records<D: Desk>(desk: &mut D, file: u8, end: u64, frames: &[Framed]) -> Result<(), Failed>
    requires is_file { file ≤ 2 }
    requires fits { end + sum_by (λ frame. length frame) frames.now < 268435456 }
    requires ends { IsTrue D.tells → length (D.contents desk.old file) ≡ end }
    ensures copied { IsTrue D.tells → OnOk result ((bodies : List (List ℕ)) → AreFramed frames.now bodies →
        D.contents desk.new file ≡ D.contents desk.old file ++ (records_of bodies ++ 0 ∷ [])) }
    ensures others { IsTrue D.tells → SameOthers file (D.contents desk.old) (D.contents desk.new) }
    ensures crash_others { IsTrue D.tells → LeavesNoMoreOfOthers file (D.may_leave desk.old) (D.may_leave desk.new) }
    ensures said { IsTrue D.tells → D.said desk.new ≡ D.said desk.old }
    ensures moments { IsTrue D.tells → LeavesOnly D.clock D.might desk.old desk.new
        (LeavesAnything file (D.may_leave desk.old) (D.said desk.old)) }
    ensures cause { HasCause (D.faults desk.old) (D.faults desk.new) result }
{
    desk.write_at(file, end, &[CLOSED])?;
    let mut gate = end;
    for framed in frames {
        let frame = framed.as_slice();
        copy_record(desk, file, gate, frame)?;
        gate += frame.len() as u64;
    }
    Ok(())
}

/// Ends a bank behind its checkpoint: records are copied there, with a closed gate behind them, and the file is brought
/// to the disk.
pub(crate) fn end_bank<D: Desk>(
    desk: &mut D,
    file: u8,
    end: u64,
    frames: &[Framed],
) -> Result<(), Failed>
    requires is_file { file ≤ 2 }
    requires fits { end + sum_by (λ frame. length frame) frames.now < 268435456 }
    requires ends { IsTrue D.tells → length (D.contents desk.old file) ≡ end }
    ensures copied { IsTrue D.tells → OnOk result ((bodies : List (List ℕ)) → AreFramed frames.now bodies →
        D.contents desk.new file ≡ D.contents desk.old file ++ (records_of bodies ++ 0 ∷ [])) }
    ensures settled { IsTrue D.tells → OnOk result (Only (D.contents desk.new file) (D.may_leave desk.new file)) }
    ensures others { IsTrue D.tells → SameOthers file (D.contents desk.old) (D.contents desk.new) }
    ensures crash_others { IsTrue D.tells → LeavesNoMoreOfOthers file (D.may_leave desk.old) (D.may_leave desk.new) }
    ensures said { IsTrue D.tells → D.said desk.new ≡ D.said desk.old }

    // At each moment of it the file may hold anything, and all else is as before.
    ensures moments { IsTrue D.tells → LeavesOnly D.clock D.might desk.old desk.new
        (LeavesAnything file (D.may_leave desk.old) (D.said desk.old)) }

    ensures cause { HasCause (D.faults desk.old) (D.faults desk.new) result }
{
    copy_records(desk, file, end, frames)?;
    desk.sync(file)
}
