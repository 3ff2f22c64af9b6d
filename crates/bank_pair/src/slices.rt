//! The header and the checkpoint of a bank, in slices.
//!
//! The file that they are written into is none that a head names. So nothing here is brought to the disk, and whatever
//! a crash leaves of the file doesn't count.

ghost use Rattle.std.specs.Prelude.{◌≡◌, ◌≢◌, ◌+◌, ◌*◌, ◌^◌, ◌<◌, ◌≤◌, ◌∷◌, IsTrue, OnOk, length, take};
ghost use Rattle.byteorder.specs.Endian.{big_bytes};
ghost use Rattle.chart_ports.specs.Count.{HasCause};
ghost use Rattle.chart_ports.specs.Disk.{LeavesNoMoreOfOthers, SameOthers};
ghost use Rattle.chart_ports.specs.Moments.{LeavesOnly};
ghost use Rattle.bank_pair.specs.Saving.{AreSlicesOf, LeavesAnything, with_header};

use byteorder::{BigEndian, ByteOrder};
use chart_ports::{Desk, Failed};

/// The bytes of a slice; the last one may be shorter.
const SLICE: usize = 65_536;

/// The bytes before the checkpoint: the layout, and the checkpoint's length.
pub(crate) const HEADER: usize = 8;

/// In how many slices the header and a checkpoint are written.
pub(crate) fn slices_of(checkpoint: &[u8]) -> u32
    requires { length checkpoint.now < 268435456 }
    ensures { AreSlicesOf checkpoint.now result }
{
    (HEADER + checkpoint.len()).div_ceil(SLICE) as u32
}

/// Empties a file, and writes the header for a checkpoint of so many bytes.
fn write_header<D: Desk>(desk: &mut D, file: u8, length: u64) -> Result<(), Failed>
    requires is_file { file ≤ 2 }
    requires fits { length < 256 ^ 7 }
    ensures header { IsTrue D.tells → OnOk result (D.contents desk.new file ≡ 0 ∷ big_bytes 7 length) }
    ensures others { IsTrue D.tells → SameOthers file (D.contents desk.old) (D.contents desk.new) }
    ensures crash_others { IsTrue D.tells → LeavesNoMoreOfOthers file (D.may_leave desk.old) (D.may_leave desk.new) }
    ensures said { IsTrue D.tells → D.said desk.new ≡ D.said desk.old }
    ensures moments { IsTrue D.tells → LeavesOnly D.clock D.might desk.old desk.new
        (LeavesAnything file (D.may_leave desk.old) (D.said desk.old)) }
    ensures cause { HasCause (D.faults desk.old) (D.faults desk.new) result }
{
    let mut header = [0; HEADER];
    BigEndian::write_uint(&mut header[1..], length, 7);
    desk.cut(file, 0)?;
    desk.write_at(file, 0, &header)
}

/// Writes the first slice into a file, which is emptied before.
fn write_first<D: Desk>(desk: &mut D, file: u8, checkpoint: &[u8]) -> Result<(), Failed>
    requires is_file { file ≤ 2 }
    requires fits { length checkpoint.now < 268435456 }
    ensures written { IsTrue D.tells → OnOk result
        (D.contents desk.new file ≡ take 65536 (with_header checkpoint.now)) }
    ensures others { IsTrue D.tells → SameOthers file (D.contents desk.old) (D.contents desk.new) }
    ensures crash_others { IsTrue D.tells → LeavesNoMoreOfOthers file (D.may_leave desk.old) (D.may_leave desk.new) }
    ensures said { IsTrue D.tells → D.said desk.new ≡ D.said desk.old }
    ensures moments { IsTrue D.tells → LeavesOnly D.clock D.might desk.old desk.new
        (LeavesAnything file (D.may_leave desk.old) (D.said desk.old)) }
    ensures cause { HasCause (D.faults desk.old) (D.faults desk.new) result }
{
    write_header(desk, file, checkpoint.len() as u64)?;
    let end = checkpoint.len().min(SLICE - HEADER);
    desk.write_at(file, HEADER as u64, &checkpoint[..end])
}

/// Writes the slice behind so many others, which are all that the file has.
fn write_behind<D: Desk>(
    desk: &mut D,
    file: u8,
    checkpoint: &[u8],
    slices: u32,
) -> Result<(), Failed>
    requires is_file { file ≤ 2 }
    requires begun { 0 < slices }
    requires left { slices * 65536 < 8 + length checkpoint.now }
    requires before { IsTrue D.tells → D.contents desk.old file ≡ take (slices * 65536) (with_header checkpoint.now) }
    ensures written { IsTrue D.tells → OnOk result
        (D.contents desk.new file ≡ take ((slices + 1) * 65536) (with_header checkpoint.now)) }
    ensures others { IsTrue D.tells → SameOthers file (D.contents desk.old) (D.contents desk.new) }
    ensures crash_others { IsTrue D.tells → LeavesNoMoreOfOthers file (D.may_leave desk.old) (D.may_leave desk.new) }
    ensures said { IsTrue D.tells → D.said desk.new ≡ D.said desk.old }
    ensures moments { IsTrue D.tells → LeavesOnly D.clock D.might desk.old desk.new
        (LeavesAnything file (D.may_leave desk.old) (D.said desk.old)) }
    ensures cause { HasCause (D.faults desk.old) (D.faults desk.new) result }
{
    let at = slices as usize * SLICE;
    let start = at - HEADER;
    let end = checkpoint.len().min(start + SLICE);
    desk.write_at(file, at as u64, &checkpoint[start..end])
}

/// Writes the slice of a number, counted from 0, into a file that has those before it and no more. The first call
/// empties the file.
pub(crate) fn write_numbered<D: Desk>(
    desk: &mut D,
    file: u8,
    checkpoint: &[u8],
    number: u32,
) -> Result<(), Failed>
    requires is_file { file ≤ 2 }
    requires fits { length checkpoint.now < 268435456 }
    requires left { number * 65536 < 8 + length checkpoint.now }
    requires before { IsTrue D.tells → number ≢ 0 →
        D.contents desk.old file ≡ take (number * 65536) (with_header checkpoint.now) }
    ensures written { IsTrue D.tells → OnOk result
        (D.contents desk.new file ≡ take ((number + 1) * 65536) (with_header checkpoint.now)) }
    ensures others { IsTrue D.tells → SameOthers file (D.contents desk.old) (D.contents desk.new) }
    ensures crash_others { IsTrue D.tells → LeavesNoMoreOfOthers file (D.may_leave desk.old) (D.may_leave desk.new) }
    ensures said { IsTrue D.tells → D.said desk.new ≡ D.said desk.old }

    // At each moment of it the file may hold anything, and all else is as before.
    ensures moments { IsTrue D.tells → LeavesOnly D.clock D.might desk.old desk.new
        (LeavesAnything file (D.may_leave desk.old) (D.said desk.old)) }

    ensures cause { HasCause (D.faults desk.old) (D.faults desk.new) result }
{
    if number == 0 {
        return write_first(desk, file, checkpoint);
    }
    write_behind(desk, file, checkpoint, number)
}
