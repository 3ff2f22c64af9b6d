//! Records that are appended, and what crashes and failing calls leave of them.
//!
//! An append makes four calls on the disk. It is stopped after each of them, and each of them fails once: what is left
//! reads as the records before, or as those and the new one.

ghost use Rattle.std.specs.Prelude.{◌≤◌, length};

use super::far::Far;
use super::{desk_of, read_as};
use bank_journal::{AppendFault, Bank, frame, open_bank};
use chart_ports::{FileBytes, Fill};
use sample_devices::Untold;
use std::alloc::Global;
use std::test::Fail;

fn append(alloc: Global, desk: &mut Untold, bank: &mut Bank, body: &[u8]) -> Result<(), Fail>
    requires { length body.now ≤ 9 }
{
    let framed = frame(alloc, body)?;
    bank.append(desk, &framed)?;
    Ok(())
}

/// The file after two records were appended to an empty bank.
fn appended(alloc: Global) -> Result<FileBytes, Fail> {
    let mut desk = desk_of(alloc, b"x", &[])?;
    let (mut bank, _) = open_bank(alloc, &mut desk, 1)?;
    append(alloc, &mut desk, &mut bank, b"abc")?;
    append(alloc, &mut desk, &mut bank, b"de")?;
    // Old bytes are those on the disk.
    let image = desk.memory.image_after(alloc, u64::MAX, Fill::Old)?;
    Ok(image.bank1)
}

const APPENDED: &[u8] = b"\0\0\0\0\0\0\0\0\x01\0\0\0\x03abc\x01\0\0\0\x02de\0";

#[test]
fn records_are_appended_byte_for_byte(rt: HostRuntime) -> Result<(), Fail> {
    let alloc = rt.alloc();
    let file = appended(alloc)?;
    assert!(rt; file.as_slice() == APPENDED);
    let text = read_as(alloc, file.as_slice())?;
    assert!(rt; text.as_slice() == b"|abc|de".as_slice());
    Ok(())
}

/// A bank with one record.
const ONE: &[u8] = b"\0\0\0\0\0\0\0\x02cp\x01\0\0\0\x03abc\0";

/// What is left of it after so many calls: of each fill, 0 where it reads as before a second record, 1 where it reads
/// as with it, and ? otherwise.
fn left(alloc: Global, desk: &Untold, calls: u64) -> Result<[u8; 3], Fail> {
    let mut told = [b'?'; 3];
    for (each, fill) in told.iter_mut().zip([Fill::Old, Fill::New, Fill::Ones]) {
        let image = desk.memory.image_after(alloc, calls, fill)?;
        *each = match read_as(alloc, image.bank1.as_slice())?.as_slice() {
            b"cp|abc" => b'0',
            b"cp|abc|de" => b'1',
            _ => b'?',
        };
    }
    Ok(told)
}

/// Opening makes two calls, a length and a read. Appending makes four: the record is written, synced, and its gate is
/// opened, synced. The gate that a crash may have left open or closed is written by the third.
static STOPPED: [(u64, [u8; 3]); 7] = [
    (0, *b"000"),
    (1, *b"000"),
    (2, *b"000"),
    (3, *b"000"),
    (4, *b"000"),
    (5, *b"011"),
    (6, *b"111"),
];

#[test]
fn a_crash_leaves_a_record_or_none(rt: HostRuntime) -> Result<(), Fail> {
    let alloc = rt.alloc();
    let mut desk = desk_of(alloc, ONE, &[])?;
    let (mut bank, _) = open_bank(alloc, &mut desk, 1)?;
    append(alloc, &mut desk, &mut bank, b"de")?;
    for (calls, wanted) in &STOPPED {
        let told = left(alloc, &desk, *calls)?;
        assert!(rt; told == *wanted, "after {calls}");
    }
    Ok(())
}

/// What the append of a record is answered where a call of it fails, and what is left then.
fn failed(alloc: Global, number: u64) -> Result<(Option<AppendFault>, [u8; 3]), Fail> {
    let mut desk = desk_of(alloc, ONE, &[number])?;
    let (mut bank, _) = open_bank(alloc, &mut desk, 1)?;
    let framed = frame(alloc, b"de")?;
    let fault = bank.append(&mut desk, &framed).err();
    Ok((fault, left(alloc, &desk, u64::MAX)?))
}

/// A write that fails has written the first half of its bytes: three of the record's seven, none of the gate's one.
/// Until a sync a crash may leave any bytes in its whole range.
static FAILED: [(u64, [u8; 3]); 4] = [(3, *b"000"), (4, *b"000"), (5, *b"001"), (6, *b"011")];

#[test]
fn a_failing_call_leaves_a_record_or_none(rt: HostRuntime) -> Result<(), Fail> {
    for (number, wanted) in &FAILED {
        let (fault, told) = failed(rt.alloc(), *number)?;
        let same = fault == Some(AppendFault::DeskFault) && told == *wanted;
        assert!(rt; same, "call {number}");
    }
    Ok(())
}

/// The place of the last closed gate before which a body of two bytes has room: 268,435,456 - 6 - 2.
const LAST: u64 = 268_435_448;

/// Why a body of two bytes isn't appended to the bank whose closed gate stands at a place. No file is so long, so the
/// desk fails where it is written.
fn refused(alloc: Global, gate: u64) -> Result<Option<AppendFault>, Fail> {
    let mut desk = Far {
        near: desk_of(alloc, b"", &[])?,
        gate,
    };
    let (mut bank, _) = open_bank(alloc, &mut desk, 1)?;
    let framed = frame(alloc, b"de")?;
    Ok(bank.append(&mut desk, &framed).err())
}

#[test]
fn a_record_has_room_or_is_refused(rt: HostRuntime) -> Result<(), Fail> {
    let there = refused(rt.alloc(), LAST)?;
    assert!(rt; there == Some(AppendFault::DeskFault));
    let full = refused(rt.alloc(), LAST + 1)?;
    assert!(rt;
        full == Some(AppendFault::Full {
            length: 268_435_450,
            need: 7
        })
    );
    Ok(())
}
