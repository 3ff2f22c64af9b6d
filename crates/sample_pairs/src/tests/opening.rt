//! Files that are opened: the bank that the head names is read, and the other one isn't.
//!
//! The other bank may be the half of a save. So rows in which it is damaged are opened as if it weren't, and those in
//! which the named one is are refused.

use crate::driven::{StepFault, drive, leave};
use crate::files::{Files, are_files, desk_with, says};
use bank_journal::BankFault;
use std::alloc::{AllocError, Global};
use std::test::Fail;

/// A checkpoint of one byte and a record, and a checkpoint of two bytes.
const ONE: &[u8] = b"\0\0\0\0\0\0\0\x01A\x01\0\0\0\x01x\0";

const TWO: &[u8] = b"\0\0\0\0\0\0\0\x02AB\0";

/// Another layout, and a record that passes the end.
const LAYOUT: &[u8] = b"\x01\0\0\0\0\0\0\0\0\0";

const SHORT: &[u8] = b"\0\0\0\0\0\0\0\x01A\x01\0\0\0\x03x\0";

/// Nine bytes that would be no bank if there were more of them.
const ODD: &[u8] = b"\x01\xff\xff\xff\xff\xff\xff\xff\x01";

/// The head, bank 1 and bank 2, and what the files say.
static FILES: [(Files, &str); 20] = [
    // The lowest bit of the first byte names the bank, and an empty head bank 1.
    ([b"", ONE, TWO], "1|x"),
    ([b"\0", ONE, TWO], "1|x"),
    ([b"\x01", ONE, TWO], "2"),
    ([b"\x02", ONE, TWO], "1|x"),
    ([b"\x03", ONE, TWO], "2"),
    ([b"\xfe\x09", ONE, TWO], "1|x"),
    ([b"\xff", ONE, TWO], "2"),
    ([b"\0\x01", ONE, TWO], "1|x"),
    ([b"\x01\0", ONE, TWO], "2"),
    // The bank that isn't named is damaged.
    ([b"", ONE, LAYOUT], "1|x"),
    ([b"\0", ONE, SHORT], "1|x"),
    ([b"\x01", LAYOUT, TWO], "2"),
    // The bank that is named is damaged.
    ([b"", LAYOUT, TWO], "Foreign(1, 0)"),
    ([b"\0", SHORT, TWO], "Foreign(1, 9)"),
    ([b"\x01", ONE, LAYOUT], "Foreign(2, 0)"),
    ([b"\x03", ONE, SHORT], "Foreign(2, 9)"),
    // Nine bytes or fewer are the empty bank, whatever they are.
    ([b"\x01", ONE, b""], "0"),
    ([b"\x01", ONE, b"123456789"], "0"),
    ([b"\x01", LAYOUT, ODD], "0"),
    ([b"\0", b"123456789", TWO], "0"),
];

#[test]
fn the_bank_that_the_head_names_is_read(rt: HostRuntime) -> Result<(), Fail> {
    for (number, (files, wanted)) in FILES.iter().enumerate() {
        let told = says(rt.alloc(), *files)?;
        assert!(rt; told.as_str() == *wanted, "row {number}");
    }
    Ok(())
}

/// A bank without checkpoint and records.
const EMPTY: &[u8] = b"\0\0\0\0\0\0\0\0\0";

/// Second banks before they are opened and after it, and why one isn't: nine bytes or fewer are replaced, and more
/// stay.
static OPENED: [(&[u8], &[u8], Option<StepFault>); 5] = [
    (b"", EMPTY, None),
    (b"x", EMPTY, None),
    (b"123456789", EMPTY, None),
    (TWO, TWO, None),
    (
        LAYOUT,
        LAYOUT,
        Some(StepFault::Open(BankFault::Foreign(2, 0))),
    ),
];

/// Whether the opening of a second bank is answered so, and leaves this bank and the other files.
fn is_left(
    alloc: Global,
    bank: &[u8],
    left: &[u8],
    answer: Option<StepFault>,
) -> Result<bool, AllocError> {
    let (fault, images) = leave(alloc, [b"\x01\x02", SHORT, bank], &[])?;
    Ok(fault == answer && are_files(&images, [b"\x01\x02", SHORT, left]))
}

#[test]
fn a_short_bank_is_written_out(rt: HostRuntime) -> Result<(), Fail> {
    for (number, (bank, left, answer)) in OPENED.iter().enumerate() {
        let same = is_left(rt.alloc(), bank, left, *answer)?;
        assert!(rt; same, "row {number}");
    }
    Ok(())
}

/// What an opening answers where a call of this number fails.
fn fault_at(alloc: Global, number: u64) -> Result<Option<StepFault>, AllocError> {
    let mut desk = desk_with(alloc, [b"\x01", ONE, TWO], number)?;
    Ok(drive(alloc, &mut desk, &[]).fault)
}

/// An opening syncs three files, reads the head, asks the length of the bank, and reads it.
const CALLS: u64 = 6;

#[test]
fn a_failing_call_is_told(rt: HostRuntime) -> Result<(), Fail> {
    for number in 1..=CALLS {
        let fault = fault_at(rt.alloc(), number)?;
        let told = fault == Some(StepFault::Open(BankFault::DeskFault));
        assert!(rt; told, "call {number}");
    }
    let none = fault_at(rt.alloc(), CALLS + 1)?;
    assert!(rt; none.is_none());
    Ok(())
}
