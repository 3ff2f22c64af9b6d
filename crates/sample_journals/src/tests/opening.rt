//! What banks read as, and where they are damaged.
//!
//! What stands behind the closed gate is neither read nor a fault. An opening of nine bytes or fewer writes the empty
//! bank, so each of its four calls fails once here.

use super::{desk_of, read_as};
use bank_journal::{BankFault, open_bank};
use std::test::Fail;

/// Banks, and what they read as.
static READ: [(&[u8], &[u8]); 9] = [
    // Nine bytes or fewer are the empty store, whatever they are.
    (b"", b""),
    (b"123456789", b""),
    // No checkpoint and no record.
    (b"\0\0\0\0\0\0\0\0\0\0", b""),
    // A checkpoint, and a closed gate whose lowest bit alone is 0.
    (b"\0\0\0\0\0\0\0\x02cp\xfe", b"cp"),
    // Two records behind a checkpoint. The gate of the second has other bits beside the lowest.
    (
        b"\0\0\0\0\0\0\0\x02cp\x01\0\0\0\x03abc\xff\0\0\0\x02de\0",
        b"cp|abc|de",
    ),
    // A record without a body, and one whose body is a gate.
    (
        b"\0\0\0\0\0\0\0\0\x01\0\0\0\0\x01\0\0\0\x01\x01\0",
        b"||\x01",
    ),
    // What stands behind the closed gate: less than a length, a record that passes the end, another record.
    (b"\0\0\0\0\0\0\0\x01c\0\x01\x01", b"c"),
    (b"\0\0\0\0\0\0\0\x01c\x01\0\0\0\x01a\0\0\0\0\x09", b"c|a"),
    (b"\0\0\0\0\0\0\0\x01c\0\x01\0\0\0\x01a\0", b"c"),
];

#[test]
fn banks_read_as_what_was_written(rt: HostRuntime) -> Result<(), Fail> {
    for (at, (bank, wanted)) in READ.iter().enumerate() {
        let text = read_as(rt.alloc(), bank)?;
        assert!(rt; text.as_slice() == *wanted, "case {at}");
    }
    Ok(())
}

/// Damaged banks, and the places of their first faults.
static DAMAGED: [(&[u8], u64); 10] = [
    // Another layout.
    (b"\x01\0\0\0\0\0\0\0\0\0", 0),
    // A checkpoint to the end, where a gate should stand, past the end, and as long as the number can say.
    (b"\0\0\0\0\0\0\0\x02cp", 0),
    (b"\0\0\0\0\0\0\0\x03cp", 0),
    (b"\0\xff\xff\xff\xff\xff\xff\xffcp", 0),
    // An open gate with nothing behind it, and with less than a length.
    (b"\0\0\0\0\0\0\0\x01c\x01", 9),
    (b"\0\0\0\0\0\0\0\x01c\x01\0\0\0", 9),
    // A length that passes the end, and the longest.
    (b"\0\0\0\0\0\0\0\x01c\x01\0\0\0\x03a\0", 9),
    (b"\0\0\0\0\0\0\0\x01c\x01\xff\xff\xff\xff", 9),
    // No closed gate behind the record.
    (b"\0\0\0\0\0\0\0\x01c\x01\0\0\0\x01a", 9),
    // The second record is short.
    (b"\0\0\0\0\0\0\0\x01c\x01\0\0\0\x01a\x01\0\0\0\x02b\0", 15),
];

#[test]
fn damaged_banks_have_a_first_fault(rt: HostRuntime) -> Result<(), Fail> {
    for (at, (bank, place)) in DAMAGED.iter().enumerate() {
        let fault = read_as(rt.alloc(), bank).err();
        assert!(rt; fault == Some(BankFault::Foreign(1, *place)), "case {at}");
    }
    Ok(())
}

/// Banks, and the calls of their opening: a length and a read, and for the empty store a write and a sync.
static CALLS: [(&[u8], u64); 6] = [
    (b"\0\0\0\0\0\0\0\x02cp\0", 1),
    (b"\0\0\0\0\0\0\0\x02cp\0", 2),
    (b"", 1),
    (b"", 2),
    (b"", 3),
    (b"", 4),
];

#[test]
fn a_failing_call_is_told(rt: HostRuntime) -> Result<(), Fail> {
    for (at, (bank, number)) in CALLS.iter().enumerate() {
        let mut desk = desk_of(rt.alloc(), bank, &[*number])?;
        let fault = open_bank(rt.alloc(), &mut desk, 1).err();
        assert!(rt; fault == Some(BankFault::DeskFault), "case {at}");
    }
    Ok(())
}

/// Faults of an opening, and what they say.
static SAID: [(BankFault, &str); 3] = [
    (BankFault::DeskFault, "the disk failed"),
    (
        BankFault::Foreign(2, 15),
        "file 2 is no bank from byte 15 on",
    ),
    (BankFault::NoMemory, "there was no memory"),
];

#[test]
fn a_fault_says_what_is_wrong_and_where(rt: HostRuntime) -> Result<(), Fail> {
    for (at, (fault, said)) in SAID.iter().enumerate() {
        let text = format!(in rt.alloc(); "{fault}")?;
        assert!(rt; text.as_str() == *said, "case {at}");
    }
    Ok(())
}
