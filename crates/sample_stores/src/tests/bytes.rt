//! The bytes of the bank, worked out by hand.
//!
//! The bank is looked at after each call that changes it, so that the order of the writes is seen: a record stands
//! whole behind the closed gate, and is synced, before the gate is opened.

use crate::banks::{CLOSED, DROPS, HEAD, LOADS};
use crate::files::{BASE, FIRST, GENERAL, Given, RECORDS, joined};
use crate::stores::{failing_desk, tell};
use chart_ports::Fill;
use std::test::Fail;

/// The record of the base file and that of the drop behind closed gates.
const WAITS: &[u8] = b"\0\0\0\x03\0\x01";

const WAITING_DROP: &[u8] = b"\0\0\0\0\x09\x03AA5TEST1";

/// After so many calls, the bank.
static BANKS: [(u64, &[&[u8]]); 9] = [
    (7, &[HEAD, CLOSED]),
    (8, &[HEAD, CLOSED]),
    (9, &[HEAD, WAITS, FIRST, GENERAL, RECORDS, CLOSED]),
    (10, &[HEAD, WAITS, FIRST, GENERAL, RECORDS, CLOSED]),
    (11, &[HEAD, LOADS, FIRST, GENERAL, RECORDS, CLOSED]),
    (12, &[HEAD, LOADS, FIRST, GENERAL, RECORDS, CLOSED]),
    (
        13,
        &[HEAD, LOADS, FIRST, GENERAL, RECORDS, WAITING_DROP, CLOSED],
    ),
    (
        14,
        &[HEAD, LOADS, FIRST, GENERAL, RECORDS, WAITING_DROP, CLOSED],
    ),
    (16, &[HEAD, LOADS, FIRST, GENERAL, RECORDS, DROPS, CLOSED]),
];

/// What is told of an opening, a load and a drop: the answer, and what is held.
static TOLD: [(&str, &str); 3] = [
    ("open", ""),
    (
        "AA5TEST1 1 over none: 1 0 false 100/1 110/1",
        "AA5TEST1 1.0 1 1.0 1;",
    ),
    ("AA5TEST1 2 over a chart: 1 0 false 100/1 110/1", ""),
];

#[test]
fn a_load_and_a_drop_are_told(rt: HostRuntime) -> Result<(), Fail> {
    let mut desk = failing_desk(rt.alloc(), 0)?;
    let told = tell(rt.alloc(), &mut desk, &[BASE, Given::Drop])?;
    assert_eq!(rt; told.len(), TOLD.len());
    for (told, (answer, held)) in told.iter().zip(&TOLD) {
        assert!(rt;
            told.answer.as_str() == *answer && told.held.as_str() == *held,
            "{answer}"
        );
    }
    Ok(())
}

#[test]
fn records_are_appended_byte_for_byte(rt: HostRuntime) -> Result<(), Fail> {
    let alloc = rt.alloc();
    let mut desk = failing_desk(alloc, 0)?;
    let _ = tell(alloc, &mut desk, &[BASE, Given::Drop])?;
    for (calls, pieces) in &BANKS {
        let left = desk.image_after(alloc, *calls, Fill::New)?;
        let bank = joined(alloc, pieces)?;
        let same = left.bank1.as_slice() == bank.as_slice();
        assert!(rt; same, "after {calls} calls");
    }
    Ok(())
}

/// After so many calls, the length of the bank. The base file has 767 bytes: 15 more with what stands around it, and 14
/// of the drop.
static LENGTHS: [(u64, usize); 4] = [(6, 0), (8, 9), (12, 782), (16, 796)];

#[test]
fn a_bank_grows_by_a_record(rt: HostRuntime) -> Result<(), Fail> {
    let alloc = rt.alloc();
    let mut desk = failing_desk(alloc, 0)?;
    let _ = tell(alloc, &mut desk, &[BASE, Given::Drop])?;
    for (calls, length) in &LENGTHS {
        let left = desk.image_after(alloc, *calls, Fill::Old)?;
        assert_eq!(rt; left.bank1.as_slice().len(), *length);
        assert!(rt; left.head.as_slice().is_empty() && left.bank2.as_slice().is_empty());
    }
    Ok(())
}
