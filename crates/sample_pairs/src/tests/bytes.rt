//! The bytes of the files, worked out by hand.
//!
//! The other bank is looked at after each slice and while the first record is copied, and the head is empty all the
//! while: it names no bank that is half written.

use crate::driven::{Step, drive, leave};
use crate::files::{Files, NOTHING, are_files, checkpoint_of, desk_with};
use crate::tests::script::{CALLS, FILLS, FLIPPED, STEPS};
use chart_ports::{Fill, Images};
use std::alloc::{AllocError, Global};
use std::test::Fail;

/// The layout, and 70,000 as seven bytes.
const HEADER: &[u8] = b"\0\0\0\0\0\x01\x11\x70";

/// The layout, and 66,000 as seven bytes.
const NEXT_HEADER: &[u8] = b"\0\0\0\0\0\x01\x01\xd0";

/// The records from b to d, and a closed gate.
const SINCE: &[u8] = b"\x01\0\0\0\x01b\x01\0\0\0\x01c\x01\0\0\0\x01d\0";

/// The records from b to f, and a closed gate.
const ALL_SINCE: &[u8] =
    b"\x01\0\0\0\x01b\x01\0\0\0\x01c\x01\0\0\0\x01d\x01\0\0\0\x01e\x01\0\0\0\x01f\0";

/// Bank 1 up to the flip: no checkpoint, the records from a to d, and a closed gate.
const OLD: &[u8] =
    b"\0\0\0\0\0\0\0\0\x01\0\0\0\x01a\x01\0\0\0\x01b\x01\0\0\0\x01c\x01\0\0\0\x01d\0";

/// A header, so many bytes of a checkpoint, and what stands behind them.
fn bank_with(
    alloc: Global,
    header: &[u8],
    count: usize,
    behind: &[u8],
) -> Result<Vec<u8>, AllocError> {
    let mut bank = header.to_vec(alloc)?;
    bank.extend_from_slice(checkpoint_of(alloc, count)?.as_slice())?;
    bank.extend_from_slice(behind)?;
    Ok(bank)
}

/// What a crash after so many calls of the script leaves.
fn left_after(alloc: Global, calls: u64, fill: Fill) -> Result<Images, AllocError> {
    let mut desk = desk_with(alloc, NOTHING, 0)?;
    let _ = drive(alloc, &mut desk, &STEPS);
    desk.memory.image_after(alloc, calls, fill)
}

/// After so many calls of the script, how many bytes of the checkpoint stand in bank 2, and what stands behind them.
static SLICES: [(u64, usize, &[u8]); 7] = [
    // A slice has 65,536 bytes with the header. An append leaves it.
    (19, 65_528, b""),
    (23, 65_528, b""),
    (24, 70_000, b""),
    (28, 70_000, b""),
    // The closed gate; the gate opened; the record, with the next closed gate.
    (29, 70_000, b"\0"),
    (30, 70_000, b"\x01"),
    (31, 70_000, b"\x01\0\0\0\x01b\0"),
];

/// Whether bank 2 has these bytes of the checkpoint then, and the head none.
fn is_written(alloc: Global, calls: u64, count: usize, behind: &[u8]) -> Result<bool, AllocError> {
    let left = left_after(alloc, calls, Fill::New)?;
    let bank = bank_with(alloc, HEADER, count, behind)?;
    Ok(left.head.as_slice().is_empty() && left.bank2.as_slice() == bank.as_slice())
}

#[test]
fn a_checkpoint_is_written_slice_by_slice(rt: HostRuntime) -> Result<(), Fail> {
    for (calls, count, behind) in &SLICES {
        let written = is_written(rt.alloc(), *calls, *count, behind)?;
        assert!(rt; written, "after {calls} calls");
    }
    Ok(())
}

/// Whether a crash after the flip leaves the head turned, the old bank, and the new one.
fn is_flipped(alloc: Global, fill: Fill) -> Result<bool, AllocError> {
    let left = left_after(alloc, FLIPPED, fill)?;
    let bank = bank_with(alloc, HEADER, 70_000, SINCE)?;
    Ok(are_files(&left, [b"\x01", OLD, bank.as_slice()]))
}

#[test]
fn a_flip_leaves_both_banks_on_the_disk(rt: HostRuntime) -> Result<(), Fail> {
    for (number, fill) in FILLS.iter().enumerate() {
        let flipped = is_flipped(rt.alloc(), *fill)?;
        assert!(rt; flipped, "fill {number}");
    }
    Ok(())
}

/// Whether the script ends with the head turned, the first slice of the second save in bank 1, and all records since
/// the first one in bank 2.
fn is_ended(alloc: Global) -> Result<bool, AllocError> {
    let left = left_after(alloc, CALLS, Fill::New)?;
    let slice = bank_with(alloc, NEXT_HEADER, 65_528, b"")?;
    let bank = bank_with(alloc, HEADER, 70_000, ALL_SINCE)?;
    Ok(are_files(&left, [b"\x01", slice.as_slice(), bank.as_slice()]))
}

#[test]
fn the_next_save_is_written_into_the_first_bank(rt: HostRuntime) -> Result<(), Fail> {
    let ended = is_ended(rt.alloc())?;
    assert!(rt; ended);
    Ok(())
}

/// A bank without checkpoint and records.
const EMPTY: &[u8] = b"\0\0\0\0\0\0\0\0\0";

/// A bank with a checkpoint of two bytes.
const SAVED: &[u8] = b"\0\0\0\0\0\0\0\x02AB\0";

/// Heads before a save, and the files after it.
static HEADS: [(&[u8], Files); 7] = [
    (b"", [b"\x01", EMPTY, SAVED]),
    (b"\0", [b"\x01", EMPTY, SAVED]),
    (b"\x01", [b"\0", SAVED, EMPTY]),
    (b"\xfe", [b"\x01", EMPTY, SAVED]),
    (b"\xff", [b"\0", SAVED, EMPTY]),
    // What stands behind the first byte stays.
    (b"\0\x07\x07", [b"\x01\x07\x07", EMPTY, SAVED]),
    (b"\x03\x07\x07", [b"\0\x07\x07", SAVED, EMPTY]),
];

static SAVE: [Step; 3] = [Step::Begin(2), Step::Slice, Step::Flip];

/// Whether a save under this head leaves these files.
fn is_saved(alloc: Global, head: &[u8], files: Files) -> Result<bool, AllocError> {
    let (fault, left) = leave(alloc, [head, b"", b""], &SAVE)?;
    Ok(fault.is_none() && are_files(&left, files))
}

#[test]
fn a_flip_writes_one_byte_of_the_head(rt: HostRuntime) -> Result<(), Fail> {
    for (number, (head, files)) in HEADS.iter().enumerate() {
        let saved = is_saved(rt.alloc(), head, *files)?;
        assert!(rt; saved, "row {number}");
    }
    Ok(())
}
