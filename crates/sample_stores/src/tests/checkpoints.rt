//! Checkpoints that are opened, whose bytes were worked out by hand.
//!
//! What a checkpoint says is held, whatever its files are: the one here is no cell file. So what is held is refused or
//! changed by what the checkpoint says, and only a command that reads the file finds it out.

use crate::banks::{
    CANCELLED, CLOSED, DROPS, FIFTY, LOADS, NO_CELL, NUMBERS, ONE_CELL, ONE_FILE, ROLLS,
};
use crate::files::{FIRST, GENERAL, RECORDS, joined};
use crate::stores::{both_banks, opened};
use std::test::Fail;

/// The pieces of a bank, and what an opening answers where it is bank 1 and where it is bank 2.
static BANKS: [(&[&[u8]], &str, &str); 9] = [
    (&[NO_CELL, CLOSED], "", ""),
    (
        &[NO_CELL, LOADS, FIRST, GENERAL, RECORDS, CLOSED],
        "AA5TEST1 1.0 1 1.0 1;",
        "AA5TEST1 1.0 1 1.0 1;",
    ),
    // A cancelled cell has no chart.
    (
        &[FIFTY, ONE_CELL, NUMBERS, CANCELLED, ONE_FILE, CLOSED],
        "AA5TEST1 1.0 1;",
        "AA5TEST1 1.0 1;",
    ),
    // It is taken away, or a base file takes its place, without a look at its file.
    (
        &[FIFTY, ONE_CELL, NUMBERS, CANCELLED, ONE_FILE, DROPS, CLOSED],
        "",
        "",
    ),
    (
        &[
            FIFTY, ONE_CELL, NUMBERS, CANCELLED, ONE_FILE, DROPS, LOADS, FIRST, GENERAL, RECORDS,
            CLOSED,
        ],
        "AA5TEST1 1.0 1 1.0 1;",
        "AA5TEST1 1.0 1 1.0 1;",
    ),
    // A rollback reads the file: it is no base file, so there is no list to go back to.
    (
        &[FIFTY, ONE_CELL, NUMBERS, CANCELLED, ONE_FILE, ROLLS, CLOSED],
        "Foreign(1, 58)",
        "Foreign(2, 58)",
    ),
    // The flag is neither 0 nor 1; the chart is missing; a byte stands behind the cells.
    (
        &[FIFTY, ONE_CELL, NUMBERS, b"\x02", ONE_FILE, CLOSED],
        "Foreign(1, 8)",
        "Foreign(2, 8)",
    ),
    (
        &[FIFTY, ONE_CELL, NUMBERS, b"\0", ONE_FILE, CLOSED],
        "Foreign(1, 8)",
        "Foreign(2, 8)",
    ),
    (
        &[b"\0\0\0\0\0\0\0\x09\0\0\0\0\0\0\0\0", b"\0", CLOSED],
        "Foreign(1, 8)",
        "Foreign(2, 8)",
    ),
];

#[test]
fn a_checkpoint_says_what_is_held(rt: HostRuntime) -> Result<(), Fail> {
    let alloc = rt.alloc();
    for (number, (pieces, first, second)) in BANKS.iter().enumerate() {
        let bank = joined(alloc, pieces)?;
        let bytes = bank.as_slice();
        // What the other bank says doesn't matter.
        let told = opened(alloc, both_banks(alloc, b"", bytes, &[1; 10])?)?;
        assert_eq!(rt; told.as_str(), *first, "row {number}, bank 1");
        let told = opened(alloc, both_banks(alloc, b"\x01", &[1; 10], bytes)?)?;
        assert_eq!(rt; told.as_str(), *second, "row {number}, bank 2");
    }
    Ok(())
}
