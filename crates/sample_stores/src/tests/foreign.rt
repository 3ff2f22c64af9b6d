//! Files that are no store's, with the place of their first fault worked out by hand.
//!
//! Any bytes may come from a disk, and the answer is the first fault in a fixed order: the layout and the lengths of
//! the bank that the head names, its checkpoint, and then the first record whose command is none or is refused.

use crate::banks::{CLOSED, DROPS, EXTENDS, HEAD, LOADS};
use crate::files::{FIRST, GENERAL, MOVED, RECORDS, UPDATE, joined};
use crate::stores::{images, opened};
use std::test::Fail;

/// The layout, the length of a checkpoint of one byte, and that byte.
const CHECKPOINT: &[u8] = b"\0\0\0\0\0\0\0\x01c";

/// Records of 6 and 5 bytes that spell nothing.
const UNKNOWN: &[u8] = b"\x01\0\0\0\x01\x04";

const SILENT: &[u8] = b"\x01\0\0\0\0";

/// The head, the bank, and what an opening answers.
static FILES: [(&[u8], &[&[u8]], &str); 28] = [
    // The lowest bit of the head's first byte names the bank: 0 is bank 1, and bank 2 is empty.
    (b"\0", &[], ""),
    (b"\xfe\x01", &[b"\x01\0\0\0\0\0\0\0\0\0"], "Foreign(1, 0)"),
    (b"\x01", &[b"\x01\0\0\0\0\0\0\0\0\0"], ""),
    // Nine bytes are an empty bank, whatever they are, and of ten the first is the layout.
    (b"", &[b"\x01\xff\xff\xff\xff\xff\xff\xff\x01"], ""),
    (b"", &[HEAD, b"\0\x01"], ""),
    (b"", &[b"\x01\0\0\0\0\0\0\0\0\0"], "Foreign(1, 0)"),
    // A checkpoint of one byte is in ten bytes and its gate too; one of two is not.
    (b"", &[CHECKPOINT, CLOSED], "Foreign(1, 8)"),
    (b"", &[b"\0\0\0\0\0\0\0\x02c\0"], "Foreign(1, 0)"),
    (b"", &[b"\0\0\0\0\0\0\0\x03c\0"], "Foreign(1, 0)"),
    (
        b"",
        &[b"\0\xff\xff\xff\xff\xff\xff\xffc\0"],
        "Foreign(1, 0)",
    ),
    // A record behind a checkpoint that is cut short comes before the checkpoint. What the records say doesn't matter.
    (b"", &[CHECKPOINT, b"\x01\0"], "Foreign(1, 9)"),
    (b"", &[CHECKPOINT, DROPS], "Foreign(1, 9)"),
    (b"", &[CHECKPOINT, UNKNOWN, CLOSED], "Foreign(1, 8)"),
    (
        b"",
        &[CHECKPOINT, LOADS, FIRST, GENERAL, RECORDS, CLOSED],
        "Foreign(1, 8)",
    ),
    // The length, the body or the gate behind it passes the end.
    (b"", &[HEAD, b"\x01\0"], "Foreign(1, 8)"),
    (b"", &[HEAD, b"\x01\xff\xff\xff\xff\0"], "Foreign(1, 8)"),
    (b"", &[HEAD, b"\x01\0\0\0\x02\x04\0"], "Foreign(1, 8)"),
    (b"", &[HEAD, DROPS], "Foreign(1, 8)"),
    (
        b"",
        &[HEAD, LOADS, FIRST, GENERAL, RECORDS, DROPS],
        "Foreign(1, 781)",
    ),
    // A body spells nothing, or a record behind it is cut short, which comes first.
    (b"", &[HEAD, SILENT, CLOSED], "Foreign(1, 8)"),
    (b"", &[HEAD, UNKNOWN, DROPS], "Foreign(1, 14)"),
    (
        b"",
        &[
            HEAD, LOADS, FIRST, GENERAL, RECORDS, UNKNOWN, EXTENDS, FIRST, UPDATE, MOVED, CLOSED,
        ],
        "Foreign(1, 781)",
    ),
    // A command is refused where it stands.
    (b"", &[HEAD, DROPS, CLOSED], "Foreign(1, 8)"),
    (
        b"",
        &[HEAD, EXTENDS, FIRST, UPDATE, MOVED, CLOSED],
        "Foreign(1, 8)",
    ),
    (
        b"",
        &[HEAD, LOADS, FIRST, GENERAL, RECORDS, DROPS, DROPS, CLOSED],
        "Foreign(1, 795)",
    ),
    (
        b"",
        &[
            HEAD, LOADS, FIRST, GENERAL, RECORDS, EXTENDS, FIRST, UPDATE, MOVED, LOADS, FIRST,
            GENERAL, RECORDS, CLOSED,
        ],
        "Foreign(1, 1426)",
    ),
    // These are a store's: a gate is closed where its lowest bit is 0, and what stands behind it is not looked at.
    (
        b"",
        &[
            HEAD, LOADS, FIRST, GENERAL, RECORDS, EXTENDS, FIRST, UPDATE, MOVED, CLOSED,
        ],
        "AA5TEST1 1.1 2 1.1 1;",
    ),
    (
        b"",
        &[
            HEAD,
            LOADS,
            FIRST,
            GENERAL,
            RECORDS,
            b"\xfe\xff\xff",
            EXTENDS,
        ],
        "AA5TEST1 1.0 1 1.0 1;",
    ),
];

#[test]
fn the_first_fault_of_files_is_told(rt: HostRuntime) -> Result<(), Fail> {
    let alloc = rt.alloc();
    for (number, (head, bank, answer)) in FILES.iter().enumerate() {
        let bank = joined(alloc, bank)?;
        let told = opened(alloc, images(alloc, head, bank.as_slice())?)?;
        assert_eq!(rt; told.as_str(), *answer, "row {number}");
    }
    Ok(())
}
