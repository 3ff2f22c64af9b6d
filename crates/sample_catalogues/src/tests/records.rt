//! What the records of a catalogue list.
//!
//! Every record counts for the numbers, those too that list no file.

use super::files::{read, written};
use super::lines::catalogue;
use std::test::Fail;

/// The lines of a catalogue, and its entries.
static RECORDS: [(&[u8], &[u8]); 8] = [
    (b"BIN X.000", b"1 binary X.000\n"),
    (
        b"ASC X.000\nTXT X.000\nbin X.000",
        b"1 other X.000\n2 other X.000\n3 other X.000\n",
    ),
    // as it is listed, also where it isn't fetched
    (b"BIN A\\B/X.000", b"1 binary A\\B/X.000\n"),
    (b"BIN ..\\\xff", b"1 binary ..\\\xff\n"),
    (b"BIN ", b"1 binary \n"),
    // records without a field CATD
    (b"-", b""),
    (
        b"-\nBIN X.000\n-\n-\nTXT Y.000\n-",
        b"2 binary X.000\n5 other Y.000\n",
    ),
    // of several fields the first
    (
        b"TXT X.000|BIN Y.000|ASC Z.000\nBIN X.001|TXT Y.001",
        b"1 other X.000\n2 binary X.001\n",
    ),
];

#[test]
fn records(rt: HostRuntime) -> Result<(), Fail> {
    for (at, (lines, wanted)) in RECORDS.iter().enumerate() {
        let bytes = catalogue(rt.alloc(), lines)?;
        let entries = read(rt.alloc(), bytes.as_slice())?;
        assert!(rt;
            written(rt.alloc(), &entries)?.as_slice() == *wanted,
            "case {at}"
        );
    }
    Ok(())
}
