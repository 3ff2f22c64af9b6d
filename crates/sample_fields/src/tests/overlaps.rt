//! Records whose entries all name the same bytes, so that a file is shorter than its fields in all.
//!
//! What is read of a file is bounded by the bytes of its fields and not by its own, or a small file could take any
//! memory. The bound is 8,388,608 bytes: 128 fields of 65,536 are just as many, and one more is refused.

use crate::tests::records::read;
use crate::tests::small::{MORE, TEST, file_of, push_number};
use iso8211_records::FileFault;
use std::alloc::{AllocError, Global};
use std::test::Fail;

/// A descriptor of a text of 65,535 bytes, so that a field has 65,536: 128 of them have 8,388,608.
const LONG: &[u8] = b"0000;&   N\x1fAAAA\x1f(A(65535))\x1e";

/// Puts a data record behind the bytes, of which so many entries name its one field.
fn push_overlaps(out: &mut Vec<u8>, count: u8) -> Result<(), AllocError> {
    let base = 25 + 10 * usize::from(count);
    push_number(out, base + 65_536, 5)?;
    out.extend_from_slice(b" D     ")?;
    push_number(out, base, 5)?;
    out.extend_from_slice(b"   51 4")?;
    for _ in 0..count {
        out.extend_from_slice(b"TEST655360")?;
    }
    out.push(0x1e)?;
    for _ in 0..65_535 {
        out.push(b'x')?;
    }
    out.push(0x1e)?;
    Ok(())
}

/// How many fields a file is read with, whose data records have so many entries each.
fn fields_read(alloc: Global, counts: &[u8], tag: [u8; 4]) -> Result<usize, FileFault> {
    let mut bytes = file_of(alloc, (1, 1), &[(TEST, LONG)], &[])?;
    for count in counts {
        push_overlaps(&mut bytes, *count)?;
    }
    let file = read(alloc, bytes.as_slice(), &[tag])?;
    let mut fields: usize = 0;
    for record in file.records.as_slice() {
        fields = fields.saturating_add(record.as_slice().len());
    }
    Ok(fields)
}

/// How many entries name the one field of each record, the tag that is asked for, and how many fields are read.
static OVERLAPS: [(&[u8], [u8; 4], Result<usize, FileFault>); 6] = [
    (&[2], TEST, Ok(2)),
    (&[128], TEST, Ok(128)),
    (&[64, 64], TEST, Ok(128)),
    (&[129], TEST, Err(FileFault::NoMemory)),
    (&[64, 65], TEST, Err(FileFault::NoMemory)),
    // The bytes of a field that isn't asked for aren't read.
    (&[129], MORE, Ok(129)),
];

#[test]
fn reads_overlaps_within_the_budget(rt: HostRuntime) -> Result<(), Fail> {
    for (at, (counts, tag, wanted)) in OVERLAPS.iter().enumerate() {
        let found = fields_read(rt.alloc(), counts, *tag);
        assert_eq!(rt; found, *wanted, "case {at}");
    }
    Ok(())
}
