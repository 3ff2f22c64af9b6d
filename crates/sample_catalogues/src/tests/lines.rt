//! Catalogues as lines, and load orders as lines.
//!
//! A line stands for a data record, so that a table shows what a catalogue lists, and not how it is spelled. What isn't
//! looked at is the path of another cell file in each record.

use super::files::{DATA, DESCRIPTIVE, Draft, read};
use exchange_catalogue::{OrderFault, PathList, load_order};
use std::alloc::{AllocError, Global};
use std::test::Fail;

/// The description of the field CATD, as the standard has it.
const OF_CATD: &[u8] = b"1600;&   Catalogue directory field\x1f\
    RCNM!RCID!FILE!LFIL!VOLM!IMPL!SLAT!WLON!NLAT!ELON!CRCS!COMT\x1f(A(2),I(10),3A,A(3),4R,2A)\x1e";

/// The bytes of a file without data records, which describes the field CATD so.
pub(crate) fn start(alloc: Global, described: &[u8]) -> Result<Vec<u8>, AllocError> {
    let mut record = Draft::new(alloc);
    record.put(
        "0001",
        b"0500;&   ISO/IEC 8211 Record Identifier\x1f\x1f(b12)\x1e",
    )?;
    record.put("CATD", described)?;
    let mut bytes = Vec::new(alloc);
    record.end(alloc, &mut bytes, DESCRIPTIVE)?;
    Ok(bytes)
}

/// The field CATD of a file with this path and this implementation, which is three letters.
fn directory_field(
    alloc: Global,
    implementation: &[u8],
    path: &[u8],
) -> Result<Vec<u8>, AllocError> {
    let mut bytes = Vec::from_slice(alloc, b"CD0000000000")?;
    bytes.extend_from_slice(path)?;
    bytes.extend_from_slice(b"\x1fA\\LONG.000\x1fV01X01\x1f")?;
    bytes.extend_from_slice(implementation)?;
    bytes.extend_from_slice(b"-90\x1f-180\x1f90\x1f180\x1fA\\SUM.000\x1fA\\COMMENT.000\x1f\x1e")?;
    Ok(bytes)
}

/// Puts a data record behind the bytes, with a field CATD for each part of the line that lists a file.
fn push_line(alloc: Global, out: &mut Vec<u8>, line: &[u8]) -> Result<(), AllocError> {
    let mut record = Draft::new(alloc);
    record.put("0001", b"\x01\x00\x1e")?;
    for part in line.split(|byte| *byte == b'|') {
        if let [first, second, third, b' ', path @ ..] = part {
            let field = directory_field(alloc, &[*first, *second, *third], path)?;
            record.put("CATD", field.as_slice())?;
        }
    }
    record.end(alloc, out, DATA)
}

/// The bytes of a catalogue whose data records are these lines. A line has a part for each field CATD of its record,
/// with `|` between them: an implementation, a space and a path. Any other part is no field.
pub(crate) fn catalogue(alloc: Global, lines: &[u8]) -> Result<Vec<u8>, AllocError> {
    let mut bytes = start(alloc, OF_CATD)?;
    for line in lines.split(|byte| *byte == b'\n') {
        push_line(alloc, &mut bytes, line)?;
    }
    Ok(bytes)
}

/// Paths as lines.
pub(crate) fn joined(alloc: Global, paths: &PathList) -> Result<Vec<u8>, AllocError> {
    let mut lines = Vec::new(alloc);
    for (at, path) in paths.as_slice().iter().enumerate() {
        if at > 0 {
            lines.push(b'\n')?;
        }
        lines.extend_from_slice(path.as_slice())?;
    }
    Ok(lines)
}

/// The load order of the catalogue whose data records are these lines.
pub(crate) fn order_of(alloc: Global, lines: &[u8]) -> Result<Result<Vec<u8>, OrderFault>, Fail> {
    let bytes = catalogue(alloc, lines)?;
    let entries = read(alloc, bytes.as_slice())?;
    match load_order(alloc, &entries) {
        Ok(paths) => Ok(Ok(joined(alloc, &paths)?)),
        Err(fault) => Ok(Err(fault)),
    }
}

/// Lines of a catalogue, and those of its load order or why it has none.
pub(crate) type Case = (&'static [u8], Result<&'static [u8], OrderFault>);

/// The place of the first case of a table whose order is another one.
pub(crate) fn first_wrong(alloc: Global, cases: &[Case]) -> Result<Option<usize>, Fail> {
    for (at, (lines, wanted)) in cases.iter().enumerate() {
        let same = match (order_of(alloc, lines)?, wanted) {
            (Ok(paths), Ok(wanted)) => paths.as_slice() == *wanted,
            (Err(fault), Err(wanted)) => fault == *wanted,
            _ => false,
        };
        if !same {
            return Ok(Some(at));
        }
    }
    Ok(None)
}
