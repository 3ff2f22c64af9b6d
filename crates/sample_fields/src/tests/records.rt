//! Records of files, worked out by hand.
//!
//! One cell is cut off at many places, and has one byte changed at many others. Each has one first fault, with its
//! offset in the file, or none: some bytes of leaders and descriptors are not looked at.

ghost use Rattle.std.specs.Prelude.{◌≡◌, ◌<◌};

use chart_ports::Steps;
use iso8211_records::{FileFault, RecordFile, Value, read_file};
use std::alloc::{AllocError, Global};
use std::marker::Brand;
use std::sync::ledger::{Blank, Ledger};
use std::test::Fail;

/// The data descriptive record of the first cell.
const FIRST: &[u8] = b"002013LE1 0900036 ! 3404DSID1650000\x1e1600;&   \
    Data set identification field\x1fRCNM!RCID!EXPP!INTU!DSNM!EDTN!UPDN!UADT!ISDT!STED!PRSP!PSDN!\
    PRED!PROF!AGEN!COMT\x1f(b11,b14,2b11,3A,2A(8),R(4),b11,2A,b11,b12,A)\x1e";

/// Its data record.
const RECORD: &[u8] = b"00091 D     00036   3404DSID0550000\x1e\
    \x0a\x01\x00\x00\x00\x01\x05AA5TEST1.000\x1f1\x1f0\x1f202401012024010103.1\x01\x1f2.0\x1f\x01\x26\x02\x1f\x1e";

/// A field of a record: its tag and its bytes.
pub(crate) type Field<'a> = ([u8; 4], &'a [u8]);

/// A value that is wanted.
#[derive(Drop)]
pub(crate) enum Want {
    Number(i64),
    Text(&'static [u8]),
    Bits(&'static [u8]),
}

fn is_wanted(value: &Value, want: &Want) -> bool {
    match (value, want) {
        (Value::Number(number), Want::Number(wanted)) => number == wanted,
        (Value::Text(text), Want::Text(wanted)) => text.as_slice() == *wanted,
        (Value::Bits(bits), Want::Bits(wanted)) => bits.as_slice() == *wanted,
        _ => false,
    }
}

fn read_with<C: Ledger>(
    alloc: Global,
    bytes: &[u8],
    tags: &[[u8; 4]],
    blank: Blank,
) -> Result<RecordFile, FileFault>
    requires name { blank.name ≡ C.name }
    requires parts { blank.parts ≡ C.parts }
    requires share { 0 < C.parts }
{
    let mut steps = Steps::<C>::new(blank);
    read_file(alloc, bytes, tags, &mut steps)
}

pub(crate) fn read(alloc: Global, bytes: &[u8], tags: &[[u8; 4]]) -> Result<RecordFile, FileFault> {
    read_with::<Brand>(alloc, bytes, tags, Blank::new(1))
}

/// How many data records there are, or the fault.
fn outcome(alloc: Global, bytes: &[u8]) -> Result<usize, FileFault> {
    let file = read(alloc, bytes, &[*b"DSID"])?;
    Ok(file.records.as_slice().len())
}

/// Whether the values of all fields are these.
pub(crate) fn has_values(file: &RecordFile, wanted: &[Want]) -> bool {
    let mut rest = wanted.iter();
    for record in file.records.as_slice() {
        for field in record.as_slice() {
            for value in field.values.as_slice() {
                match rest.next() {
                    Some(want) if is_wanted(value, want) => {}
                    _ => return false,
                }
            }
        }
    }
    rest.next().is_none()
}

/// The first cell.
fn cell(alloc: Global) -> Result<Vec<u8>, AllocError> {
    let mut bytes = FIRST.to_vec(alloc)?;
    bytes.extend_from_slice(RECORD)?;
    Ok(bytes)
}

/// The values of its data record.
static VALUES: [Want; 16] = [
    Want::Number(10),
    Want::Number(1),
    Want::Number(1),
    Want::Number(5),
    Want::Text(b"AA5TEST1.000"),
    Want::Text(b"1"),
    Want::Text(b"0"),
    Want::Text(b"20240101"),
    Want::Text(b"20240101"),
    Want::Text(b"03.1"),
    Want::Number(1),
    Want::Text(b""),
    Want::Text(b"2.0"),
    Want::Number(1),
    Want::Number(550),
    Want::Text(b""),
];

#[test]
fn reads_the_first_cell(rt: HostRuntime) -> Result<(), Fail> {
    let file = read(rt.alloc(), &cell(rt.alloc())?, &[*b"DSID"])?;
    assert_eq!(rt; file.records.as_slice().len(), 1);
    assert!(rt; has_values(&file, &VALUES));
    assert!(rt; file.descriptors.contains(b"DSID"));
    let labels = file
        .descriptors
        .get(b"DSID")
        .map(|descriptor| descriptor.labels.as_slice().len());
    assert_eq!(rt; labels, Some(16));
    Ok(())
}

/// The length of a front of the first cell, and how many data records it has or its first fault.
static FRONTS: [(usize, Result<usize, FileFault>); 14] = [
    (0, Err(FileFault::Leader(0))),
    (23, Err(FileFault::Leader(0))),
    (24, Err(FileFault::Directory(24))),
    (34, Err(FileFault::Directory(24))),
    (35, Err(FileFault::Directory(35))),
    (36, Err(FileFault::Span(0))),
    (200, Err(FileFault::Span(0))),
    (201, Ok(0)),
    (210, Err(FileFault::Leader(201))),
    (230, Err(FileFault::Directory(225))),
    (280, Err(FileFault::Span(201))),
    (291, Err(FileFault::Span(201))),
    (292, Ok(1)),
    (293, Err(FileFault::Leader(292))),
];

/// The first cell, and a byte behind it.
fn cell_and_more(alloc: Global) -> Result<Vec<u8>, AllocError> {
    let mut bytes = cell(alloc)?;
    bytes.push(0x1e)?;
    Ok(bytes)
}

#[test]
fn names_the_fault_of_a_front(rt: HostRuntime) -> Result<(), Fail> {
    let bytes = cell_and_more(rt.alloc())?;
    for (count, wanted) in &FRONTS {
        let front = bytes.as_slice().get(..*count).ok_or("the cell is longer")?;
        assert_eq!(rt; outcome(rt.alloc(), front), *wanted, "at {count}");
    }
    Ok(())
}

/// A place in the first cell, another byte there, and how many data records the cell has then or its first fault.
static CHANGES: [(usize, u8, Result<usize, FileFault>); 32] = [
    // leaders: the kind, the control length, the length, the base address and the entry map
    (6, b'D', Err(FileFault::Leader(0))),
    (11, b'8', Err(FileFault::Leader(0))),
    (207, b'L', Err(FileFault::Leader(201))),
    (207, b'R', Err(FileFault::Leader(201))),
    (213, b'x', Err(FileFault::Leader(201))),
    (221, b'0', Err(FileFault::Leader(201))),
    (224, b'5', Err(FileFault::Leader(201))),
    (5, b'0', Ok(1)),
    (211, b'7', Ok(1)),
    (223, b'x', Ok(1)),
    (205, b'0', Err(FileFault::Span(225))),
    (205, b'2', Err(FileFault::Span(201))),
    // directories: digits, the closing byte, the length and the position of a field
    (29, b'x', Err(FileFault::Directory(24))),
    (35, b'D', Err(FileFault::Directory(35))),
    (217, b'5', Err(FileFault::Directory(225))),
    (236, 0x1f, Err(FileFault::Directory(236))),
    (30, b'6', Err(FileFault::Span(24))),
    (231, b'6', Err(FileFault::Span(225))),
    (235, b'1', Err(FileFault::Span(225))),
    (231, b'4', Err(FileFault::Terminator(225))),
    (200, b')', Err(FileFault::Terminator(24))),
    (291, 0x1f, Err(FileFault::Terminator(225))),
    // a tag that isn't asked for, in one record and in the other
    (225, b'E', Ok(1)),
    (24, b'E', Err(FileFault::Descriptor(*b"DSID"))),
    // the descriptor: the field controls and the name are not looked at
    (40, b'?', Ok(1)),
    (50, b'?', Ok(1)),
    (79, b'?', Err(FileFault::Descriptor(*b"DSID"))),
    // the values
    (237, 0xff, Ok(1)),
    (250, 0x1e, Err(FileFault::Subfield(1, *b"DSID"))),
    (256, b'A', Err(FileFault::Subfield(1, *b"DSID"))),
    (261, 0x1e, Ok(1)),
    (290, b'A', Err(FileFault::Subfield(1, *b"DSID"))),
];

#[test]
fn names_the_fault_of_a_changed_byte(rt: HostRuntime) -> Result<(), Fail> {
    for (place, byte, wanted) in &CHANGES {
        let mut bytes = cell(rt.alloc())?;
        *bytes.get_mut(*place).ok_or("the cell is longer")? = *byte;
        let found = outcome(rt.alloc(), bytes.as_slice());
        assert_eq!(rt; found, *wanted, "{byte} at {place}");
    }
    Ok(())
}
