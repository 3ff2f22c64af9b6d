//! Small files, whose reading is worked out by hand.
//!
//! Most files have one field under one descriptor, so a row of a table is those and what they are to give. Numbers and
//! texts stand at the ends of what their formats hold, and widths of entries go through all from 1 to 9.

use crate::tests::records::Want::{Bits, Number, Text};
use crate::tests::records::{Field, Want, has_values, read};
use iso8211_records::{FileFault, RecordFile};
use std::alloc::{AllocError, Global};
use std::test::Fail;

/// Puts the last digits of a number behind the bytes, at most nine.
pub(crate) fn push_number(
    out: &mut Vec<u8>,
    number: usize,
    width: usize,
) -> Result<(), AllocError> {
    let mut digits = [b'0'; 9];
    let mut rest = number;
    for digit in digits.iter_mut().rev() {
        *digit = b'0' + (rest % 10) as u8;
        rest /= 10;
    }
    let from = 9usize.saturating_sub(width);
    out.extend_from_slice(digits.get(from..).unwrap_or(&[]))?;
    Ok(())
}

/// Puts a record behind the bytes, whose entries have numbers of these widths.
fn push_record(
    out: &mut Vec<u8>,
    kind: u8,
    widths: (usize, usize),
    fields: &[Field],
) -> Result<(), AllocError> {
    let size = widths.0.saturating_add(widths.1).saturating_add(4);
    let base = size.saturating_mul(fields.len()).saturating_add(25);
    let mut area: usize = 0;
    for field in fields {
        area = area.saturating_add(field.1.len());
    }
    push_number(out, base.saturating_add(area), 5)?;
    out.extend_from_slice(&[b' ', kind])?;
    out.extend_from_slice(b"   09")?;
    push_number(out, base, 5)?;
    out.extend_from_slice(b"   ")?;
    push_number(out, widths.0, 1)?;
    push_number(out, widths.1, 1)?;
    out.extend_from_slice(b" 4")?;
    let mut position: usize = 0;
    for field in fields {
        out.extend_from_slice(&field.0)?;
        push_number(out, field.1.len(), widths.0)?;
        push_number(out, position, widths.1)?;
        position = position.saturating_add(field.1.len());
    }
    out.push(0x1e)?;
    for field in fields {
        out.extend_from_slice(field.1)?;
    }
    Ok(())
}

/// A file of a data descriptive record and of data records whose entries have numbers of these widths.
pub(crate) fn file_of(
    alloc: Global,
    widths: (usize, usize),
    first: &[Field],
    records: &[&[Field]],
) -> Result<Vec<u8>, AllocError> {
    let mut bytes = Vec::new(alloc);
    push_record(&mut bytes, b'L', (3, 4), first)?;
    for record in records {
        push_record(&mut bytes, b'D', widths, record)?;
    }
    Ok(bytes)
}

/// What reading is to give.
#[derive(Drop)]
enum Wanted {
    Values(&'static [Want]),
    Fault(FileFault),
}

use Wanted::{Fault, Values};

/// The array descriptor and the format controls of the field TEST, its bytes in one data record, and
/// what reading that file is to give.
type One = (&'static [u8], &'static [u8], Wanted);

/// The fields of a data descriptive record, those of one data record, and what reading that file for
/// TEST and MORE is to give.
type Small = (&'static [Field<'static>], &'static [Field<'static>], Wanted);

pub(crate) const TEST: [u8; 4] = *b"TEST";

pub(crate) const MORE: [u8; 4] = *b"MORE";

const NATF: [u8; 4] = *b"NATF";

/// A descriptor of one byte, and one of a number of two bytes.
const ONE: &[u8] = b"0000;&   N\x1fAAAA\x1f(b11)\x1e";

const TWO: &[u8] = b"0000;&   N\x1fAAAA\x1f(b12)\x1e";

/// The field TEST of the first data record has no reading.
const UNREAD: FileFault = FileFault::Subfield(1, TEST);

fn is_as_wanted(read: &Result<RecordFile, FileFault>, wanted: &Wanted) -> bool {
    match (read, wanted) {
        (Ok(file), Values(values)) => has_values(file, values),
        (Err(fault), Fault(wanted)) => fault == wanted,
        _ => false,
    }
}

/// The number of the first file of a table that is read otherwise.
fn first_wrong(alloc: Global, table: &[Small]) -> Result<Option<usize>, AllocError> {
    for (number, small) in table.iter().enumerate() {
        let bytes = file_of(alloc, (2, 2), small.0, &[small.1])?;
        if !is_as_wanted(&read(alloc, bytes.as_slice(), &[TEST, MORE]), &small.2) {
            return Ok(Some(number));
        }
    }
    Ok(None)
}

/// The number of the first field of a table that is read otherwise.
fn first_wrong_field(alloc: Global, table: &[One]) -> Result<Option<usize>, AllocError> {
    for (number, one) in table.iter().enumerate() {
        let mut descriptor = b"0000;&   N\x1f".to_vec(alloc)?;
        descriptor.extend_from_slice(one.0)?;
        descriptor.push(0x1e)?;
        let first: &[Field] = &[(TEST, descriptor.as_slice())];
        let record: &[Field] = &[(TEST, one.1)];
        let bytes = file_of(alloc, (2, 2), first, &[record])?;
        if !is_as_wanted(&read(alloc, bytes.as_slice(), &[TEST, MORE]), &one.2) {
            return Ok(Some(number));
        }
    }
    Ok(None)
}

static NUMBERS: [One; 18] = [
    (b"AAAA\x1f(b11)", b"\x05\x1e", Values(&[Number(5)])),
    (b"AAAA\x1f(b11)", b"\xff\x1e", Values(&[Number(255)])),
    (b"AAAA\x1f(b12)", b"\x01\x02\x1e", Values(&[Number(513)])),
    (b"AAAA\x1f(b12)", b"\xff\xff\x1e", Values(&[Number(65535)])),
    (
        b"AAAA\x1f(b14)",
        b"\x01\x02\x03\x04\x1e",
        Values(&[Number(67305985)]),
    ),
    (
        b"AAAA\x1f(b14)",
        b"\xff\xff\xff\xff\x1e",
        Values(&[Number(4294967295)]),
    ),
    (b"AAAA\x1f(b21)", b"\x7f\x1e", Values(&[Number(127)])),
    (b"AAAA\x1f(b21)", b"\x80\x1e", Values(&[Number(-128)])),
    (b"AAAA\x1f(b21)", b"\xff\x1e", Values(&[Number(-1)])),
    (b"AAAA\x1f(b22)", b"\xff\x7f\x1e", Values(&[Number(32767)])),
    (b"AAAA\x1f(b22)", b"\x00\x80\x1e", Values(&[Number(-32768)])),
    (b"AAAA\x1f(b22)", b"\xfe\xff\x1e", Values(&[Number(-2)])),
    (
        b"AAAA\x1f(b24)",
        b"\xff\xff\xff\x7f\x1e",
        Values(&[Number(2147483647)]),
    ),
    (
        b"AAAA\x1f(b24)",
        b"\x00\x00\x00\x80\x1e",
        Values(&[Number(-2147483648)]),
    ),
    (
        b"AAAA!BBBB!CCCC\x1f(b21,b22,b24)",
        b"\xff\xfe\xff\xfd\xff\xff\xff\x1e",
        Values(&[Number(-1), Number(-2), Number(-3)]),
    ),
    (b"AAAA\x1f(b12)", b"\x01\x1e", Fault(UNREAD)),
    (b"AAAA\x1f(b12)", b"\x01\x02\x03\x1e", Fault(UNREAD)),
    (b"AAAA\x1f(b11)", b"\x1e", Fault(UNREAD)),
];

#[test]
fn reads_numbers(rt: HostRuntime) -> Result<(), Fail> {
    assert_eq!(rt; first_wrong_field(rt.alloc(), &NUMBERS)?, None);
    Ok(())
}

static TEXTS: [One; 16] = [
    (b"AAAA\x1f(A)", b"\x1f\x1e", Values(&[Text(b"")])),
    (b"AAAA\x1f(I)", b"12\x1f\x1e", Values(&[Text(b"12")])),
    (b"AAAA\x1f(R)", b"-1.5\x1f\x1e", Values(&[Text(b"-1.5")])),
    (b"AAAA\x1f(A())", b"ab\x1f\x1e", Values(&[Text(b"ab")])),
    (
        b"AAAA!BBBB\x1f(2A)",
        b"a\x1fb\x1f\x1e",
        Values(&[Text(b"a"), Text(b"b")]),
    ),
    (
        b"AAAA!BBBB\x1f(A(2),I)",
        b"ab12\x1f\x1e",
        Values(&[Text(b"ab"), Text(b"12")]),
    ),
    (
        b"AAAA!BBBB\x1f(A(2),A)",
        b"\x1e\x1f\x1f\x1e",
        Values(&[Text(b"\x1e\x1f"), Text(b"")]),
    ),
    (b"AAAA\x1f(I(3))", b"007\x1e", Values(&[Text(b"007")])),
    (b"AAAA\x1f(R(03))", b"1.5\x1e", Values(&[Text(b"1.5")])),
    (
        b"AAAA\x1f(B(16))",
        b"\x01\x02\x1e",
        Values(&[Bits(b"\x01\x02")]),
    ),
    (
        b"AAAA!BBBB\x1f(B(8),b11)",
        b"\x1e\x1f\x1e",
        Values(&[Bits(b"\x1e"), Number(31)]),
    ),
    (b"AAAA\x1f(A)", b"ab\x1e", Fault(UNREAD)),
    (b"AAAA\x1f(A)", b"a\x1eb\x1f\x1e", Fault(UNREAD)),
    (b"AAAA\x1f(A)", b"a\x1fb\x1f\x1e", Fault(UNREAD)),
    (b"AAAA\x1f(A(3))", b"ab\x1e", Fault(UNREAD)),
    (b"AAAA\x1f(B(16))", b"\x01\x1e", Fault(UNREAD)),
];

#[test]
fn reads_texts(rt: HostRuntime) -> Result<(), Fail> {
    assert_eq!(rt; first_wrong_field(rt.alloc(), &TEXTS)?, None);
    Ok(())
}

static GROUPS: [One; 12] = [
    (b"AAAA!*BBBB\x1f(b11,A)", b"\x01\x1e", Values(&[Number(1)])),
    (
        b"AAAA!*BBBB\x1f(b11,A)",
        b"\x01x\x1f\x1e",
        Values(&[Number(1), Text(b"x")]),
    ),
    (
        b"AAAA!*BBBB\x1f(b11,A)",
        b"\x01x\x1fy\x1f\x1f\x1e",
        Values(&[Number(1), Text(b"x"), Text(b"y"), Text(b"")]),
    ),
    (
        b"AAAA!*BBBB!CCCC\x1f(b11,A,b12)",
        b"\x01x\x1f\x02\x00y\x1f\x03\x00\x1e",
        Values(&[Number(1), Text(b"x"), Number(2), Text(b"y"), Number(3)]),
    ),
    (b"*AAAA\x1f(b11)", b"\x1e", Values(&[])),
    (
        b"*AAAA\x1f(b11)",
        b"\x01\x02\x03\x1e",
        Values(&[Number(1), Number(2), Number(3)]),
    ),
    (
        b"*AAAA!BBBB\x1f(b11,b12)",
        b"\x01\x02\x00\x03\x04\x00\x1e",
        Values(&[Number(1), Number(2), Number(3), Number(4)]),
    ),
    (
        b"*AAAA!BBBB\x1f(b24,b24)",
        b"\xff\xff\xff\xff\x01\x00\x00\x00\x1e",
        Values(&[Number(-1), Number(1)]),
    ),
    (b"*AAAA!BBBB\x1f(b11,b12)", b"\x01\x02\x1e", Fault(UNREAD)),
    (
        b"*AAAA!BBBB\x1f(b11,b12)",
        b"\x01\x02\x00\x03\x1e",
        Fault(UNREAD),
    ),
    (b"AAAA!*BBBB\x1f(b11,A)", b"\x1e", Fault(UNREAD)),
    (b"AAAA!*BBBB\x1f(b11,A)", b"\x01x\x1e", Fault(UNREAD)),
];

#[test]
fn reads_groups(rt: HostRuntime) -> Result<(), Fail> {
    assert_eq!(rt; first_wrong_field(rt.alloc(), &GROUPS)?, None);
    Ok(())
}

static TAGS: [Small; 17] = [
    (
        &[(TEST, ONE)],
        &[(TEST, b"\x01\x1e"), (TEST, b"\x02\x1e")],
        Values(&[Number(1), Number(2)]),
    ),
    (
        &[(TEST, ONE), (TEST, TWO)],
        &[(TEST, b"\x01\x1e")],
        Values(&[Number(1)]),
    ),
    (
        &[(TEST, TWO), (TEST, ONE)],
        &[(TEST, b"\x01\x1e")],
        Fault(UNREAD),
    ),
    (
        &[(TEST, ONE), (TEST, b"?\x1e")],
        &[(TEST, b"\x01\x1e")],
        Values(&[Number(1)]),
    ),
    (
        &[(TEST, ONE), (TEST, b"?")],
        &[(TEST, b"\x01\x1e")],
        Fault(FileFault::Terminator(35)),
    ),
    (
        &[(TEST, ONE), (TEST, b"")],
        &[(TEST, b"\x01\x1e")],
        Fault(FileFault::Terminator(35)),
    ),
    (
        &[(NATF, b"?"), (TEST, ONE)],
        &[(NATF, b""), (TEST, b"\x01\x1e")],
        Values(&[Number(1)]),
    ),
    (
        &[(TEST, ONE), (MORE, TWO)],
        &[(TEST, b"\x01\x1e")],
        Values(&[Number(1)]),
    ),
    (
        &[(TEST, ONE), (MORE, TWO)],
        &[(MORE, b"\x01\x00\x1e"), (TEST, b"\x02\x1e")],
        Values(&[Number(1), Number(2)]),
    ),
    (
        &[(MORE, ONE)],
        &[(TEST, b"\x01\x1e")],
        Fault(FileFault::Descriptor(TEST)),
    ),
    (
        &[(MORE, ONE)],
        &[(MORE, b"\x01\x02\x1e"), (TEST, b"\x01\x1e")],
        Fault(FileFault::Descriptor(TEST)),
    ),
    (
        &[(TEST, b"?\x1e"), (MORE, ONE)],
        &[(MORE, b"\x01\x1e")],
        Fault(FileFault::Descriptor(TEST)),
    ),
    (
        &[(TEST, ONE), (MORE, b"?\x1e")],
        &[(TEST, b"\x01\x1e")],
        Fault(FileFault::Descriptor(MORE)),
    ),
    (
        &[(MORE, b"?\x1e"), (TEST, b"?\x1e")],
        &[(TEST, b"\x01\x1e")],
        Fault(FileFault::Descriptor(MORE)),
    ),
    (
        &[(TEST, ONE)],
        &[(TEST, b"")],
        Fault(FileFault::Terminator(82)),
    ),
    (
        &[(TEST, ONE)],
        &[(TEST, b"\x01\x02\x1e"), (TEST, b"\x01")],
        Fault(FileFault::Terminator(90)),
    ),
    (
        &[(TEST, ONE), (MORE, ONE)],
        &[(MORE, b"\x1e"), (TEST, b"\x1e")],
        Fault(FileFault::Subfield(1, MORE)),
    ),
];

#[test]
fn reads_by_tags(rt: HostRuntime) -> Result<(), Fail> {
    assert_eq!(rt; first_wrong(rt.alloc(), &TAGS)?, None);
    Ok(())
}

/// Whether a file whose entries have these widths reads as its two records.
fn reads_widths(alloc: Global, widths: (usize, usize)) -> Result<bool, FileFault> {
    let record: &[Field] = &[(TEST, b"\x01\x1e"), (TEST, b"\x02\x1e")];
    let bytes = file_of(alloc, widths, &[(TEST, ONE)], &[record, record])?;
    let file = read(alloc, bytes.as_slice(), &[TEST])?;
    let wanted = [Number(1), Number(2), Number(1), Number(2)];
    Ok(file.records.as_slice().len() == 2 && has_values(&file, &wanted))
}

#[test]
fn reads_entries_of_every_width(rt: HostRuntime) -> Result<(), Fail> {
    for width in 1..10 {
        assert!(rt; reads_widths(rt.alloc(), (width, 1))?, "{width} and 1");
        assert!(rt; reads_widths(rt.alloc(), (width, width))?, "{width} twice");
        assert!(rt;
            reads_widths(rt.alloc(), (10 - width, width))?,
            "and {width}"
        );
    }
    Ok(())
}

/// Reading takes nothing from what was read before: a second reading gives all the records again.
#[test]
fn reads_all_records_again(rt: HostRuntime) -> Result<(), Fail> {
    let first: &[Field] = &[(TEST, ONE), (MORE, TWO)];
    let records: [&[Field]; 3] = [
        &[(TEST, b"\x01\x1e")],
        &[(MORE, b"\x02\x00\x1e"), (TEST, b"\x03\x1e")],
        &[(NATF, b"?"), (MORE, b"\x04\x00\x1e")],
    ];
    let bytes = file_of(rt.alloc(), (2, 2), first, &records)?;
    let wanted = [Number(1), Number(2), Number(3), Number(4)];
    for _ in 0..2 {
        let file = read(rt.alloc(), bytes.as_slice(), &[TEST, MORE])?;
        assert_eq!(rt; file.records.as_slice().len(), 3);
        assert!(rt; has_values(&file, &wanted));
    }
    Ok(())
}

const READABLE: &[Field<'static>] = &[(TEST, b"\x01\x1e")];

const UNREADABLE: &[Field<'static>] = &[(TEST, b"\x01\x02\x1e")];

const OPEN: &[Field<'static>] = &[(TEST, b"\x01")];

/// Three records, and how many records the file has or its first fault. The data descriptive record has 58 bytes, and a
/// data record 35 without a fault.
static RECORDS: [([&[Field<'static>]; 3], Result<usize, FileFault>); 5] = [
    ([READABLE, READABLE, READABLE], Ok(3)),
    (
        [READABLE, READABLE, UNREADABLE],
        Err(FileFault::Subfield(3, TEST)),
    ),
    (
        [READABLE, UNREADABLE, OPEN],
        Err(FileFault::Subfield(2, TEST)),
    ),
    ([OPEN, UNREADABLE, READABLE], Err(FileFault::Terminator(82))),
    (
        [READABLE, OPEN, UNREADABLE],
        Err(FileFault::Terminator(117)),
    ),
];

/// How many records a file of these has, or its first fault.
fn records_read(alloc: Global, records: &[&[Field]]) -> Result<usize, FileFault> {
    let bytes = file_of(alloc, (2, 2), &[(TEST, ONE)], records)?;
    let file = read(alloc, bytes.as_slice(), &[TEST])?;
    Ok(file.records.as_slice().len())
}

#[test]
fn names_the_first_record_with_a_fault(rt: HostRuntime) -> Result<(), Fail> {
    for (at, (records, wanted)) in RECORDS.iter().enumerate() {
        assert_eq!(rt; records_read(rt.alloc(), records), *wanted, "case {at}");
    }
    Ok(())
}
