//! Fields worked out by hand from the grammar.
//!
//! Descriptors of the standard's fields come first, and then texts that are one byte or one mark beside one. A label
//! that looks like a mark is among those that are read.

use super::*;
use std::alloc::{AllocError, Global};
use std::process::Abort;
use std::test::Fail;

/// A field with this array descriptor and these format controls.
fn field(alloc: Global, array: &[u8], controls: &[u8]) -> Result<Vec<u8>, AllocError> {
    let mut bytes = Vec::from_slice(alloc, b"1600;&   Some field")?;
    bytes.push(0x1F)?;
    bytes.extend_from_slice(array)?;
    bytes.push(0x1F)?;
    bytes.extend_from_slice(controls)?;
    bytes.push(0x1E)?;
    Ok(bytes)
}

/// Reads a field, and compares what it says.
fn check(
    rt: &impl Abort,
    bytes: &[u8],
    labels: &[[u8; 4]],
    formats: &[Format],
    repeats_from: Option<u32>,
) {
    match read_descriptor(bytes) {
        Ok(descriptor) => {
            assert_eq!(rt; descriptor.subfield_count(), labels.len());
            assert!(rt; descriptor.labels.as_slice() == labels);
            assert!(rt; descriptor.formats.as_slice() == formats);
            assert_eq!(rt; descriptor.repeats_from, repeats_from);
        }
        Err(fault) => panic!(rt; "{fault:?}"),
    }
}

#[test]
fn general_information(rt: HostRuntime) -> Result<(), Fail> {
    let bytes = field(
        rt.alloc(),
        b"RCNM!RCID!EXPP!INTU!DSNM!EDTN!UPDN!UADT!ISDT!STED!PRSP!PSDN!PRED!PROF!AGEN!COMT",
        b"(b11,b14,2b11,3A,2A(8),R(4),b11,2A,b11,b12,A)",
    )?;
    let labels = [
        *b"RCNM", *b"RCID", *b"EXPP", *b"INTU", *b"DSNM", *b"EDTN", *b"UPDN", *b"UADT", *b"ISDT",
        *b"STED", *b"PRSP", *b"PSDN", *b"PRED", *b"PROF", *b"AGEN", *b"COMT",
    ];
    let formats = [
        Format::Unsigned(1),
        Format::Unsigned(4),
        Format::Unsigned(1),
        Format::Unsigned(1),
        Format::TextOpen,
        Format::TextOpen,
        Format::TextOpen,
        Format::Text(8),
        Format::Text(8),
        Format::Text(4),
        Format::Unsigned(1),
        Format::TextOpen,
        Format::TextOpen,
        Format::Unsigned(1),
        Format::Unsigned(2),
        Format::TextOpen,
    ];
    check(&rt, &bytes, &labels, &formats, None);
    Ok(())
}

#[test]
fn repeated_groups(rt: HostRuntime) -> Result<(), Fail> {
    let attributes = field(rt.alloc(), b"*ATTL!ATVL", b"(b12,A)")?;
    let formats = [Format::Unsigned(2), Format::TextOpen];
    check(&rt, &attributes, &[*b"ATTL", *b"ATVL"], &formats, Some(1));

    let soundings = field(rt.alloc(), b"*YCOO!XCOO!VE3D", b"(3b24)")?;
    let labels = [*b"YCOO", *b"XCOO", *b"VE3D"];
    check(&rt, &soundings, &labels, &[Format::Signed(4); 3], Some(1));

    let related = field(rt.alloc(), b"*LNAM!RIND!COMT", b"(B(64),b11,A)")?;
    let labels = [*b"LNAM", *b"RIND", *b"COMT"];
    let formats = [Format::Bits(64), Format::Unsigned(1), Format::TextOpen];
    check(&rt, &related, &labels, &formats, Some(1));

    let later = field(rt.alloc(), b"AAAA!BBBB!*CCCC", b"(I,002R(0012))")?;
    let labels = [*b"AAAA", *b"BBBB", *b"CCCC"];
    let formats = [Format::TextOpen, Format::Text(12), Format::Text(12)];
    check(&rt, &later, &labels, &formats, Some(3));

    // A label may hold any bytes: its place tells what it is.
    let odd = field(rt.alloc(), b"*ABC!!DEF!*GHIJ", b"(A(),I(99999),b22)")?;
    let labels = [*b"*ABC", *b"!DEF", *b"GHIJ"];
    let formats = [Format::TextOpen, Format::Text(99_999), Format::Signed(2)];
    check(&rt, &odd, &labels, &formats, Some(3));
    let stars = field(rt.alloc(), b"****", b"(b21)")?;
    check(&rt, &stars, &[*b"****"], &[Format::Signed(1)], None);
    Ok(())
}

/// Whether no field with one of these array descriptors and format controls has a descriptor.
fn are_all_bad(alloc: Global, cases: &[(&[u8], &[u8])]) -> Result<bool, AllocError> {
    for (array, controls) in cases {
        let bytes = field(alloc, array, controls)?;
        if !matches!(read_descriptor(&bytes), Err(DescriptorFault::Bad)) {
            return Ok(false);
        }
    }
    Ok(true)
}

#[test]
fn other_labels_and_lists(rt: HostRuntime) -> Result<(), Fail> {
    let cases: [(&[u8], &[u8]); 17] = [
        // labels
        (b"", b"(A)"),
        (b"ABC", b"(A)"),
        (b"ABCDE", b"(A)"),
        (b"ABCD!", b"(A)"),
        (b"**ABCD", b"(A)"),
        (b"ABCD?EFGH", b"(2A)"),
        (b"*ABCD!*EFGH", b"(2A)"),
        (b"ABCD!*EFGHI", b"(2A)"),
        // the list
        (b"ABCD", b""),
        (b"ABCD", b"A"),
        (b"ABCD", b"(A"),
        (b"ABCD", b"()"),
        (b"ABCD", b"(A,)"),
        (b"ABCD", b"(A) "),
        (b"ABCD", b"(A))"),
        (b"ABCD", b"(2A)"),
        (b"ABCD!EFGH", b"(A)"),
    ];
    assert!(rt; are_all_bad(rt.alloc(), &cases)?);
    Ok(())
}

#[test]
fn other_counts_and_formats(rt: HostRuntime) -> Result<(), Fail> {
    let cases: [(&[u8], &[u8]); 18] = [
        // counts
        (b"ABCD", b"(0A)"),
        (b"ABCD", b"(99999999999999999999A)"),
        (b"ABCD", b"(1)"),
        (b"ABCD", b"(-1A)"),
        // formats
        (b"ABCD", b"(C)"),
        (b"ABCD", b"(I())"),
        (b"ABCD", b"(R())"),
        (b"ABCD", b"(A(0))"),
        (b"ABCD", b"(A(100000))"),
        (b"ABCD", b"(A(8)"),
        (b"ABCD", b"(A(8)8)"),
        (b"ABCD", b"(B)"),
        (b"ABCD", b"(B())"),
        (b"ABCD", b"(B(12))"),
        (b"ABCD", b"(b1)"),
        (b"ABCD", b"(b13)"),
        (b"ABCD", b"(b34)"),
        (b"ABCD", b"(b111)"),
    ];
    assert!(rt; are_all_bad(rt.alloc(), &cases)?);
    Ok(())
}

#[test]
fn other_fields(rt: HostRuntime) {
    let cases: [&[u8]; 6] = [
        b"",
        // eight field controls
        b"1600;&  \x1FABCD\x1F(A)\x1E",
        b"1600;&   Name",
        b"1600;&   Name\x1FABCD(A)\x1E",
        b"1600;&   Name\x1FABCD\x1F(A)",
        b"1600;&   Name\x1FABCD\x1F(A)\x1E\x1E",
    ];
    for bytes in cases {
        let answer = read_descriptor(bytes);
        assert!(rt; matches!(answer, Err(DescriptorFault::Bad)));
    }
    check(
        &rt,
        b"1600;&   \x1FABCD\x1F(A)\x1E",
        &[*b"ABCD"],
        &[Format::TextOpen],
        None,
    );
}

#[test]
fn laws() {
    one_descriptor();
    reading_is_spelling();
}

#[test]
fn sixty_four_labels(rt: HostRuntime) -> Result<(), Fail> {
    let mut array = Vec::from_slice(rt.alloc(), b"*ABCD")?;
    for _ in 0..63 {
        array.extend_from_slice(b"!ABCD")?;
    }
    let most = field(rt.alloc(), &array, b"(64b11)")?;
    check(
        &rt,
        &most,
        &[*b"ABCD"; 64],
        &[Format::Unsigned(1); 64],
        Some(1),
    );
    array.extend_from_slice(b"!ABCD")?;
    let more = field(rt.alloc(), &array, b"(65b11)")?;
    assert!(rt; matches!(read_descriptor(&more), Err(DescriptorFault::Bad)));
    Ok(())
}
