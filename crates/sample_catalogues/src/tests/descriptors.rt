//! Descriptors of the field CATD.
//!
//! A file says itself in which order its subfields stand and how they are spelled, so two are looked for by their
//! labels. A descriptor that lacks one, or says that one isn't a text, is a fault at the first record that has the
//! field.

use super::files::{DATA, Draft, read, written};
use super::lines::start;
use exchange_catalogue::CatalogueFault;
use std::alloc::{AllocError, Global};
use std::test::Fail;

/// The second data record has the field, and its descriptor doesn't have FILE or IMPL outside of a repeated group.
const MISSING: CatalogueFault = CatalogueFault::MissingField {
    record: 2,
    tag: *b"CATD",
};

/// FILE of the second data record is no text.
const NO_PATH: CatalogueFault = CatalogueFault::Value {
    record: 2,
    label: *b"FILE",
};

/// IMPL of the second data record is no text.
const NO_IMPLEMENTATION: CatalogueFault = CatalogueFault::Value {
    record: 2,
    label: *b"IMPL",
};

/// The descriptor of the field CATD behind its controls, the bytes of the field, and the entry or the fault of a
/// catalogue whose second data record alone has it.
type Case = (
    &'static [u8],
    &'static [u8],
    Result<&'static [u8], CatalogueFault>,
);

static CASES: [Case; 25] = [
    // the two alone, in either order, and behind others
    (
        b"FILE!IMPL\x1f(A,A(3))",
        b"X.000\x1fBIN\x1e",
        Ok(b"2 binary X.000\n"),
    ),
    (
        b"IMPL!FILE\x1f(2A)",
        b"BIN\x1fX.000\x1f\x1e",
        Ok(b"2 binary X.000\n"),
    ),
    (
        b"LFIL!FILE!CRCS!IMPL\x1f(4A)",
        b"A\x1fB\x1fC\x1fBIN\x1f\x1e",
        Ok(b"2 binary B\n"),
    ),
    (
        b"FILE!LFIL!IMPL\x1f(A,b14,I(3))",
        b"A\x1f\x1e\x1f\x1e\x1fBIN\x1e",
        Ok(b"2 binary A\n"),
    ),
    // texts with a width may hold the terminators
    (
        b"FILE!IMPL\x1f(A(4),R)",
        b"A\x1e\x1fB\x1f\x1e",
        Ok(b"2 other A\x1e\x1fB\n"),
    ),
    // other texts than BIN
    (
        b"FILE!IMPL\x1f(2A)",
        b"A\x1fBINX\x1f\x1e",
        Ok(b"2 other A\n"),
    ),
    (b"FILE!IMPL\x1f(2A)", b"A\x1fBI\x1f\x1e", Ok(b"2 other A\n")),
    (b"FILE!IMPL\x1f(2A)", b"A\x1f\x1f\x1e", Ok(b"2 other A\n")),
    (b"FILE!IMPL\x1f(2A)", b"\x1f BIN\x1f\x1e", Ok(b"2 other \n")),
    // a repeated group behind them, with their labels again
    (
        b"FILE!IMPL!*FILE!IMPL\x1f(4A)",
        b"A\x1fBIN\x1fB\x1fASC\x1f\x1e",
        Ok(b"2 binary A\n"),
    ),
    (
        b"FILE!IMPL!*LFIL\x1f(3A)",
        b"A\x1fBIN\x1f\x1e",
        Ok(b"2 binary A\n"),
    ),
    // of a label that stands twice the first
    (
        b"FILE!FILE!IMPL!IMPL\x1f(4A)",
        b"A\x1fB\x1fBIN\x1fASC\x1f\x1e",
        Ok(b"2 binary A\n"),
    ),
    (
        b"FILE!IMPL!FILE!IMPL\x1f(2A,2b11)",
        b"A\x1fBIN\x1f\x01\x02\x1e",
        Ok(b"2 binary A\n"),
    ),
    // labels that are only alike
    (b"LFIL!IMPL\x1f(2A)", b"A\x1fBIN\x1f\x1e", Err(MISSING)),
    (b"file!IMPL\x1f(2A)", b"A\x1fBIN\x1f\x1e", Err(MISSING)),
    (b"FILE!LFIL\x1f(2A)", b"A\x1fBIN\x1f\x1e", Err(MISSING)),
    // labels in a repeated group, one of them or both
    (b"*FILE!IMPL\x1f(2A)", b"A\x1fBIN\x1f\x1e", Err(MISSING)),
    (b"FILE!*IMPL\x1f(2A)", b"A\x1f\x1e", Err(MISSING)),
    (b"IMPL!*FILE\x1f(2A)", b"BIN\x1fA\x1f\x1e", Err(MISSING)),
    // other values than texts, FILE before IMPL
    (b"FILE!IMPL\x1f(b11,A)", b"A\x1f\x1e", Err(NO_PATH)),
    (b"IMPL!FILE\x1f(A,B(8))", b"BIN\x1fA\x1e", Err(NO_PATH)),
    (b"IMPL!FILE\x1f(b11,b11)", b"AB\x1e", Err(NO_PATH)),
    (
        b"FILE!IMPL\x1f(A,B(24))",
        b"A\x1fBIN\x1e",
        Err(NO_IMPLEMENTATION),
    ),
    // a label that is missing before a value that is no text
    (b"FILE!LFIL\x1f(b11,A)", b"A\x1f\x1e", Err(MISSING)),
    (b"IMPL!*FILE\x1f(b11,A)", b"A\x1f\x1e", Err(MISSING)),
];

/// Puts a data record of one field behind the bytes.
fn push_field(alloc: Global, out: &mut Vec<u8>, tag: &str, bytes: &[u8]) -> Result<(), AllocError> {
    let mut record = Draft::new(alloc);
    record.put(tag, bytes)?;
    record.end(alloc, out, DATA)
}

/// The bytes of a catalogue with this descriptor, whose second data record has this field.
fn catalogue(alloc: Global, described: &[u8], field: &[u8]) -> Result<Vec<u8>, AllocError> {
    let mut descriptor = Vec::from_slice(alloc, b"1600;&   \x1f")?;
    descriptor.extend_from_slice(described)?;
    descriptor.push(0x1e)?;
    let mut bytes = start(alloc, descriptor.as_slice())?;
    push_field(alloc, &mut bytes, "0001", b"\x01\x00\x1e")?;
    push_field(alloc, &mut bytes, "CATD", field)?;
    Ok(bytes)
}

#[test]
fn descriptors(rt: HostRuntime) -> Result<(), Fail> {
    for (at, (described, field, wanted)) in CASES.iter().enumerate() {
        let bytes = catalogue(rt.alloc(), described, field)?;
        match read(rt.alloc(), bytes.as_slice()) {
            Ok(entries) => {
                let found = written(rt.alloc(), &entries)?;
                assert!(rt; wanted.ok() == Some(found.as_slice()), "case {at}");
            }
            Err(fault) => assert_eq!(rt; Some(fault), wanted.err(), "case {at}"),
        }
    }
    Ok(())
}
