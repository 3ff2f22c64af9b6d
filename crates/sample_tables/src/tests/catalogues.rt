//! Catalogues worked out by hand from the grammar.
//!
//! Classes and attributes are numbered and named apart, so an acronym may stand once for each; a second time is a
//! fault. Most faults are one byte beside a good line.

use object_catalogue::CatalogueFault::{BadLine, Twice};
use object_catalogue::{
    Acronym, Catalogue, CatalogueFault, catalogues_are_read, read_acronym, read_objects,
};
use std::alloc::{AllocError, Global};
use std::test::Fail;

/// Classes and attributes with the least and the greatest codes, with remarks, and without a line feed at the end.
fn catalogue(alloc: Global) -> Result<Catalogue, CatalogueFault> {
    read_objects(
        alloc,
        b"# classes\nO 1 DEPARE\nO 65535 A0Z9_Z\r\n\nA 000000000000000087 DRVAL1\nA 1 DEPARE\nA 42 ______",
    )
}

/// Acronyms, and the codes of the classes.
static CLASSES: [(Acronym, Option<u16>); 3] = [
    (*b"DEPARE", Some(1)),
    (*b"A0Z9_Z", Some(65_535)),
    (*b"DRVAL1", None),
];

#[test]
fn classes_are_found(rt: HostRuntime) -> Result<(), Fail> {
    let catalogue = catalogue(rt.alloc())?;
    for (at, (acronym, code)) in CLASSES.iter().enumerate() {
        assert!(rt; catalogue.class_code(acronym) == *code, "case {at}");
    }
    Ok(())
}

/// Acronyms, and the codes of the attributes.
static ATTRIBUTES: [(Acronym, Option<u16>); 4] = [
    (*b"DRVAL1", Some(87)),
    (*b"DEPARE", Some(1)),
    (*b"______", Some(42)),
    (*b"A0Z9_Z", None),
];

#[test]
fn attributes_are_found(rt: HostRuntime) -> Result<(), Fail> {
    let catalogue = catalogue(rt.alloc())?;
    for (at, (acronym, code)) in ATTRIBUTES.iter().enumerate() {
        assert!(rt; catalogue.attribute_code(acronym) == *code, "case {at}");
    }
    Ok(())
}

#[test]
fn an_empty_catalogue_has_no_codes(rt: HostRuntime) -> Result<(), Fail> {
    let empty = read_objects(rt.alloc(), b"")?;
    assert!(rt; empty.class_code(b"DEPARE").is_none());
    catalogues_are_read();
    Ok(())
}

#[test]
fn acronyms(rt: HostRuntime) {
    assert!(rt; read_acronym(b"DEPARE") == Some(*b"DEPARE"));
    assert!(rt; read_acronym(b"DEPAR").is_none());
}

/// The text of a catalogue, and its first fault.
static FAULTS: [(&[u8], CatalogueFault); 28] = [
    (b"O 0 DEPARE", BadLine(1)),
    (b"O 65536 DEPARE", BadLine(1)),
    (b"O 0000000000000000042 DEPARE", BadLine(1)),
    (b"O +1 DEPARE", BadLine(1)),
    (b"O 0x1 DEPARE", BadLine(1)),
    (b"O 1 DEPAR", BadLine(1)),
    (b"O 1 DEPAREA", BadLine(1)),
    (b"O 1 depare", BadLine(1)),
    (b"O 1 DEP-RE", BadLine(1)),
    (b"o 1 DEPARE", BadLine(1)),
    (b"OA 1 DEPARE", BadLine(1)),
    (b"C 1 DEPARE", BadLine(1)),
    (b"O  1 DEPARE", BadLine(1)),
    (b" O 1 DEPARE", BadLine(1)),
    (b"O 1 DEPARE ", BadLine(1)),
    (b"O 1 DEPARE M", BadLine(1)),
    (b"O 1", BadLine(1)),
    (b"O", BadLine(1)),
    (b" ", BadLine(1)),
    (b" #", BadLine(1)),
    // a carriage return at each place where none is removed
    (b"\rO 1 DEPARE\n", BadLine(1)),
    (b"O 1 DEPARE\r\r\n", BadLine(1)),
    (b"O\r 1 DEPARE\n", BadLine(1)),
    (b"O 1 DEPARE\r", BadLine(1)),
    // twice, in lines that count and say nothing
    (b"O 1 DEPARE\n\n# twice\nO 2 DEPARE\n", Twice(4)),
    (b"O 1 DEPARE\r\nO 1 DRGARE\r\nO 2", Twice(2)),
    (b"A 1 DRVAL1\nO 1 DRVAL1\nA 1 DRVAL1", Twice(3)),
    (b"O 1 DEPARE\nO 2\nO 1 DEPARE", BadLine(2)),
];

#[test]
fn first_faults(rt: HostRuntime) -> Result<(), Fail> {
    for (at, (text, fault)) in FAULTS.iter().enumerate() {
        let found = read_objects(rt.alloc(), text).err();
        assert_eq!(rt; found, Some(*fault), "case {at}");
    }
    Ok(())
}

/// The most lines that a catalogue may have, behind a front.
fn most_lines(alloc: Global, front: &str) -> Result<String, AllocError> {
    let mut text = String::from_str(alloc, front)?;
    for code in 1u32..10_001 {
        write!(text, "O {code} A{code:05}\n")?;
    }
    Ok(text)
}

#[test]
fn ten_thousand_lines(rt: HostRuntime) -> Result<(), Fail> {
    let text = most_lines(rt.alloc(), "")?;
    let catalogue = read_objects(rt.alloc(), text.as_bytes())?;
    assert!(rt; catalogue.class_code(b"A10000") == Some(10_000));
    Ok(())
}

#[test]
fn a_line_too_many(rt: HostRuntime) -> Result<(), Fail> {
    // an empty line behind them is bad too, where no line before has a fault
    let mut late = most_lines(rt.alloc(), "")?;
    late.push_str("\n")?;
    let fault = read_objects(rt.alloc(), late.as_bytes()).err();
    assert!(rt; fault == Some(BadLine(10_001)));
    let mut early = most_lines(rt.alloc(), "O\n")?;
    early.push_str("\n")?;
    let fault = read_objects(rt.alloc(), early.as_bytes()).err();
    assert!(rt; fault == Some(BadLine(1)));
    Ok(())
}
