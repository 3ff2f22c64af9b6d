//! Tables and selections worked out by hand.
//!
//! A line is bad by its grammar before its names are looked up, so some lines have both faults. Of the lines for an
//! object the first whose conditions hold is taken, so selections have several that might be.

use chart_model::{AttrMap, Geom, Octets};
use lookup_table::TableFault::{BadLine, UnknownName, UnknownProcedure};
use lookup_table::{Instruction, TableFault, read_table, tables_are_read};
use object_catalogue::{Catalogue, CatalogueFault, read_objects};
use std::alloc::{AllocError, Global};
use std::test::Fail;

/// A class and three attributes.
fn catalogue(alloc: Global) -> Result<Catalogue, CatalogueFault> {
    read_objects(
        alloc,
        b"O 42 DEPARE\nO 159 WRECKS\nA 87 DRVAL1\nA 179 VALSOU\nA 187 WATLEV\n",
    )
}

/// The text of a table, and its first fault.
static FAULTS: [(&[u8], Option<TableFault>); 48] = [
    (b"", None),
    (b"DEPARE A 1 - -", None),
    (b"DEPARE L 0 - -\nDEPARE P 9 - -\r\n# CS\n\n", None),
    (
        b"DEPARE A 1 DRVAL1=5+WATLEV=*+VALSOU=? AC(DEPVS);LS(DASH, 2,CHGRF)",
        None,
    ),
    // `=`, `?` and `*` in texts, and the ends of the ranges
    (b"DEPARE A 1 DRVAL1==+VALSOU=??+WATLEV=** -", None),
    (b"DEPARE A 1 DRVAL1=!~ AC( ~);ZZ()", None),
    (b"DEPARE A 1 DRVAL1= -", Some(BadLine(1))),
    (b"DEPARE A 1 DRVAL1=+ -", Some(BadLine(1))),
    (b"DEPARE A 1 DRVAL1=1+ -", Some(BadLine(1))),
    (b"DEPARE A 1 +DRVAL1=1 -", Some(BadLine(1))),
    (b"DEPARE A 1 DRVAL1=1++VALSOU=1 -", Some(BadLine(1))),
    (b"DEPARE A 1 DRVAL1=\x7f -", Some(BadLine(1))),
    (b"DEPARE A 1 DRVAL1 -", Some(BadLine(1))),
    (b"DEPARE A 1 DRVAL=1 -", Some(BadLine(1))),
    (b"DEPARE A 1 DRVAL11=1 -", Some(BadLine(1))),
    (b"DEPARE A 1 -+DRVAL1=1 -", Some(BadLine(1))),
    (b"DEPARE A 1  -", Some(BadLine(1))),
    (b"DEPARE A 1 -", Some(BadLine(1))),
    (b"DEPARE A 1 - ", Some(BadLine(1))),
    (b"DEPARE  A 1 - -", Some(BadLine(1))),
    (b" DEPARE A 1 - -", Some(BadLine(1))),
    (b"DEPARE A 1 - - ", Some(BadLine(1))),
    (b"DEPARE A 1 -  AC(DEPVS)", Some(BadLine(1))),
    (b"DEPARE B 1 - -", Some(BadLine(1))),
    (b"DEPARE AL 1 - -", Some(BadLine(1))),
    (b"DEPARE A 10 - -", Some(BadLine(1))),
    (b"DEPARE A : - -", Some(BadLine(1))),
    (b"DEPAR A 1 - -", Some(BadLine(1))),
    (b"DEPARES A 1 - -", Some(BadLine(1))),
    (b"DEPARE A 1 - AC(DEPVS);", Some(BadLine(1))),
    (b"DEPARE A 1 - AC(DEPVS)AC(DEPVS)", Some(BadLine(1))),
    (b"DEPARE A 1 - ac(DEPVS)", Some(BadLine(1))),
    (b"DEPARE A 1 - ACD(DEPVS)", Some(BadLine(1))),
    (b"DEPARE A 1 - AC(DEP(VS)", Some(BadLine(1))),
    (b"DEPARE A 1 - AC(DEPVS\x1f)", Some(BadLine(1))),
    (b"DEPARE A 1 - AC(", Some(BadLine(1))),
    // a carriage return where none is removed
    (b"DEPARE A 1 - -\r", Some(BadLine(1))),
    (b"DEPARE A 1 - -\r\r\n", Some(BadLine(1))),
    (b"\rDEPARE A 1 - -\n", Some(BadLine(1))),
    // names and procedures, each line's first fault
    (b"DRGARE A 1 - CS(DEPARE01)", Some(UnknownName(1))),
    (
        b"# one\nDEPARE A 1 CATCOV=1 -\nDEPARE",
        Some(UnknownName(2)),
    ),
    (b"DEPARE A 1 - CS(DEPARE01);CS(DEPCNT02);CS(SOUNDG02)", None),
    (b"DEPARE A 1 - CS(OBSTRN04);AC(DEPVS);CS(WRECKS02)", None),
    (
        b"DEPARE A 1 - AC(DEPVS);CS(DEPARE02)",
        Some(UnknownProcedure(1)),
    ),
    (b"DEPARE A 1 - CS(DEPARE01 )", Some(UnknownProcedure(1))),
    (b"DEPARE A 1 - CS(depare01)", Some(UnknownProcedure(1))),
    (
        b"DEPARE A 1 - CS()\nDRGARE A 1 - -",
        Some(UnknownProcedure(1)),
    ),
    (b"DRGARE A 1 - CS(DEPARE01);", Some(BadLine(1))),
];

#[test]
fn first_faults(rt: HostRuntime) -> Result<(), Fail> {
    let catalogue = catalogue(rt.alloc())?;
    for (at, (text, fault)) in FAULTS.iter().enumerate() {
        let found = read_table(rt.alloc(), text, &catalogue).err();
        assert_eq!(rt; found, *fault, "case {at}");
    }
    tables_are_read();
    Ok(())
}

/// The most lines that a table may have, the last for depth areas.
fn most_lines(alloc: Global) -> Result<String, AllocError> {
    let mut text = String::new(alloc);
    for _ in 0u32..9_999 {
        text.push_str("WRECKS L 4 - -\n")?;
    }
    text.push_str("DEPARE A 1 - AC(DEPVS)\n")?;
    Ok(text)
}

#[test]
fn ten_thousand_lines(rt: HostRuntime) -> Result<(), Fail> {
    let catalogue = catalogue(rt.alloc())?;
    let text = most_lines(rt.alloc())?;
    let table = read_table(rt.alloc(), text.as_bytes(), &catalogue)?;
    let attrs = AttrMap::new(rt.alloc());
    assert!(rt; table.select(42, Geom::Area, &attrs) == Some(9_999));
    Ok(())
}

#[test]
fn a_line_too_many(rt: HostRuntime) -> Result<(), Fail> {
    let catalogue = catalogue(rt.alloc())?;
    let mut text = most_lines(rt.alloc())?;
    text.push_str("\n")?;
    let fault = read_table(rt.alloc(), text.as_bytes(), &catalogue).err();
    assert!(rt; fault == Some(BadLine(10_001)));
    Ok(())
}

/// The attribute VALSOU with a text, where there is one.
fn attributes(alloc: Global, text: Option<&[u8]>) -> Result<AttrMap, AllocError> {
    let mut attrs = AttrMap::new(alloc);
    if let Some(text) = text {
        attrs.set(179, Octets::from_vec(Vec::from_slice(alloc, text)?))?;
    }
    Ok(attrs)
}

/// The code of a class, a geometry, the text of VALSOU, and the place of the line for them.
type Selected = (u16, Geom, Option<&'static [u8]>, Option<usize>);

static SELECTED: [Selected; 9] = [
    // conditions before none, whatever their order; without a text neither `?` nor `*` holds
    (159, Geom::Point, None, Some(0)),
    (159, Geom::Point, Some(b""), Some(2)),
    (159, Geom::Point, Some(b"15"), Some(1)),
    (159, Geom::Point, Some(b"1"), Some(1)),
    // all conditions have to hold
    (159, Geom::Line, Some(b"15"), None),
    // the first of two
    (42, Geom::Area, Some(b"15"), Some(6)),
    (42, Geom::Area, Some(b"151"), None),
    (42, Geom::Area, None, None),
    (71, Geom::Area, Some(b"15"), None),
];

/// Lines with conditions and without, from which is selected.
const CONDITIONS: &[u8] = b"WRECKS P 1 - -\nWRECKS P 2 VALSOU=* -\nWRECKS P 3 VALSOU=? -\n\
WRECKS P 4 VALSOU=15 -\nWRECKS P 5 - -\nWRECKS L 6 VALSOU=15+WATLEV=3 -\nDEPARE A 7 VALSOU=15 SY(A);AC(B)\n\
DEPARE A 8 VALSOU=15 -\n";

#[test]
fn selections(rt: HostRuntime) -> Result<(), Fail> {
    let catalogue = catalogue(rt.alloc())?;
    let table = read_table(rt.alloc(), CONDITIONS, &catalogue)?;
    for (at, (class, geom, value, place)) in SELECTED.iter().enumerate() {
        let attrs = attributes(rt.alloc(), *value)?;
        assert!(rt; table.select(*class, *geom, &attrs) == *place, "case {at}");
    }
    Ok(())
}

/// The text of an instruction that is drawn as it is written.
fn text_of(instruction: &Instruction) -> &[u8] {
    match instruction {
        Instruction::Draw(text) => text.as_slice(),
        Instruction::Call(_) => b"",
    }
}

#[test]
fn lines_keep_their_parts(rt: HostRuntime) -> Result<(), Fail> {
    let catalogue = catalogue(rt.alloc())?;
    let text = b"# one\nDEPARE A 7 VALSOU=15 SY(A);AC(B)\n";
    let table = read_table(rt.alloc(), text, &catalogue)?;
    let line = table.line(0).ok_or("a line")?;
    assert!(rt; table.lines().len() == 1 && line.conditions.as_slice().len() == 1);
    assert!(rt; line.class == 42 && line.priority == 7 && line.geom == Geom::Area);
    let instructions = line.instructions.as_slice();
    assert!(rt; instructions.len() == 2);
    assert!(rt; instructions.first().map(text_of) == Some(b"SY(A)".as_slice()));
    assert!(rt; instructions.last().map(text_of) == Some(b"AC(B)".as_slice()));
    Ok(())
}
