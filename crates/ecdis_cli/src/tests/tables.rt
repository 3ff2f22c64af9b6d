//! Catalogues and tables that are read, and those that end the run.
//!
//! A run that ends at one of them has called neither the source nor the desk: the first call of each is one that fails,
//! and no failure is counted.

ghost use Rattle.std.specs.Prelude.{◌≡◌, ◌<◌};

use super::{CATALOGUE, Case, TABLE, ends, failing, shelf, words};
use crate::run::run_ecdis;
use crate::run::status::Status;
use crate::run::tables_fault::TablesFault;
use chart_ports::{MemoryDesk, MemorySource, Steps};
use std::alloc::{AllocError, Global};
use std::marker::Brand;
use std::sync::ledger::{Blank, Ledger};
use std::test::Fail;

/// The most bytes of a catalogue or a table, and one more.
const MOST: usize = 1_048_576;

const MORE: usize = 1_048_577;

/// The status, and how often the source, the shelf and the desk failed, where each call of the source and of the desk
/// fails that is their first.
fn ended_by<C: Ledger>(
    alloc: Global,
    case: &Case,
    blank: Blank,
) -> Result<(Status, [u64; 3]), AllocError>
    requires name { blank.name ≡ C.name }
    requires parts { blank.parts ≡ C.parts }
    requires share { 0 < C.parts }
{
    let words = words(alloc)?;
    let mut script = MemorySource::new(case.script.to_vec(alloc)?, failing(alloc, 1)?);
    let mut shelf = shelf(alloc, case)?;
    let mut desk = MemoryDesk::new(alloc, failing(alloc, 1)?);
    let mut panels = Vec::new(alloc);
    let mut steps = Steps::<C>::new(blank);
    let status = run_ecdis(
        alloc,
        &words,
        &mut script,
        &mut shelf,
        &mut desk,
        &mut panels,
        &mut steps,
    );
    Ok((status, [script.faults(), shelf.faults(), desk.faults()]))
}

fn ended(alloc: Global, case: &Case) -> Result<(Status, [u64; 3]), AllocError> {
    ended_by::<Brand>(alloc, case, Blank::new(1))
}

/// A catalogue, a table, which of them has the first fault, and the fault.
type Fault = (
    Option<&'static [u8]>,
    Option<&'static [u8]>,
    u8,
    TablesFault,
);

static FAULTS: [Fault; 11] = [
    (None, Some(TABLE), 0, TablesFault::Absent),
    (Some(CATALOGUE), None, 1, TablesFault::Absent),
    // The catalogue's fault comes first.
    (None, None, 0, TablesFault::Absent),
    (Some(b"O 42\n"), None, 0, TablesFault::BadLine(1)),
    (
        Some(b"# classes\r\n\nO 0 DEPARE"),
        Some(b"x"),
        0,
        TablesFault::BadLine(3),
    ),
    (
        Some(b"O 42 DEPARE\nO 42 LNDARE\nx\n"),
        Some(TABLE),
        0,
        TablesFault::Twice(2),
    ),
    (
        Some(CATALOGUE),
        Some(b"DEPARE A 1 - -\nDEPARE A x - -\n"),
        1,
        TablesFault::BadLine(2),
    ),
    (
        Some(CATALOGUE),
        Some(b"LNDARE A 1 - -\n"),
        1,
        TablesFault::UnknownName(1),
    ),
    (
        Some(CATALOGUE),
        Some(b"\nDEPARE A 1 DRVAL2=? -\n"),
        1,
        TablesFault::UnknownName(2),
    ),
    (
        Some(CATALOGUE),
        Some(b"#\n#\nDEPARE A 1 - CS(DEPARE99)"),
        1,
        TablesFault::UnknownProcedure(3),
    ),
    (Some(b""), Some(TABLE), 1, TablesFault::UnknownName(1)),
];

#[test]
fn the_first_fault_ends_the_run(rt: HostRuntime) -> Result<(), Fail> {
    for (at, (catalogue, table, which, fault)) in FAULTS.iter().enumerate() {
        let case = Case {
            catalogue: *catalogue,
            table: *table,
            ..Case::of(b"cells\n")
        };
        let (status, faults) = ended(rt.alloc(), &case)?;
        assert!(rt; status == Status::Tables(*which, *fault), "case {at}");
        // Neither the source nor the desk was called.
        assert!(rt; faults == [0, 0, 0], "case {at}");
    }
    Ok(())
}

/// A catalogue, the call of the shelf that fails, how the run ends, and the faults of the source, the shelf and the
/// desk.
static SHELF_FAULTS: [(Option<&[u8]>, u64, Status, [u64; 3]); 4] = [
    (Some(CATALOGUE), 1, Status::ShelfFault, [0, 1, 0]),
    (Some(CATALOGUE), 2, Status::ShelfFault, [0, 1, 0]),
    // The table is not fetched where the catalogue has a fault.
    (None, 2, Status::Tables(0, TablesFault::Absent), [0, 0, 0]),
    // Both are read, and the store is opened.
    (Some(CATALOGUE), 3, Status::DeskFault, [0, 0, 1]),
];

#[test]
fn the_shelf_fails_at_either(rt: HostRuntime) -> Result<(), Fail> {
    for (at, (catalogue, fetch, status, faults)) in SHELF_FAULTS.iter().enumerate() {
        let case = Case {
            catalogue: *catalogue,
            fetch: *fetch,
            ..Case::of(b"cells\n")
        };
        let ended = ended(rt.alloc(), &case)?;
        assert!(rt; ended.0 == *status && ended.1 == *faults, "case {at}");
    }
    Ok(())
}

/// So many bytes of one remark.
fn remark(alloc: Global, count: usize) -> Result<Vec<u8>, AllocError> {
    let mut bytes = Vec::new(alloc);
    for _ in 0..count {
        bytes.push(b'#')?;
    }
    Ok(bytes)
}

#[test]
fn files_have_a_limit(rt: HostRuntime) -> Result<(), Fail> {
    let alloc = rt.alloc();
    let at_limit = remark(alloc, MOST)?;
    let above_limit = remark(alloc, MORE)?;
    let (longest, longer) = (at_limit.as_slice(), above_limit.as_slice());
    let long = TablesFault::Long;
    let whole = Case::of(b"cells\n");
    let cases: [(&[u8], &[u8], Status, &[u8]); 4] = [
        (longest, longest, Status::Done, b"ok cells 0\n"),
        (longer, longest, Status::Tables(0, long), b""),
        (longest, longer, Status::Tables(1, long), b""),
        (longer, longer, Status::Tables(0, long), b""),
    ];
    for (catalogue, table, status, said) in cases {
        let case = Case {
            catalogue: Some(catalogue),
            table: Some(table),
            ..whole
        };
        assert!(rt; ends(alloc, &case, status, said)?);
    }
    Ok(())
}

/// A table, and the drawing of the cell, which has a depth area that is a point.
static DRAWINGS: [(&[u8], &[u8]); 4] = [
    (
        TABLE,
        b"ok draw AA5TEST1 1\nitem 5 P 1 whole SY(QUESMRK1)\n",
    ),
    (
        b"DEPARE A 1 - AC(DEPVS)\nDEPARE P 3 - SY(ISODGR01);TX(a b)\nDEPARE P 4 - SY(DANGER01)\n",
        b"ok draw AA5TEST1 2\nitem 3 P 1 whole SY(ISODGR01)\nitem 3 P 1 whole TX(a b)\n",
    ),
    (
        b"DEPARE P 4 - SY(DANGER01)\nDEPARE P 6 DRVAL1=* SY(ISODGR01)\n",
        b"ok draw AA5TEST1 1\nitem 4 P 1 whole SY(DANGER01)\n",
    ),
    (b"DEPARE P 9 - -\n", b"ok draw AA5TEST1 0\n"),
];

/// The replies to drawing a cell before it is loaded, when it is, and when it is cancelled.
fn replies(alloc: Global, drawing: &[u8]) -> Result<Vec<u8>, AllocError> {
    let mut said = Vec::from_slice(alloc, b"no 73 AA5TEST1\nok load AA5TEST1 1 0\n")?;
    said.extend_from_slice(drawing)?;
    said.extend_from_slice(b"ok cancel AA5TEST1\nno 73 AA5TEST1\n")?;
    Ok(said)
}

#[test]
fn cells_are_drawn_by_the_table(rt: HostRuntime) -> Result<(), Fail> {
    for (at, (table, drawing)) in DRAWINGS.iter().enumerate() {
        let case = Case {
            table: Some(*table),
            ..Case::of(b"draw AA5TEST1\nload T\ndraw AA5TEST1\nload CANCEL\ndraw AA5TEST1\n")
        };
        let said = replies(rt.alloc(), drawing)?;
        assert!(rt;
            ends(rt.alloc(), &case, Status::Done, said.as_slice())?,
            "case {at}"
        );
    }
    Ok(())
}
