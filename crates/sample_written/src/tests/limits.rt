//! Records and files at their limits.
//!
//! The length of a record has five digits (ISO/IEC 8211), and a file is loaded up to 8,388,608 bytes. Records here are
//! as long as they may be and one sounding longer, and a file has as many of them as fit and one more.

ghost use Rattle.std.specs.Prelude.{IfOk, IsSome};
ghost use Rattle.chart_model.specs.Record.{AreCoords, IsCoord};

use cell_writer::{WriteFault, write_cell};
use chart_model::{Cell, Coord, Coords, Name, Sequence, UpdateRecord};
use sample_rows::chart;
use std::alloc::{AllocError, Global};
use std::test::Fail;
use update_apply::apply_record;

/// A sounding of so many decimetres.
fn sounding(decimetres: i16) -> Coord
    ensures coord { IsCoord result }
    ensures depth { IsSome result.z }
{
    Coord {
        x: 0,
        y: 0,
        z: Some(10 * i32::from(decimetres)),
    }
}

/// So many soundings at one place.
fn soundings(alloc: Global, count: usize) -> Result<Coords, AllocError>
    ensures { IfOk result AreCoords }
{
    let mut coords = Sequence::new(alloc);
    for _ in 0..count {
        coords.push(sounding(0))?;
    }
    Ok(coords)
}

/// The insertion of an isolated node with so many soundings.
fn node(alloc: Global, rcid: u32, count: usize) -> Result<UpdateRecord, AllocError> {
    Ok(UpdateRecord {
        target: Name { rcnm: 110, rcid },
        ruin: 1,
        version: 1,
        prim: 0,
        grup: 0,
        class: 0,
        foid: None,
        attrs: Sequence::new(alloc),
        pointer_edit: None,
        pointers: Sequence::new(alloc),
        coord_edit: None,
        coords: soundings(alloc, count)?,
        related_edit: None,
        related: Sequence::new(alloc),
    })
}

/// A cell with so many nodes, numbered from 1, each with so many soundings.
fn cell_of(alloc: Global, nodes: u32, count: usize) -> Result<Cell, Fail> {
    let mut cell = chart(alloc, &[])?;
    for rcid in 1..=nodes {
        apply_record(alloc, &mut cell, &node(alloc, rcid, count)?)?;
    }
    Ok(cell)
}

#[test]
fn records_at_their_limit(rt: HostRuntime) -> Result<(), Fail> {
    let whole = write_cell(rt.alloc(), &cell_of(rt.alloc(), 1, 8326)?)?;
    assert_eq!(rt; whole.as_slice().len(), 2004 + 99_992);
    let fault = write_cell(rt.alloc(), &cell_of(rt.alloc(), 1, 8327)?).err();
    let name = Name { rcnm: 110, rcid: 1 };
    assert_eq!(rt; fault, Some(WriteFault::RecordLong(name, 100_004)));
    Ok(())
}

#[test]
fn files_at_their_limit(rt: HostRuntime) -> Result<(), Fail> {
    let whole = write_cell(rt.alloc(), &cell_of(rt.alloc(), 83, 8326)?)?;
    assert_eq!(rt; whole.as_slice().len(), 2004 + 83 * 99_992);
    let fault = write_cell(rt.alloc(), &cell_of(rt.alloc(), 84, 8326)?).err();
    assert_eq!(rt; fault, Some(WriteFault::CellLong(2004 + 84 * 99_992)));
    Ok(())
}

#[test]
fn numbers_turn_over(rt: HostRuntime) -> Result<(), Fail> {
    let file = write_cell(rt.alloc(), &cell_of(rt.alloc(), 65_536, 0)?)?;
    let records = file.as_slice();
    assert_eq!(rt; records.len(), 2004 + 65_536 * 65);
    // the last record has the number 65,538
    let (_, last) = records
        .split_at_checked(records.len() - 12)
        .ok_or("a record")?;
    assert!(rt; last == b"\x02\0\x1en\0\0\x01\0\x01\0\x01\x1e".as_slice());
    Ok(())
}
