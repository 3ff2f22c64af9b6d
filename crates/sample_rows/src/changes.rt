//! Changes of rows.
//!
//! A change has invariants: an instruction is one of three, an insertion of a feature has an identifier. So a row may
//! hold any numbers, and what can't be is mended here, so that tests need no faults of their own.

ghost use Rattle.std.specs.Prelude.{◌≡◌, IsSome};
ghost use Rattle.chart_model.specs.Record.{IsPrim, IsVectorName};
ghost use Rattle.chart_model.specs.Change.{IsEdit, IsInstruction};

use crate::lists::{
    attr_list, feature_pointers, plain_coords, related, soundings, vector_pointers,
};
use crate::rows::{Edit, FOID, Row};
use chart_model::{Control, Foid, Name, Sequence, UpdateRecord};
use std::alloc::{AllocError, Global};

/// An instruction, which is a modification where the number is none of one.
fn instruction_of(number: u8) -> u8
    ensures { IsInstruction result }
{
    match number {
        1 => 1,
        2 => 2,
        _ => 3,
    }
}

fn control(edit: Option<Edit>) -> Option<Control>
    ensures { IsEdit result }
{
    let (instruction, index, count) = edit?;
    Some(Control {
        instruction: instruction_of(instruction),
        index,
        count,
    })
}

/// The name of a vector record, which is an edge where the kind is none of one.
fn vector_name(name: Name) -> Name
    ensures { IsVectorName result }
{
    let rcnm = match name.rcnm {
        110 => 110,
        120 => 120,
        _ => 130,
    };
    Name { rcnm, ..name }
}

fn vector_change(alloc: Global, row: &Row) -> Result<UpdateRecord, AllocError> {
    let coords = if row.deep {
        soundings(alloc, row.others, row.depths)?
    } else {
        plain_coords(alloc, row.others)?
    };
    Ok(UpdateRecord {
        target: vector_name(row.name),
        ruin: instruction_of(row.ruin),
        version: row.version,
        prim: 0,
        grup: 0,
        class: 0,
        foid: None,
        attrs: attr_list(alloc, row.attrs)?,
        pointer_edit: control(row.pointer_edit),
        pointers: vector_pointers(alloc, row.pointers)?,
        coord_edit: control(row.other_edit),
        coords,
        related_edit: None,
        related: Sequence::new(alloc),
    })
}

/// A primitive, which is none where the number is none of one.
fn prim_of(number: u8) -> u8
    ensures { IsPrim result }
{
    match number {
        1 => 1,
        2 => 2,
        3 => 3,
        _ => 255,
    }
}

/// The identifier in a feature's change: an insertion has one.
fn foid_in(ruin: u8, given: Option<Foid>) -> Option<Foid>
    ensures { ruin ≡ 1 → IsSome result }
{
    match given {
        Some(foid) => Some(foid),
        None if ruin == 1 => Some(FOID),
        None => None,
    }
}

fn feature_change(alloc: Global, row: &Row) -> Result<UpdateRecord, AllocError> {
    let ruin = instruction_of(row.ruin);
    Ok(UpdateRecord {
        target: Name {
            rcnm: 100,
            rcid: row.name.rcid,
        },
        ruin,
        version: row.version,
        prim: prim_of(row.prim),
        grup: row.grup,
        class: row.class,
        foid: foid_in(ruin, row.foid),
        attrs: attr_list(alloc, row.attrs)?,
        pointer_edit: control(row.pointer_edit),
        pointers: feature_pointers(alloc, row.pointers, row.marks)?,
        coord_edit: None,
        coords: Sequence::new(alloc),
        related_edit: control(row.other_edit),
        related: related(alloc, row.others)?,
    })
}

/// The change that a row is.
pub fn change(alloc: Global, row: &Row) -> Result<UpdateRecord, AllocError> {
    if row.name.rcnm == 100 {
        feature_change(alloc, row)
    } else {
        vector_change(alloc, row)
    }
}
