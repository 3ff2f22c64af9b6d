//! The change that a vector record stands for.
//!
//! Its fields are read in the order of the standard's table, which decides which fault is the first.

ghost use Rattle.s57_records.specs.Answers.{Gives};
ghost use Rattle.s57_records.specs.Rows.{coords_of, vector_of};
ghost use Rattle.s57_records.specs.RecordReading.{subfields_in};

use crate::change::{ControlField, read_edit, read_vector_head};
use crate::fault::DatasetFault;
use crate::reader::DataRecord;
use chart_model::{Coords, RelatedList, UpdateRecord};
use s57_subfields::tags::{SG2D, SG3D, SGCC, VRPC};
use std::alloc::Global;

/// The tag of arcs, which a record must not have.
const ARCC: [u8; 4] = *b"ARCC";

/// The coordinates, from SG2D or SG3D, of which a record has one at most.
#[tactic(auto, unfolding(crate::specs::Rows::coords_of))]
fn read_coords(alloc: Global, fields: &DataRecord<'_>, ruin: u8) -> Result<Coords, DatasetFault>
    ensures { Gives result (coords_of ruin (subfields_in fields.now)) }
{
    let coordinates = fields.coordinates(alloc, ruin)?;
    if fields.has(SG2D) && fields.has(SG3D) {
        return Err(DatasetFault::Profile(SG3D));
    }
    let soundings = fields.soundings(alloc, ruin)?;
    // The list of a field that isn't there is empty.
    if fields.has(SG2D) {
        Ok(coordinates)
    } else {
        Ok(soundings)
    }
}

/// The change that a vector record stands for.
#[tactic(auto, unfolding(crate::specs::Rows::vector_of))]
pub(crate) fn read_vector(
    alloc: Global,
    fields: &DataRecord<'_>,
    base: bool,
) -> Result<UpdateRecord, DatasetFault>
    ensures { Gives result (vector_of base fields.now.number (subfields_in fields.now)) }
{
    let rows = fields.rows.vector();
    let head = read_vector_head(alloc, fields, base)?;
    let attrs = fields.vector_attrs(alloc, head.ruin)?;
    let vrpc = ControlField {
        tag: VRPC,
        row: rows.vrpc,
    };
    let pointer_edit = read_edit(alloc, fields, base, head.ruin, &vrpc)?;
    let pointers = fields.vector_pointers(alloc, head.ruin)?;
    let sgcc = ControlField {
        tag: SGCC,
        row: rows.sgcc,
    };
    let coord_edit = read_edit(alloc, fields, base, head.ruin, &sgcc)?;
    let coords = read_coords(alloc, fields, head.ruin)?;
    if fields.has(ARCC) {
        return Err(DatasetFault::Profile(ARCC));
    }
    Ok(UpdateRecord {
        target: head.target,
        ruin: head.ruin,
        version: head.version,
        prim: 0,
        grup: 0,
        class: 0,
        foid: None,
        attrs,
        pointer_edit,
        pointers,
        coord_edit,
        coords,
        related_edit: None,
        related: RelatedList::new(alloc),
    })
}
