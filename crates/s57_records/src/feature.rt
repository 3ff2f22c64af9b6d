//! The change that a feature stands for.
//!
//! Its fields are read in the order of the standard's table, which decides which fault is the first.

ghost use Rattle.s57_records.specs.Answers.{Gives};
ghost use Rattle.s57_records.specs.Rows.{feature_of};
ghost use Rattle.s57_records.specs.RecordReading.{subfields_in};

use crate::change::{ControlField, read_edit, read_feature_head, read_foid};
use crate::fault::DatasetFault;
use crate::reader::DataRecord;
use chart_model::{Coords, UpdateRecord};
use s57_subfields::tags::{FFPC, FSPC};
use std::alloc::Global;

/// The change that a feature stands for.
#[tactic(auto, unfolding(crate::specs::Rows::feature_of))]
pub(crate) fn read_feature(
    alloc: Global,
    fields: &DataRecord<'_>,
    base: bool,
) -> Result<UpdateRecord, DatasetFault>
    ensures { Gives result (feature_of base fields.now.number (subfields_in fields.now)) }
{
    let rows = fields.rows.feature();
    let head = read_feature_head(alloc, fields, base)?;
    let foid = read_foid(alloc, fields, head.ruin)?;
    let attrs = fields.feature_attrs(alloc, head.ruin)?;
    let ffpc = ControlField {
        tag: FFPC,
        row: rows.ffpc,
    };
    let related_edit = read_edit(alloc, fields, base, head.ruin, &ffpc)?;
    let related = fields.related(alloc, head.ruin)?;
    let fspc = ControlField {
        tag: FSPC,
        row: rows.fspc,
    };
    let pointer_edit = read_edit(alloc, fields, base, head.ruin, &fspc)?;
    let pointers = fields.feature_pointers(alloc, head.ruin)?;
    Ok(UpdateRecord {
        target: head.target,
        ruin: head.ruin,
        version: head.version,
        prim: head.prim,
        grup: head.grup,
        class: head.class,
        foid,
        attrs,
        pointer_edit,
        pointers,
        coord_edit: None,
        coords: Coords::new(alloc),
        related_edit,
        related,
    })
}
