//! What a record's identifier and its control fields say.
//!
//! Vector records and features begin alike, and each control field has the same three numbers.

ghost use Rattle.std.specs.Prelude.{◌≡◌};
ghost use Rattle.s57_records.specs.Answers.{Gives};
ghost use Rattle.s57_records.specs.Rows.{ruin_of, edit_of, vector_head, feature_head, checked_prim, foid_of};
ghost use Rattle.s57_records.specs.RecordReading.{subfields_in};
ghost use Rattle.s57_records.specs.Resolved.{IsFound};
ghost use Rattle.s57_subfields.specs.Places.{subfield_of};
ghost use Rattle.iso8211_records.specs.Kinds.{layout_at};

use crate::fault::DatasetFault;
use crate::reader::{DataRecord, reads_as};
use chart_model::codes::{
    AREA, CONNECTED_NODE, EDGE, FEATURE, INSERT, ISOLATED_NODE, MODIFY, NO_PRIMITIVE, POINT,
};
use chart_model::{Control, Foid, Name};
use s57_fields::ControlRow;
use s57_subfields::labels::{PRIM, RCNM, RUIN};
use s57_subfields::tags::{FOID, FRID, VRID};
use s57_subfields::{OneByte, Single};
use std::alloc::Global;

/// The identifier of a vector record.
#[derive(Clone, Copy, Debug)]
pub(crate) struct VectorHead {
    pub target: Name,
    pub version: u16,
    pub ruin: u8,
}

/// The identifier of a feature.
#[derive(Clone, Copy, Debug)]
pub(crate) struct FeatureHead {
    pub target: Name,
    pub prim: u8,
    pub grup: u8,
    pub class: u16,
    pub version: u16,
    pub ruin: u8,
}

/// A control field: its tag, and its row in the file's descriptor.
#[derive(Clone, Copy, Debug)]
pub(crate) struct ControlField {
    pub tag: [u8; 4],
    pub row: ControlRow,
}

/// The update instruction: insert in a base file.
#[tactic(auto, unfolding(crate::specs::Rows::ruin_of))]
fn read_ruin(
    alloc: Global,
    fields: &DataRecord<'_>,
    base: bool,
    tag: [u8; 4],
    instruction: &Single<OneByte>,
) -> Result<u8, DatasetFault>
    requires { instruction.now.subfield ≡ subfield_of (layout_at fields.now.rows.now tag) RUIN }
    ensures { Gives result (ruin_of base fields.now.number (subfields_in fields.now) tag) }
{
    if base {
        return Ok(INSERT);
    }
    let ruin = instruction.read(alloc, &fields.values(tag))?;
    if ruin < INSERT || ruin > MODIFY {
        return Err(DatasetFault::Value {
            record: fields.number,
            label: RUIN,
        });
    }
    Ok(ruin)
}

/// How a list is edited. The control field is looked at in the modifications of an update alone.
#[tactic(auto, unfolding(crate::specs::Rows::edit_of))]
pub(crate) fn read_edit(
    alloc: Global,
    fields: &DataRecord<'_>,
    base: bool,
    ruin: u8,
    control: &ControlField,
) -> Result<Option<Control>, DatasetFault>
    requires { IsFound (layout_at fields.now.rows.now control.now.tag) control.now.row }
    ensures { let row = control.now.row in
        Gives result (edit_of base ruin fields.now.number (subfields_in fields.now) control.now.tag
        row.instruction.subfield.label row.index.subfield.label row.count.subfield.label) }
{
    if base || ruin != MODIFY || !fields.has(control.tag) {
        return Ok(None);
    }
    let row = &control.row;
    let values = fields.values(control.tag);
    let instruction = row.instruction.read(alloc, &values)?;
    if instruction < INSERT || instruction > MODIFY {
        let label = row.instruction.subfield.label;
        return Err(DatasetFault::Value {
            record: fields.number,
            label,
        });
    }
    let index = row.index.read(alloc, &values)?;
    let count = row.count.read(alloc, &values)?;
    Ok(Some(Control {
        instruction,
        index,
        count,
    }))
}

/// The identifier of a vector record.
#[tactic(auto, unfolding(crate::specs::Rows::vector_head))]
pub(crate) fn read_vector_head(
    alloc: Global,
    fields: &DataRecord<'_>,
    base: bool,
) -> Result<VectorHead, DatasetFault>
    ensures { Gives result (vector_head base fields.now.number (subfields_in fields.now)) }
{
    let row = &fields.rows.vector().vrid;
    let values = fields.values(VRID);
    let rcnm = row.rcnm.read(alloc, &values)?;
    if rcnm != ISOLATED_NODE && rcnm != CONNECTED_NODE && rcnm != EDGE {
        return Err(DatasetFault::Profile(RCNM));
    }
    let rcid = row.rcid.read(alloc, &values)?;
    let version = row.rver.read(alloc, &values)?;
    let ruin = read_ruin(alloc, fields, base, VRID, &row.ruin)?;
    Ok(VectorHead {
        target: Name { rcnm, rcid },
        version,
        ruin,
    })
}

/// Refuses a primitive that isn't one of the list, in an insertion.
fn check_prim(
    alloc: Global,
    fields: &DataRecord<'_>,
    base: bool,
    prim: u8,
) -> Result<(), DatasetFault>
    ensures { Gives result (checked_prim base fields.now.number (subfields_in fields.now) prim) }
{
    if (prim >= POINT && prim <= AREA) || prim == NO_PRIMITIVE {
        return Ok(());
    }
    let row = &fields.rows.feature().frid;
    if base || reads_as(alloc, &fields.values(FRID), &row.ruin, INSERT)? {
        return Err(DatasetFault::Value {
            record: fields.number,
            label: PRIM,
        });
    }
    Ok(())
}

/// The identifier of a feature.
#[tactic(auto, unfolding(crate::specs::Rows::feature_head))]
pub(crate) fn read_feature_head(
    alloc: Global,
    fields: &DataRecord<'_>,
    base: bool,
) -> Result<FeatureHead, DatasetFault>
    ensures { Gives result (feature_head base fields.now.number (subfields_in fields.now)) }
{
    let row = &fields.rows.feature().frid;
    let values = fields.values(FRID);
    let rcnm = row.rcnm.read(alloc, &values)?;
    if rcnm != FEATURE {
        return Err(DatasetFault::Profile(RCNM));
    }
    let rcid = row.rcid.read(alloc, &values)?;
    let prim = row.prim.read(alloc, &values)?;
    check_prim(alloc, fields, base, prim)?;
    let grup = row.grup.read(alloc, &values)?;
    let class = row.objl.read(alloc, &values)?;
    let version = row.rver.read(alloc, &values)?;
    let ruin = read_ruin(alloc, fields, base, FRID, &row.ruin)?;
    Ok(FeatureHead {
        target: Name { rcnm, rcid },
        prim,
        grup,
        class,
        version,
        ruin,
    })
}

/// The identifier of a feature object, which an insertion needs.
#[tactic(auto, unfolding(crate::specs::Rows::foid_of))]
pub(crate) fn read_foid(
    alloc: Global,
    fields: &DataRecord<'_>,
    ruin: u8,
) -> Result<Option<Foid>, DatasetFault>
    ensures { Gives result (foid_of ruin fields.now.number (subfields_in fields.now)) }
{
    if fields.has(FOID) {
        let foid = fields.foid(alloc)?;
        return Ok(Some(foid));
    }
    if ruin == INSERT {
        return Err(DatasetFault::MissingField {
            record: fields.number,
            tag: FOID,
        });
    }
    Ok(None)
}
