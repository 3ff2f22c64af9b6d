//! The records of a cell file (S-57 Part 3): which fields each has, and in which order.
//!
//! The field of a list is left out where the list is empty.

ghost use Rattle.std.specs.Prelude.{◌≡◌, ◌++◌, [], codes, OnOk};
ghost use Rattle.std.specs.List.{AllByRecursion, flat_map};
ghost use Rattle.chart_model.specs.Cell.{IsFeature, IsVector};
ghost use Rattle.cell_bytes.specs.Record.{only_fields, field, list_field, with_fields};
ghost use Rattle.cell_bytes.specs.Vector.{point, sounding, vector_fields, vector_identifier};
ghost use Rattle.cell_bytes.specs.Feature.{feature_fields, feature_identifier};
ghost use Rattle.cell_bytes.specs.DataSet.{general_fields, parameter_fields, revision_fields};
ghost use Rattle.cell_bytes.specs.FieldValues.{IsCoordInRange, IsFeatureInRange, IsFourBytes};
ghost use Rattle.cell_bytes.specs.RecordsRead.{AreCountsInRange, IsFeatureEntryInRange, IsHeaderInRange};
ghost use Rattle.cell_bytes.specs.RecordsRead.{IsVectorInRange};

use crate::data_set::{Purpose, put_identification, put_parameters, put_structure};
use crate::draft::RecordDraft;
use crate::lists::{
    put_attributes, put_feature_pointers, put_foid, put_name, put_points, put_related,
    put_soundings, put_vector_pointers,
};
use crate::subfields::{put_b11, put_b12};
use chart_model::codes::INSERT;
use chart_model::{Cell, Coord, Feature, Header, Name, Octets, Vector};
use std::alloc::{AllocError, Global};

/// Adds the identifier of a vector record.
#[tactic(auto, unfolding(crate::specs::Vector::vector_identifier, crate::specs::Vector::name_text, crate::specs::Subfields::b11, crate::specs::Subfields::b12, crate::specs::Subfields::b14))]
fn put_vector_identifier(out: &mut Octets, name: Name, version: u16) -> Result<(), AllocError>
    ensures { OnOk result (out.new ≡ out.old ++ vector_identifier name version) }
{
    let [a, b, c, d] = name.rcid.to_le_bytes();
    let [e, f] = version.to_le_bytes();
    out.extend_from_slice(&[name.rcnm, a, b, c, d, e, f, INSERT])
}

/// Adds the fields of coordinates: one for those without a depth, and one for soundings.
fn put_coordinates(draft: &mut RecordDraft, coords: &[Coord]) -> Result<(), AllocError>
    requires { draft.old.text ≡ [] }
    ensures fields { OnOk result (draft.new.fields ≡ with_fields draft.old.fields
        (list_field (codes "SG2D") (flat_map point coords.now)
        ++ list_field (codes "SG3D") (flat_map sounding coords.now))) }
    ensures text { OnOk result (draft.new.text ≡ []) }
    ensures in_range { OnOk result (AllByRecursion IsCoordInRange coords.now) }
{
    put_points(&mut draft.text, coords)?;
    draft.end_list(*b"SG2D")?;
    put_soundings(&mut draft.text, coords)?;
    draft.end_list(*b"SG3D")
}

/// Makes the record of a vector.
#[tactic(auto, unfolding(crate::specs::Vector::vector_fields))]
pub(crate) fn draft_vector(
    draft: &mut RecordDraft,
    number: u16,
    name: Name,
    vector: &Vector,
) -> Result<(), AllocError>
    ensures fields { OnOk result (draft.new.fields ≡ only_fields (vector_fields number name vector.now)) }
    ensures in_range { OnOk result (IsVector name vector.now → IsVectorInRange (name, vector.now)) }
{
    draft.begin(number)?;
    put_vector_identifier(&mut draft.text, name, vector.version)?;
    draft.end_field(*b"VRID")?;
    put_attributes(&mut draft.text, &vector.attrs)?;
    draft.end_list(*b"ATTV")?;
    put_vector_pointers(&mut draft.text, vector.pointers.as_slice())?;
    draft.end_list(*b"VRPT")?;
    put_coordinates(draft, vector.coords.as_slice())
}

/// Adds the identifier of a feature record.
#[tactic(auto, unfolding(crate::specs::Feature::feature_identifier, crate::specs::Feature::object_description))]
fn put_feature_identifier(out: &mut Octets, name: Name, feature: &Feature) -> Result<(), AllocError>
    ensures bytes { OnOk result (out.new ≡ out.old ++ feature_identifier name feature.now) }
    ensures in_range { OnOk result (IsFeatureInRange feature.now) }
{
    put_name(out, name)?;
    put_b11(out, feature.prim)?;
    put_b11(out, feature.grup)?;
    put_b12(out, feature.class)?;
    put_b12(out, feature.version)?;
    put_b11(out, INSERT)
}

/// Makes the record of a feature.
#[tactic(auto, unfolding(crate::specs::Feature::feature_fields))]
pub(crate) fn draft_feature(
    draft: &mut RecordDraft,
    number: u16,
    name: Name,
    feature: &Feature,
) -> Result<(), AllocError>
    ensures fields { OnOk result (draft.new.fields ≡ only_fields (feature_fields number name feature.now)) }
    ensures in_range { OnOk result (IsFeature name feature.now → IsFeatureEntryInRange (name, feature.now)) }
{
    draft.begin(number)?;
    put_feature_identifier(&mut draft.text, name, feature)?;
    draft.end_field(*b"FRID")?;
    put_foid(&mut draft.text, feature.foid)?;
    draft.end_field(*b"FOID")?;
    put_attributes(&mut draft.text, &feature.attrs)?;
    draft.end_list(*b"ATTF")?;
    put_related(&mut draft.text, feature.related.as_slice())?;
    draft.end_list(*b"FFPT")?;
    put_feature_pointers(&mut draft.text, feature.pointers.as_slice())?;
    draft.end_list(*b"FSPT")
}

/// Makes the record of a base file's general information.
#[tactic(auto, unfolding(crate::specs::DataSet::general_fields))]
pub(crate) fn draft_general(
    alloc: Global,
    draft: &mut RecordDraft,
    number: u16,
    cell: &Cell,
) -> Result<(), AllocError>
    ensures fields { OnOk result (draft.new.fields ≡ only_fields (general_fields number cell.now)) }
    // The scale is written with the parameters.
    ensures header { OnOk result (IsFourBytes cell.now.header.scale → IsHeaderInRange cell.now.header) }
    ensures counts { OnOk result (AreCountsInRange cell.now) }
{
    draft.begin(number)?;
    put_identification(alloc, &mut draft.text, Purpose::NewDataSet, &cell.header)?;
    draft.end_field(*b"DSID")?;
    put_structure(&mut draft.text, cell)?;
    draft.end_field(*b"DSSI")
}

/// Makes the record of a base file's parameters.
#[tactic(auto, unfolding(crate::specs::DataSet::parameter_fields))]
pub(crate) fn draft_parameters(
    draft: &mut RecordDraft,
    number: u16,
    scale: u32,
) -> Result<(), AllocError>
    ensures { OnOk result (draft.new.fields ≡ only_fields (parameter_fields number scale)) }
{
    draft.begin(number)?;
    put_parameters(&mut draft.text, scale)?;
    draft.end_field(*b"DSPM")
}

/// Makes the record of an update's general information.
#[tactic(auto, unfolding(crate::specs::DataSet::revision_fields))]
pub(crate) fn draft_revision(
    alloc: Global,
    draft: &mut RecordDraft,
    number: u16,
    header: &Header,
) -> Result<(), AllocError>
    ensures { OnOk result (draft.new.fields ≡ only_fields (revision_fields number header.now)) }
{
    draft.begin(number)?;
    put_identification(alloc, &mut draft.text, Purpose::Revision, header)?;
    draft.end_field(*b"DSID")
}
