//! The rows of the standard's tables, as they stand in a file's descriptors.
//!
//! They are found before any record is read, so that no record searches for a label. A row that lacks a subfield is no
//! fault by itself: it is one where a record needs it.

ghost use Rattle.std.specs.Prelude.{◌≡◌};
ghost use Rattle.s57_records.specs.Resolved.{general_rows, vector_rows, feature_rows};

use iso8211_records::DescriptorMap;
use s57_fields::{
    AttributeRow, ControlRow, CoordinateRow, DsidRow, DspmRow, DssiRow, FoidRow, FridRow,
    PointerRow, RelatedRow, VridRow,
};
use s57_subfields::tags::{
    ATTF, ATTV, DSID, DSPM, DSSI, FFPC, FFPT, FOID, FRID, FSPC, FSPT, SG2D, SG3D, SGCC, VRID, VRPC,
    VRPT,
};
use std::marker::Model;

/// The rows of general information.
#[derive(Clone, Copy, Debug)]
pub(crate) struct GeneralRows {
    pub dsid: DsidRow,
    pub dssi: DssiRow,
    pub dspm: DspmRow,
}

/// The rows of a vector record.
#[derive(Clone, Copy, Debug)]
pub(crate) struct VectorRows {
    pub vrid: VridRow,
    pub attv: AttributeRow,
    pub vrpc: ControlRow,
    pub vrpt: PointerRow,
    pub sgcc: ControlRow,
    pub sg2d: CoordinateRow,
    pub sg3d: CoordinateRow,
}

/// The rows of a feature.
#[derive(Clone, Copy, Debug)]
pub(crate) struct FeatureRows {
    pub frid: FridRow,
    pub foid: FoidRow,
    pub attf: AttributeRow,
    pub ffpc: ControlRow,
    pub ffpt: RelatedRow,
    pub fspc: ControlRow,
    pub fspt: PointerRow,
}

/// The rows of a file: each subfield's place, found once for all of the file's records.
///
/// Contracts see the tags and layouts of the file's descriptors.
#[derive(Drop)]
pub(crate) struct Rows<'a> {
    descriptors: &'a DescriptorMap,
    general: GeneralRows,
    vector: VectorRows,
    feature: FeatureRows,
}

impl<'a> Model for Rows<'a> {
    ghost use Rattle.std.specs.Prelude.{◌≡◌, List, ℕ};
    ghost use Rattle.iso8211_formats.specs.Layout.{Layout};
    ghost use Rattle.s57_records.specs.Resolved.{general_rows, vector_rows, feature_rows};

    ghost Value = { List (List ℕ × Layout) };

    ghost view = { λ rows. rows.descriptors.now };

    ghost invariant = { λ rows. (rows.general ≡ general_rows rows.descriptors.now)
        × (rows.vector ≡ vector_rows rows.descriptors.now)
        × (rows.feature ≡ feature_rows rows.descriptors.now) };
}

/// Finds the rows of general information.
fn find_general(descriptors: &DescriptorMap) -> GeneralRows
    ensures { result ≡ general_rows descriptors.now }
{
    GeneralRows {
        dsid: DsidRow::find(descriptors.get(&DSID)),
        dssi: DssiRow::find(descriptors.get(&DSSI)),
        dspm: DspmRow::find(descriptors.get(&DSPM)),
    }
}

/// Finds the rows of a vector record.
fn find_vector(descriptors: &DescriptorMap) -> VectorRows
    ensures { result ≡ vector_rows descriptors.now }
{
    VectorRows {
        vrid: VridRow::find(descriptors.get(&VRID)),
        attv: AttributeRow::find(descriptors.get(&ATTV)),
        vrpc: ControlRow::find_vrpc(descriptors.get(&VRPC)),
        vrpt: PointerRow::find_vrpt(descriptors.get(&VRPT)),
        sgcc: ControlRow::find_sgcc(descriptors.get(&SGCC)),
        sg2d: CoordinateRow::find_sg2d(descriptors.get(&SG2D)),
        sg3d: CoordinateRow::find_sg3d(descriptors.get(&SG3D)),
    }
}

/// Finds the rows of a feature.
fn find_feature(descriptors: &DescriptorMap) -> FeatureRows
    ensures { result ≡ feature_rows descriptors.now }
{
    FeatureRows {
        frid: FridRow::find(descriptors.get(&FRID)),
        foid: FoidRow::find(descriptors.get(&FOID)),
        attf: AttributeRow::find(descriptors.get(&ATTF)),
        ffpc: ControlRow::find_ffpc(descriptors.get(&FFPC)),
        ffpt: RelatedRow::find(descriptors.get(&FFPT)),
        fspc: ControlRow::find_fspc(descriptors.get(&FSPC)),
        fspt: PointerRow::find_fspt(descriptors.get(&FSPT)),
    }
}

impl<'a> Rows<'a> {
    /// Finds the rows in the descriptors of a file. It takes no memory.
    pub fn find(descriptors: &'a DescriptorMap) -> Rows<'a>
        ensures { result ≡ descriptors.now }
    {
        Rows {
            descriptors,
            general: find_general(descriptors),
            vector: find_vector(descriptors),
            feature: find_feature(descriptors),
        }
    }

    /// The rows of general information.
    pub fn general(&self) -> &GeneralRows
        ensures { result.now ≡ general_rows self.now }
    {
        &self.general
    }

    /// The rows of a vector record.
    pub fn vector(&self) -> &VectorRows
        ensures { result.now ≡ vector_rows self.now }
    {
        &self.vector
    }

    /// The rows of a feature.
    pub fn feature(&self) -> &FeatureRows
        ensures { result.now ≡ feature_rows self.now }
    {
        &self.feature
    }
}
