//! Data set identification (DSID).
//!
//! It says which cell, edition and update the file is, and by its profile whether it is a base file.

ghost use Rattle.std.specs.Option.{option_copied};
ghost use Rattle.std.specs.Prelude.{◌≡◌, ◌≤◌, IfOk};
ghost use Rattle.chart_model.specs.Key.{IsKey};
ghost use Rattle.s57_subfields.specs.Answers.{Gives};
ghost use Rattle.s57_subfields.specs.Texts.{key_in};
ghost use Rattle.s57_fields.specs.Dsid.{dsid_at};

use crate::file::record_at;
use chart_model::Octets;
use iso8211_formats::Descriptor;
use iso8211_records::RecordFile;
use s57_subfields::labels::{AGEN, DSNM, EDTN, ISDT, PROF, UPDN};
use s57_subfields::{
    DataSetName, EightBytes, FieldFault, NineDigits, OneByte, RowFields, Single, TwoBytes, tags,
};
use std::alloc::Global;

/// Data set identification (DSID).
#[derive(Debug, Drop)]
pub struct Dsid {
    /// The name of the data set's file. Its part before the last dot is the cell's key.
    pub dsnm: Octets,
    /// The edition.
    pub edtn: u32,
    /// The update.
    pub updn: u32,
    /// The date of issue, or any eight bytes that stand there.
    pub isdt: [u8; 8],
    /// The application profile: 1 a base file, 2 an update.
    pub prof: u8,
    /// The producing agency.
    pub agen: u16,
}

/// The row DSID as it stands in a file's descriptor.
#[derive(Clone, Copy, Debug)]
pub struct DsidRow {
    pub dsnm: Single<DataSetName>,
    pub edtn: Single<NineDigits>,
    pub updn: Single<NineDigits>,
    pub isdt: Single<EightBytes>,
    pub prof: Single<OneByte>,
    pub agen: Single<TwoBytes>,
}

impl DsidRow {
    ghost use Rattle.s57_fields.specs.Dsid.{dsid_row, dsid_in};

    /// Finds the row's subfields in the descriptor of the file's field. It takes no memory.
    pub fn find(descriptor: Option<&Descriptor>) -> DsidRow
        ensures { result ≡ dsid_row (option_copied descriptor.entry) }
    {
        DsidRow {
            dsnm: Single::find(descriptor, DSNM, DataSetName),
            edtn: Single::find(descriptor, EDTN, NineDigits),
            updn: Single::find(descriptor, UPDN, NineDigits),
            isdt: Single::find(descriptor, ISDT, EightBytes),
            prof: Single::find(descriptor, PROF, OneByte),
            agen: Single::find(descriptor, AGEN, TwoBytes),
        }
    }

    /// Reads the general information of a data set.
    ///
    /// # Errors
    ///
    /// The first `MissingField` or `Value` in the order of the row; `NoMemory`.
    #[tactic(auto, unfolding(crate::specs::Dsid::dsid_in))]
    pub fn read(&self, alloc: Global, values: &RowFields<'_>) -> Result<Dsid, FieldFault>
        ensures found { Gives result (dsid_in self.now values.now) }
        ensures key { IfOk result (λ dsid. IsKey (key_in dsid.dsnm)) }
        ensures edition { IfOk result (λ dsid. dsid.edtn ≤ 999999999) }
        ensures update { IfOk result (λ dsid. dsid.updn ≤ 999999999) }
    {
        let dsnm = self.dsnm.read(alloc, values)?;
        let edtn = self.edtn.read(alloc, values)?;
        let updn = self.updn.read(alloc, values)?;
        let isdt = self.isdt.read(alloc, values)?;
        let prof = self.prof.read(alloc, values)?;
        let agen = self.agen.read(alloc, values)?;
        Ok(Dsid {
            dsnm,
            edtn,
            updn,
            isdt,
            prof,
            agen,
        })
    }
}

/// Reads the general information of the data set: the row DSID of this data record, counted from 1.
///
/// # Errors
///
/// The first `MissingField` or `Value` in the order of the row; `NoMemory`.
pub fn read_dsid(alloc: Global, file: &RecordFile, number: usize) -> Result<Dsid, FieldFault>
    ensures found { Gives result (dsid_at file.now number) }
    ensures key { IfOk result (λ dsid. IsKey (key_in dsid.dsnm)) }
    ensures edition { IfOk result (λ dsid. dsid.edtn ≤ 999999999) }
    ensures update { IfOk result (λ dsid. dsid.updn ≤ 999999999) }
{
    let row = DsidRow::find(file.descriptors.get(&tags::DSID));
    let values = RowFields::new(number, tags::DSID, record_at(file, number));
    row.read(alloc, &values)
}
