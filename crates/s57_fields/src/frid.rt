//! Feature record identifier (FRID).
//!
//! In a base file every record inserts, so that its update instruction isn't looked at there.

ghost use Rattle.std.specs.Option.{option_copied};
ghost use Rattle.std.specs.Prelude.{◌≡◌};
ghost use Rattle.s57_subfields.specs.Answers.{Gives};
ghost use Rattle.s57_fields.specs.Frid.{frid_at};

use crate::file::record_at;
use crate::ruin::read_ruin;
use iso8211_formats::Descriptor;
use iso8211_records::RecordFile;
use s57_subfields::labels::{GRUP, OBJL, PRIM, RCID, RCNM, RUIN, RVER};
use s57_subfields::{FieldFault, FourBytes, OneByte, RowFields, Single, TwoBytes, tags};
use std::alloc::Global;

/// Feature record identifier (FRID).
#[derive(Clone, Copy, Debug)]
pub struct Frid {
    /// The record's kind.
    pub rcnm: u8,
    /// The record's number.
    pub rcid: u32,
    /// The geometric primitive.
    pub prim: u8,
    /// The group.
    pub grup: u8,
    /// The object class.
    pub objl: u16,
    /// The record's version.
    pub rver: u16,
    /// The update instruction, where it was asked for, else 0.
    pub ruin: u8,
}

/// The row FRID as it stands in a file's descriptor.
#[derive(Clone, Copy, Debug)]
pub struct FridRow {
    pub rcnm: Single<OneByte>,
    pub rcid: Single<FourBytes>,
    pub prim: Single<OneByte>,
    pub grup: Single<OneByte>,
    pub objl: Single<TwoBytes>,
    pub rver: Single<TwoBytes>,
    pub ruin: Single<OneByte>,
}

impl FridRow {
    ghost use Rattle.s57_fields.specs.Frid.{frid_row, frid_in};

    /// Finds the row's subfields in the descriptor of the file's field. It takes no memory.
    pub fn find(descriptor: Option<&Descriptor>) -> FridRow
        ensures { result ≡ frid_row (option_copied descriptor.entry) }
    {
        FridRow {
            rcnm: Single::find(descriptor, RCNM, OneByte),
            rcid: Single::find(descriptor, RCID, FourBytes),
            prim: Single::find(descriptor, PRIM, OneByte),
            grup: Single::find(descriptor, GRUP, OneByte),
            objl: Single::find(descriptor, OBJL, TwoBytes),
            rver: Single::find(descriptor, RVER, TwoBytes),
            ruin: Single::find(descriptor, RUIN, OneByte),
        }
    }

    /// Reads the identifier of a feature record. The update instruction is looked at where `update` is true,
    /// and is 0 elsewhere.
    ///
    /// # Errors
    ///
    /// The first `MissingField` or `Value` in the order of the row; `NoMemory`.
    #[tactic(auto, unfolding(crate::specs::Frid::frid_in))]
    pub fn read(
        &self,
        alloc: Global,
        values: &RowFields<'_>,
        update: bool,
    ) -> Result<Frid, FieldFault>
        ensures found { Gives result (frid_in update self.now values.now) }
    {
        let rcnm = self.rcnm.read(alloc, values)?;
        let rcid = self.rcid.read(alloc, values)?;
        let prim = self.prim.read(alloc, values)?;
        let grup = self.grup.read(alloc, values)?;
        let objl = self.objl.read(alloc, values)?;
        let rver = self.rver.read(alloc, values)?;
        let ruin = read_ruin(&self.ruin, alloc, values, update)?;
        Ok(Frid {
            rcnm,
            rcid,
            prim,
            grup,
            objl,
            rver,
            ruin,
        })
    }
}

/// Reads the identifier of a feature record: the row FRID of this data record, counted from 1. Its update
/// instruction is looked at where `update` is true, and is 0 elsewhere.
///
/// # Errors
///
/// The first `MissingField` or `Value` in the order of the row; `NoMemory`.
pub fn read_frid(
    alloc: Global,
    file: &RecordFile,
    number: usize,
    update: bool,
) -> Result<Frid, FieldFault>
    ensures { Gives result (frid_at update file.now number) }
{
    let row = FridRow::find(file.descriptors.get(&tags::FRID));
    let values = RowFields::new(number, tags::FRID, record_at(file, number));
    row.read(alloc, &values, update)
}
