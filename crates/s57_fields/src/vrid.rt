//! Vector record identifier (VRID).
//!
//! In a base file every record inserts, so that its update instruction isn't looked at there.

ghost use Rattle.std.specs.Option.{option_copied};
ghost use Rattle.std.specs.Prelude.{◌≡◌};
ghost use Rattle.s57_subfields.specs.Answers.{Gives};
ghost use Rattle.s57_fields.specs.Vrid.{vrid_at};

use crate::file::record_at;
use crate::ruin::read_ruin;
use iso8211_formats::Descriptor;
use iso8211_records::RecordFile;
use s57_subfields::labels::{RCID, RCNM, RUIN, RVER};
use s57_subfields::{FieldFault, FourBytes, OneByte, RowFields, Single, TwoBytes, tags};
use std::alloc::Global;

/// Vector record identifier (VRID).
#[derive(Clone, Copy, Debug)]
pub struct Vrid {
    /// The record's kind.
    pub rcnm: u8,
    /// The record's number.
    pub rcid: u32,
    /// The record's version.
    pub rver: u16,
    /// The update instruction, where it was asked for, else 0.
    pub ruin: u8,
}

/// The row VRID as it stands in a file's descriptor.
#[derive(Clone, Copy, Debug)]
pub struct VridRow {
    pub rcnm: Single<OneByte>,
    pub rcid: Single<FourBytes>,
    pub rver: Single<TwoBytes>,
    pub ruin: Single<OneByte>,
}

impl VridRow {
    ghost use Rattle.s57_fields.specs.Vrid.{vrid_row, vrid_in};

    /// Finds the row's subfields in the descriptor of the file's field. It takes no memory.
    pub fn find(descriptor: Option<&Descriptor>) -> VridRow
        ensures { result ≡ vrid_row (option_copied descriptor.entry) }
    {
        VridRow {
            rcnm: Single::find(descriptor, RCNM, OneByte),
            rcid: Single::find(descriptor, RCID, FourBytes),
            rver: Single::find(descriptor, RVER, TwoBytes),
            ruin: Single::find(descriptor, RUIN, OneByte),
        }
    }

    /// Reads the identifier of a vector record. The update instruction is looked at where `update` is true,
    /// and is 0 elsewhere.
    ///
    /// # Errors
    ///
    /// The first `MissingField` or `Value` in the order of the row; `NoMemory`.
    #[tactic(auto, unfolding(crate::specs::Vrid::vrid_in))]
    pub fn read(
        &self,
        alloc: Global,
        values: &RowFields<'_>,
        update: bool,
    ) -> Result<Vrid, FieldFault>
        ensures found { Gives result (vrid_in update self.now values.now) }
    {
        let rcnm = self.rcnm.read(alloc, values)?;
        let rcid = self.rcid.read(alloc, values)?;
        let rver = self.rver.read(alloc, values)?;
        let ruin = read_ruin(&self.ruin, alloc, values, update)?;
        Ok(Vrid {
            rcnm,
            rcid,
            rver,
            ruin,
        })
    }
}

/// Reads the identifier of a vector record: the row VRID of this data record, counted from 1. Its update
/// instruction is looked at where `update` is true, and is 0 elsewhere.
///
/// # Errors
///
/// The first `MissingField` or `Value` in the order of the row; `NoMemory`.
pub fn read_vrid(
    alloc: Global,
    file: &RecordFile,
    number: usize,
    update: bool,
) -> Result<Vrid, FieldFault>
    ensures { Gives result (vrid_at update file.now number) }
{
    let row = VridRow::find(file.descriptors.get(&tags::VRID));
    let values = RowFields::new(number, tags::VRID, record_at(file, number));
    row.read(alloc, &values, update)
}
