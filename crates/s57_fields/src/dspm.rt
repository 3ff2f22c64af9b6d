//! Data set parameters (DSPM).
//!
//! The product specification fixes all but the scale; that it is so is tested in `s57_records`.

ghost use Rattle.std.specs.Option.{option_copied};
ghost use Rattle.std.specs.Prelude.{◌≡◌};
ghost use Rattle.s57_subfields.specs.Answers.{Gives};
ghost use Rattle.s57_fields.specs.Dspm.{dspm_at};

use crate::file::record_at;
use iso8211_formats::Descriptor;
use iso8211_records::RecordFile;
use s57_subfields::labels::{COMF, COUN, CSCL, DUNI, SOMF};
use s57_subfields::{FieldFault, FourBytes, OneByte, RowFields, Single, tags};
use std::alloc::Global;

/// Data set parameters (DSPM).
#[derive(Clone, Copy, Debug)]
pub struct Dspm {
    /// The denominator of the compilation scale (CSCL).
    pub cscl: u32,
    /// The units of depth (DUNI): 1, metres, in an ENC.
    pub duni: u8,
    /// The units of coordinates (COUN): 1, latitude and longitude, in an ENC.
    pub coun: u8,
    /// What a degree is multiplied by (COMF): 10,000,000 in an ENC.
    pub comf: u32,
    /// What a metre of depth is multiplied by (SOMF): 10 in an ENC, whose soundings are in decimetres.
    pub somf: u32,
}

/// The row DSPM as it stands in a file's descriptor.
#[derive(Clone, Copy, Debug)]
pub struct DspmRow {
    pub cscl: Single<FourBytes>,
    pub duni: Single<OneByte>,
    pub coun: Single<OneByte>,
    pub comf: Single<FourBytes>,
    pub somf: Single<FourBytes>,
}

impl DspmRow {
    ghost use Rattle.s57_fields.specs.Dspm.{dspm_row, dspm_in};

    /// Finds the row's subfields in the descriptor of the file's field. It takes no memory.
    pub fn find(descriptor: Option<&Descriptor>) -> DspmRow
        ensures { result ≡ dspm_row (option_copied descriptor.entry) }
    {
        DspmRow {
            cscl: Single::find(descriptor, CSCL, FourBytes),
            duni: Single::find(descriptor, DUNI, OneByte),
            coun: Single::find(descriptor, COUN, OneByte),
            comf: Single::find(descriptor, COMF, FourBytes),
            somf: Single::find(descriptor, SOMF, FourBytes),
        }
    }

    /// Reads the parameters of a data set.
    ///
    /// # Errors
    ///
    /// The first `MissingField` or `Value` in the order of the row; `NoMemory`.
    #[tactic(auto, unfolding(crate::specs::Dspm::dspm_in))]
    pub fn read(&self, alloc: Global, values: &RowFields<'_>) -> Result<Dspm, FieldFault>
        ensures found { Gives result (dspm_in self.now values.now) }
    {
        let cscl = self.cscl.read(alloc, values)?;
        let duni = self.duni.read(alloc, values)?;
        let coun = self.coun.read(alloc, values)?;
        let comf = self.comf.read(alloc, values)?;
        let somf = self.somf.read(alloc, values)?;
        Ok(Dspm {
            cscl,
            duni,
            coun,
            comf,
            somf,
        })
    }
}

/// Reads the parameters of the data set: the row DSPM of this data record, counted from 1.
///
/// # Errors
///
/// The first `MissingField` or `Value` in the order of the row; `NoMemory`.
pub fn read_dspm(alloc: Global, file: &RecordFile, number: usize) -> Result<Dspm, FieldFault>
    ensures { Gives result (dspm_at file.now number) }
{
    let row = DspmRow::find(file.descriptors.get(&tags::DSPM));
    let values = RowFields::new(number, tags::DSPM, record_at(file, number));
    row.read(alloc, &values)
}
