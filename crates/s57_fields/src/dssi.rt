//! Data set structure information (DSSI).
//!
//! Of it the lexical level of ATTF alone is read, since that says in which characters attributes are written.

ghost use Rattle.std.specs.Option.{option_copied};
ghost use Rattle.std.specs.Prelude.{◌≡◌};
ghost use Rattle.s57_subfields.specs.Answers.{Gives};
ghost use Rattle.s57_fields.specs.Dssi.{dssi_at};

use crate::file::record_at;
use iso8211_formats::Descriptor;
use iso8211_records::RecordFile;
use s57_subfields::labels::AALL;
use s57_subfields::{FieldFault, OneByte, RowFields, Single, tags};
use std::alloc::Global;

/// Data set structure information (DSSI).
#[derive(Clone, Copy, Debug)]
pub struct Dssi {
    /// The lexical level of attributes in ATTF (AALL): 0 for ASCII, 1 for ISO/IEC 8859-1, 2 for UCS-2.
    pub aall: u8,
}

/// The row DSSI as it stands in a file's descriptor.
#[derive(Clone, Copy, Debug)]
pub struct DssiRow {
    pub aall: Single<OneByte>,
}

impl DssiRow {
    ghost use Rattle.s57_fields.specs.Dssi.{dssi_row, dssi_in};

    /// Finds the row's subfields in the descriptor of the file's field. It takes no memory.
    pub fn find(descriptor: Option<&Descriptor>) -> DssiRow
        ensures { result ≡ dssi_row (option_copied descriptor.entry) }
    {
        DssiRow {
            aall: Single::find(descriptor, AALL, OneByte),
        }
    }

    /// Reads the structure information of a data set.
    ///
    /// # Errors
    ///
    /// The first `MissingField` or `Value` in the order of the row; `NoMemory`.
    #[tactic(auto, unfolding(crate::specs::Dssi::dssi_in))]
    pub fn read(&self, alloc: Global, values: &RowFields<'_>) -> Result<Dssi, FieldFault>
        ensures found { Gives result (dssi_in self.now values.now) }
    {
        let aall = self.aall.read(alloc, values)?;
        Ok(Dssi { aall })
    }
}

/// Reads the structure information of the data set: the row DSSI of this data record, counted from 1.
///
/// # Errors
///
/// The first `MissingField` or `Value` in the order of the row; `NoMemory`.
pub fn read_dssi(alloc: Global, file: &RecordFile, number: usize) -> Result<Dssi, FieldFault>
    ensures { Gives result (dssi_at file.now number) }
{
    let row = DssiRow::find(file.descriptors.get(&tags::DSSI));
    let values = RowFields::new(number, tags::DSSI, record_at(file, number));
    row.read(alloc, &values)
}
