//! Feature object identifier (FOID).
//!
//! It names a feature object beyond its cell; a record has its name in the cell beside it.

ghost use Rattle.std.specs.Option.{option_copied};
ghost use Rattle.std.specs.Prelude.{◌≡◌};
ghost use Rattle.s57_subfields.specs.Answers.{Gives};
ghost use Rattle.s57_fields.specs.Foid.{foid_at};

use crate::file::record_at;
use chart_model::Foid;
use iso8211_formats::Descriptor;
use iso8211_records::RecordFile;
use s57_subfields::labels::{AGEN, FIDN, FIDS};
use s57_subfields::{FieldFault, FourBytes, RowFields, Single, TwoBytes, tags};
use std::alloc::Global;

/// The row FOID as it stands in a file's descriptor.
#[derive(Clone, Copy, Debug)]
pub struct FoidRow {
    pub agen: Single<TwoBytes>,
    pub fidn: Single<FourBytes>,
    pub fids: Single<TwoBytes>,
}

impl FoidRow {
    ghost use Rattle.s57_fields.specs.Foid.{foid_row, foid_of};

    /// Finds the row's subfields in the descriptor of the file's field. It takes no memory.
    pub fn find(descriptor: Option<&Descriptor>) -> FoidRow
        ensures { result ≡ foid_row (option_copied descriptor.entry) }
    {
        FoidRow {
            agen: Single::find(descriptor, AGEN, TwoBytes),
            fidn: Single::find(descriptor, FIDN, FourBytes),
            fids: Single::find(descriptor, FIDS, TwoBytes),
        }
    }

    /// Reads the identifier of a feature object.
    ///
    /// # Errors
    ///
    /// The first `MissingField` or `Value` in the order of the row; `NoMemory`.
    #[tactic(auto, unfolding(crate::specs::Foid::foid_of))]
    pub fn read(&self, alloc: Global, values: &RowFields<'_>) -> Result<Foid, FieldFault>
        ensures found { Gives result (foid_of self.now values.now) }
    {
        let agen = self.agen.read(alloc, values)?;
        let fidn = self.fidn.read(alloc, values)?;
        let fids = self.fids.read(alloc, values)?;
        Ok(Foid { agen, fidn, fids })
    }
}

/// Reads the identifier of a feature object: the row FOID of this data record, counted from 1.
///
/// # Errors
///
/// The first `MissingField` or `Value` in the order of the row; `NoMemory`.
pub fn read_foid(alloc: Global, file: &RecordFile, number: usize) -> Result<Foid, FieldFault>
    ensures { Gives result (foid_at file.now number) }
{
    let row = FoidRow::find(file.descriptors.get(&tags::FOID));
    let values = RowFields::new(number, tags::FOID, record_at(file, number));
    row.read(alloc, &values)
}
