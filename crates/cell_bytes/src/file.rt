//! A file in the making: records are put behind one another as they are finished.
//!
//! A file is written in one pass, and only the record that is made just now stands beside it. A record that turns out
//! too long doesn't end the pass: the fault that is told is that of the least name, and where no record is too long,
//! how many bytes the file would have.

ghost use Rattle.std.specs.Prelude.{◌≡◌, ◌++◌, ◌+◌, [], length, IfOk, OnOk};
ghost use Rattle.std.specs.List.{AllByRecursion};
ghost use Rattle.std.specs.FinMap as map;
ghost use Rattle.chart_model.specs.Answers.{first_of};
ghost use Rattle.chart_model.specs.Cell.{IsFeature, IsVector};
ghost use Rattle.cell_bytes.specs.Record.{base_of, record_bytes, of_data, record_of};
ghost use Rattle.cell_bytes.specs.DataSet.{general_fields, parameter_fields};
ghost use Rattle.cell_bytes.specs.Written.{feature_faults, feature_record, feature_records, long_fault, next_number};
ghost use Rattle.cell_bytes.specs.Written.{number_behind, records_from, record_fault, vector_faults, vector_record};
ghost use Rattle.cell_bytes.specs.Written.{vector_records};
ghost use Rattle.cell_bytes.specs.FieldValues.{IsFourBytes};
ghost use Rattle.cell_bytes.specs.RecordsRead.{AreCountsInRange, IsFeatureEntryInRange, IsHeaderInRange};
ghost use Rattle.cell_bytes.specs.RecordsRead.{IsVectorInRange};

use crate::draft::RecordDraft;
use crate::fault::WriteFault;
use crate::fields::OF_DATA;
use crate::records::{draft_feature, draft_general, draft_parameters, draft_vector};
use chart_model::{Cell, Feature, Name, Octets, Vector};
use std::alloc::{AllocError, Global};

/// The most bytes of a record: its length has five digits in the leader (ISO/IEC 8211).
const RECORD_LIMIT: usize = 99_999;

/// A file in the making: its bytes so far, and the number of the data record that comes next, modulo 65,536.
#[derive(Debug, Drop)]
pub(crate) struct CellFile {
    pub(crate) bytes: Octets,
    pub(crate) number: u16,
    pub(crate) draft: RecordDraft,
}

/// What is wrong with a record of so many bytes.
fn fault_of(name: Name, bytes: usize) -> Option<WriteFault>
    ensures { result ≡ long_fault name bytes }
{
    if bytes > RECORD_LIMIT {
        Some(WriteFault::RecordLong(name, bytes))
    } else {
        None
    }
}

impl CellFile {
    /// A file without a record. It takes no memory.
    pub(crate) fn new(alloc: Global) -> CellFile
        ensures bytes { result.bytes ≡ [] }
        ensures number { result.number ≡ 1 }
    {
        CellFile {
            bytes: Octets::from_vec(Vec::new(alloc)),
            number: 1,
            draft: RecordDraft::new(alloc),
        }
    }

    /// The bytes of the file. It takes no memory.
    pub(crate) fn into_bytes(self) -> Octets
        ensures { result ≡ self.bytes }
    {
        self.bytes
    }

    /// Adds the record that was made, and answers how many bytes it has.
    pub(crate) fn put_record(&mut self) -> Result<usize, AllocError>
        ensures bytes { OnOk result (self.new.bytes ≡ self.old.bytes
            ++ record_bytes of_data self.old.draft.fields.directory self.old.draft.fields.area) }
        ensures number { OnOk result (self.new.number ≡ next_number self.old.number) }
        ensures length { IfOk result (λ bytes. bytes
            ≡ base_of self.old.draft.fields.directory + length self.old.draft.fields.area) }
    {
        let length = self.draft.fields.record_length()?;
        self.draft.fields.append_to(&mut self.bytes, OF_DATA)?;
        self.number = self.number.wrapping_add(1);
        Ok(length)
    }

    /// Adds the record of a base file's general information.
    #[tactic(auto, using(crate::proofs::Framed::record_bytes_only_fields))]
    pub(crate) fn put_general(&mut self, alloc: Global, cell: &Cell) -> Result<(), AllocError>
        ensures bytes { OnOk result (self.new.bytes
            ≡ self.old.bytes ++ record_of of_data (general_fields self.old.number cell.now)) }
        ensures number { OnOk result (self.new.number ≡ next_number self.old.number) }
        // The scale is written with the parameters.
        ensures header { OnOk result (IsFourBytes cell.now.header.scale → IsHeaderInRange cell.now.header) }
        ensures counts { OnOk result (AreCountsInRange cell.now) }
    {
        draft_general(alloc, &mut self.draft, self.number, cell)?;
        self.put_record()?;
        Ok(())
    }

    /// Adds the record of a base file's parameters.
    #[tactic(auto, using(crate::proofs::Framed::record_bytes_only_fields))]
    pub(crate) fn put_parameters(&mut self, cell: &Cell) -> Result<(), AllocError>
        ensures bytes { OnOk result (self.new.bytes
            ≡ self.old.bytes ++ record_of of_data (parameter_fields self.old.number cell.now.header.scale)) }
        ensures number { OnOk result (self.new.number ≡ next_number self.old.number) }
        ensures scale { OnOk result (IsFourBytes cell.now.header.scale) }
    {
        draft_parameters(&mut self.draft, self.number, cell.header.scale)?;
        self.put_record()?;
        Ok(())
    }

    /// Adds the record of a vector, and answers what is wrong with it.
    #[tactic(auto, using(crate::proofs::Framed::record_bytes_only_fields), unfolding(crate::specs::Written::vector_record))]
    fn put_vector(&mut self, name: Name, vector: &Vector) -> Result<Option<WriteFault>, AllocError>
        ensures bytes { OnOk result (self.new.bytes ≡ self.old.bytes ++ vector_record name vector.now self.old.number) }
        ensures number { OnOk result (self.new.number ≡ next_number self.old.number) }
        ensures fault { IfOk result (λ fault. fault ≡ record_fault name (vector_record name vector.now)) }
        ensures in_range { OnOk result (IsVector name vector.now → IsVectorInRange (name, vector.now)) }
    {
        draft_vector(&mut self.draft, self.number, name, vector)?;
        let bytes = self.put_record()?;
        Ok(fault_of(name, bytes))
    }

    /// Adds the record of a feature, and answers what is wrong with it.
    #[tactic(auto, using(crate::proofs::Framed::record_bytes_only_fields), unfolding(crate::specs::Written::feature_record))]
    fn put_feature(
        &mut self,
        name: Name,
        feature: &Feature,
    ) -> Result<Option<WriteFault>, AllocError>
        ensures bytes { OnOk result (self.new.bytes
            ≡ self.old.bytes ++ feature_record name feature.now self.old.number) }
        ensures number { OnOk result (self.new.number ≡ next_number self.old.number) }
        ensures fault { IfOk result (λ fault. fault ≡ record_fault name (feature_record name feature.now)) }
        ensures in_range { OnOk result (IsFeature name feature.now → IsFeatureEntryInRange (name, feature.now)) }
    {
        draft_feature(&mut self.draft, self.number, name, feature)?;
        let bytes = self.put_record()?;
        Ok(fault_of(name, bytes))
    }

    /// Adds the records of the vectors, and answers the first fault of one.
    #[tactic(auto, using(crate::proofs::RecordFaults::first_more), unfolding(crate::specs::Written::vector_records, crate::specs::Written::vector_faults, crate::specs::Written::records_from, crate::specs::Written::number_behind))]
    pub(crate) fn put_vectors(&mut self, cell: &Cell) -> Result<Option<WriteFault>, AllocError>
        ensures bytes { OnOk result (self.new.bytes
            ≡ self.old.bytes ++ records_from self.old.number (vector_records cell.now)) }
        ensures number { OnOk result (self.new.number ≡ number_behind self.old.number (vector_records cell.now)) }
        ensures fault { IfOk result (λ fault. fault ≡ first_of (vector_faults cell.now)) }
        ensures in_range { OnOk result (AllByRecursion IsVectorInRange (map.entries cell.now.vectors)) }
    {
        let mut first = None;
        for (name, vector) in cell.vectors.iter() {
            first = first.or(self.put_vector(*name, vector)?);
        }
        Ok(first)
    }

    /// Adds the records of the features, and answers the first fault of one.
    #[tactic(auto, using(crate::proofs::RecordFaults::first_more), unfolding(crate::specs::Written::feature_records, crate::specs::Written::feature_faults, crate::specs::Written::records_from, crate::specs::Written::number_behind))]
    pub(crate) fn put_features(&mut self, cell: &Cell) -> Result<Option<WriteFault>, AllocError>
        ensures bytes { OnOk result (self.new.bytes
            ≡ self.old.bytes ++ records_from self.old.number (feature_records cell.now)) }
        ensures number { OnOk result (self.new.number ≡ number_behind self.old.number (feature_records cell.now)) }
        ensures fault { IfOk result (λ fault. fault ≡ first_of (feature_faults cell.now)) }
        ensures in_range { OnOk result (AllByRecursion IsFeatureEntryInRange (map.entries cell.now.features)) }
    {
        let mut first = None;
        for (name, feature) in cell.features.iter() {
            first = first.or(self.put_feature(*name, feature)?);
        }
        Ok(first)
    }
}
