//! The control fields that edit lists: VRPC, SGCC, FFPC and FSPC.
//!
//! Their rows differ in the labels alone.

ghost use Rattle.std.specs.Option.{option_copied};
ghost use Rattle.std.specs.Prelude.{◌≡◌};
ghost use Rattle.s57_subfields.specs.Answers.{Gives};
ghost use Rattle.s57_fields.specs.Control.{vrpc_at, sgcc_at, ffpc_at, fspc_at};

use crate::file::record_at;
use chart_model::Control;
use iso8211_formats::Descriptor;
use iso8211_records::RecordFile;
use s57_subfields::labels::{
    CCIX, CCNC, CCUI, FFIX, FFUI, FSIX, FSUI, NFPT, NSPT, NVPT, VPIX, VPUI,
};
use s57_subfields::{FieldFault, OneByte, RowFields, Single, TwoBytes, tags};
use std::alloc::Global;

/// A row VRPC, SGCC, FFPC or FSPC as it stands in a file's descriptor: an instruction, an index and a
/// count.
#[derive(Clone, Copy, Debug)]
pub struct ControlRow {
    pub instruction: Single<OneByte>,
    pub index: Single<TwoBytes>,
    pub count: Single<TwoBytes>,
}

impl ControlRow {
    ghost use Rattle.s57_fields.specs.Control.{vrpc_row, sgcc_row, ffpc_row, fspc_row, control_in};

    /// Finds the row VRPC in the descriptor of the file's field. It takes no memory.
    pub fn find_vrpc(descriptor: Option<&Descriptor>) -> ControlRow
        ensures { result ≡ vrpc_row (option_copied descriptor.entry) }
    {
        ControlRow {
            instruction: Single::find(descriptor, VPUI, OneByte),
            index: Single::find(descriptor, VPIX, TwoBytes),
            count: Single::find(descriptor, NVPT, TwoBytes),
        }
    }

    /// Finds the row SGCC in the descriptor of the file's field. It takes no memory.
    pub fn find_sgcc(descriptor: Option<&Descriptor>) -> ControlRow
        ensures { result ≡ sgcc_row (option_copied descriptor.entry) }
    {
        ControlRow {
            instruction: Single::find(descriptor, CCUI, OneByte),
            index: Single::find(descriptor, CCIX, TwoBytes),
            count: Single::find(descriptor, CCNC, TwoBytes),
        }
    }

    /// Finds the row FFPC in the descriptor of the file's field. It takes no memory.
    pub fn find_ffpc(descriptor: Option<&Descriptor>) -> ControlRow
        ensures { result ≡ ffpc_row (option_copied descriptor.entry) }
    {
        ControlRow {
            instruction: Single::find(descriptor, FFUI, OneByte),
            index: Single::find(descriptor, FFIX, TwoBytes),
            count: Single::find(descriptor, NFPT, TwoBytes),
        }
    }

    /// Finds the row FSPC in the descriptor of the file's field. It takes no memory.
    pub fn find_fspc(descriptor: Option<&Descriptor>) -> ControlRow
        ensures { result ≡ fspc_row (option_copied descriptor.entry) }
    {
        ControlRow {
            instruction: Single::find(descriptor, FSUI, OneByte),
            index: Single::find(descriptor, FSIX, TwoBytes),
            count: Single::find(descriptor, NSPT, TwoBytes),
        }
    }

    /// Reads a control field.
    ///
    /// # Errors
    ///
    /// The first `MissingField` or `Value` in the order of the row; `NoMemory`.
    #[tactic(auto, unfolding(crate::specs::Control::control_in))]
    pub fn read(&self, alloc: Global, values: &RowFields<'_>) -> Result<Control, FieldFault>
        ensures found { Gives result (control_in self.now values.now) }
    {
        let instruction = self.instruction.read(alloc, values)?;
        let index = self.index.read(alloc, values)?;
        let count = self.count.read(alloc, values)?;
        Ok(Control {
            instruction,
            index,
            count,
        })
    }
}

/// Reads the control of a vector record's pointers: the row VRPC of this data record, counted from 1.
///
/// # Errors
///
/// The first `MissingField` or `Value` in the order of the row; `NoMemory`.
pub fn read_vrpc(alloc: Global, file: &RecordFile, number: usize) -> Result<Control, FieldFault>
    ensures { Gives result (vrpc_at file.now number) }
{
    let row = ControlRow::find_vrpc(file.descriptors.get(&tags::VRPC));
    let values = RowFields::new(number, tags::VRPC, record_at(file, number));
    row.read(alloc, &values)
}

/// Reads the control of a vector record's coordinates: the row SGCC of this data record, counted from 1.
///
/// # Errors
///
/// The first `MissingField` or `Value` in the order of the row; `NoMemory`.
pub fn read_sgcc(alloc: Global, file: &RecordFile, number: usize) -> Result<Control, FieldFault>
    ensures { Gives result (sgcc_at file.now number) }
{
    let row = ControlRow::find_sgcc(file.descriptors.get(&tags::SGCC));
    let values = RowFields::new(number, tags::SGCC, record_at(file, number));
    row.read(alloc, &values)
}

/// Reads the control of a feature's related objects: the row FFPC of this data record, counted from 1.
///
/// # Errors
///
/// The first `MissingField` or `Value` in the order of the row; `NoMemory`.
pub fn read_ffpc(alloc: Global, file: &RecordFile, number: usize) -> Result<Control, FieldFault>
    ensures { Gives result (ffpc_at file.now number) }
{
    let row = ControlRow::find_ffpc(file.descriptors.get(&tags::FFPC));
    let values = RowFields::new(number, tags::FFPC, record_at(file, number));
    row.read(alloc, &values)
}

/// Reads the control of a feature's pointers: the row FSPC of this data record, counted from 1.
///
/// # Errors
///
/// The first `MissingField` or `Value` in the order of the row; `NoMemory`.
pub fn read_fspc(alloc: Global, file: &RecordFile, number: usize) -> Result<Control, FieldFault>
    ensures { Gives result (fspc_at file.now number) }
{
    let row = ControlRow::find_fspc(file.descriptors.get(&tags::FSPC));
    let values = RowFields::new(number, tags::FSPC, record_at(file, number));
    row.read(alloc, &values)
}
