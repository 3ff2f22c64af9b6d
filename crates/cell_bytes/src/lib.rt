//! Cells as bytes: a cell is written as a base file (S-57 Appendix B.1), whose bytes are a file of records with the
//! cell's values (ISO/IEC 8211); and cells and updates for trials.
//!
//! It stands on no reader of S-57's fields, so its definitions say what is written without saying how it is read.
//! `cell_writer`, which stands on both, has that a closed chart reads back as the same chart.
#![tactic(auto)]

mod data_set;
mod descriptive;
mod draft;
mod fault;
mod fields;
mod file;
mod generator;
mod laws;
mod lists;
mod records;
mod subfields;
mod update;
mod write;

pub use fault::WriteFault;
pub use generator::make_cell;
pub use laws::{
    fields_are_spelled, files_are_read, records_are_read, the_descriptive_record_is_read,
    values_are_spelled,
};
pub use update::{make_update, modified_count};
pub use write::spell_cell;
