//! Data sets of S-57: what the records of a cell file say.
//!
//! The first record has the general information. Each vector record and each feature after it is a
//! change, in the order of the file. The fields and subfields of a record are looked at in the order
//! of the standard's tables, and the first fault is the answer.
#![tactic(auto)]

mod change;
mod dataset;
mod fault;
mod feature;
mod general;
mod laws;
mod reader;
mod rows;
mod vector;

pub use dataset::read_dataset;
pub use fault::DatasetFault;
pub use laws::{base_records_insert, changes_are_kept, data_sets_are_kept};
