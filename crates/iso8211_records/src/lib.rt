//! Files of ISO/IEC 8211 records.
//!
//! A file is a data descriptive record, which says how fields are spelled, and then data records.
#![tactic(auto)]

mod budget;
mod data;
mod descriptive;
mod descriptors;
mod draft;
mod fault;
mod file;
mod frame;
mod laws;
mod part;
mod record;
mod value;
mod values;
mod wanted;

pub use descriptors::DescriptorMap;
pub use fault::FileFault;
pub use file::read_file;
pub use laws::{faults_each, never_both, one_fault, one_reading, reads_each};
pub use part::Part;
pub use record::{RawField, RawList, RawRecord, RecordFile};
pub use value::{Value, ValueList};
