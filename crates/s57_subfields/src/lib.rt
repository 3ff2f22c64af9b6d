//! The subfields of S-57's fields: where they stand in a file's descriptors, and what they are read as.
//!
//! A file describes its own fields: in which order their subfields stand, and which of them repeat. So
//! a subfield is found by its label in the descriptor of its field, once a file, and then read from each
//! record.
#![tactic(auto)]

mod column;
mod fault;
mod group;
mod kind;
pub mod labels;
mod laws;
mod name;
mod number;
mod row_fields;
mod signed;
mod single;
mod subfield;
pub mod tags;
mod text;

pub use fault::FieldFault;
pub use group::{Group, Groups};
pub use kind::Kind;
pub use laws::{groups_are_whole, labels_are_spelled, tags_are_spelled};
pub use name::{ObjectName, RecordName};
pub use number::{FourBytes, OneByte, TwoBytes};
pub use row_fields::RowFields;
pub use signed::{Depth, Within};
pub use single::Single;
pub use subfield::{Place, Subfield};
pub use text::{DataSetName, EightBytes, NineDigits, PlainText, key_in, key_of};
