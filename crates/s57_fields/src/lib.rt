//! The fields of S-57, read by the labels of their subfields: one module for each row, or for the
//! rows that differ in little.
//!
//! A file describes its own fields: in which order their subfields stand, and which of them repeat. So
//! a row of the standard's table is first found in the file's descriptor, once a file, and then read
//! from each record.
#![tactic(auto)]

mod attributes;
mod bounds;
mod control;
mod coordinates;
mod dsid;
mod dspm;
mod dssi;
mod faults;
mod ffpt;
mod file;
mod foid;
mod frid;
mod laws;
mod pointers;
mod ruin;
mod vrid;

pub use attributes::{AttributeRow, read_attf, read_attv};
pub use control::{ControlRow, read_ffpc, read_fspc, read_sgcc, read_vrpc};
pub use coordinates::{CoordinateRow, read_sg2d, read_sg3d};
pub use dsid::{Dsid, DsidRow, read_dsid};
pub use dspm::{Dspm, DspmRow, read_dspm};
pub use dssi::{Dssi, DssiRow, read_dssi};
pub use ffpt::{RelatedRow, read_ffpt};
pub use foid::{FoidRow, read_foid};
pub use frid::{Frid, FridRow, read_frid};
pub use laws::{faults_are_the_first, items_are_groups};
pub use pointers::{PointerRow, read_fspt, read_vrpt};
pub use vrid::{Vrid, VridRow, read_vrid};
