//! Descriptors of fields: which subfields a field has, and how each is spelled.
//!
//! A file of ISO/IEC 8211 describes its own fields, in its first record. Without the descriptor of a field nobody can
//! tell where one of its values ends and the next begins.
#![tactic(auto)]

mod descriptor;
mod fault;
mod field;
mod format;
mod format_controls;
mod labels;
#[cfg(test)]
mod tests;
mod text;

pub use descriptor::{Descriptor, LabelList};
pub use fault::DescriptorFault;
pub use field::{one_descriptor, read_descriptor, reading_is_spelling};
pub use format::{Format, FormatList};
