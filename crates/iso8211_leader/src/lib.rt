//! Leaders and directory entries of ISO/IEC 8211 records.
//!
//! A record begins with a leader of 24 bytes. Its directory follows, an entry for each field, and the
//! leader says how wide the numbers of an entry are and where the directory ends.
#![tactic(auto)]

mod digits;
mod entry;
mod fault;
mod leader;
mod reading;

pub use entry::Entry;
pub use fault::FrameFault;
pub use leader::Leader;
pub use reading::{read_entry, read_leader};
