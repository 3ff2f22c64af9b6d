//! Two banks and a head that names the current one, so that a store's journal ends where a checkpoint was saved.
//!
//! The head is one byte: its lowest bit is 0 where bank 1 is the current one, and 1 for bank 2; an empty head names
//! bank 1. Records are appended to the current bank. A save writes a checkpoint into the other one, slice by slice,
//! while records may be appended; then it copies what was appended since, brings the other bank to the disk, and turns
//! the head. Until the head's byte is written nothing of a save touches the head or the current bank, and when it is,
//! both banks are on the disk: so no crash leaves a bank that is half written as the current one.
#![tactic(auto)]

mod append;
mod copying;
mod fault;
mod flip;
mod opening;
mod pair;
mod saving;
mod slices;

pub use fault::SaveFault;
pub use opening::open_pair;
pub use pair::Pair;
