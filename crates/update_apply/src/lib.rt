//! One change of a record, made to a cell (S-57 Part 3, section 8).
//!
//! A base file is a list of insertions, so cells are built and updated by the same rules. A change that doesn't fit
//! leaves its cell as it was.
#![tactic(auto)]

mod apply;
mod edit;
mod fault;
mod judge;
mod laws;
mod moves;
mod record;

pub use apply::{apply_record, judge_change, make_change};
pub use fault::ChangeFault;
pub use laws::{cells_are_kept, headers_are_kept, one_cell_follows};
pub use moves::Moves;
pub use record::copy_of;
