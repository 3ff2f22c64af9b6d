//! Cells as base files (S-57 Appendix B.1), which read back as the same chart where the cell is closed; and cells and
//! updates for trials.
#![tactic(auto)]

mod write;

pub use cell_bytes::{WriteFault, make_cell, make_update};
pub use write::write_cell;
