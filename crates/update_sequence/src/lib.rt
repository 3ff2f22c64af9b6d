//! Sequences of cell files: what may follow what is held, and the chart that a list of files builds.
//!
//! A base file replaces what is held of its cell. An update extends it, where its numbers follow the
//! held ones, and an update of edition 0 cancels the cell. The chart is the changes of the files, one
//! after the other, and it is taken only where it is closed.
#![tactic(auto)]

mod chart;
mod draft;
mod effect;
mod extension;
mod fault;
mod files;
mod info;
mod laws;
mod local;
mod read;

pub use chart::build;
pub use draft::Draft;
pub use effect::{Effect, judge};
pub use fault::{BuildFault, ReadFault, SequenceFault};
pub use files::rebuild;
pub use info::{FileInfo, read_info};
pub use laws::{
    accepted_files_follow, changes_are_made_in_turn, charts_are_cells, charts_are_closed,
    drafts_advance, drafts_build_charts, files_are_data_sets, headers_follow, named_records_differ,
    one_file_more, other_records_stay, sequences_are_held, sequences_are_tested, sequences_grow,
};
pub use read::read_data_set;
