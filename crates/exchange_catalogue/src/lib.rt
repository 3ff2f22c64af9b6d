//! The catalogue of an exchange set, and the order in which its cell files are loaded.
//!
//! An exchange set is a folder with a file CATALOG.031, a file of records (ISO/IEC 8211) whose field CATD names the
//! files of the set (S-57 Part 3). The cell files among them are told by their names, and a base file has to be loaded
//! before its updates, in the updates' order (S-57 Appendix B.1).
#![tactic(auto)]

mod bytes;
mod cell_file;
mod cell_name;
mod entry;
mod fault;
mod firsts;
mod kinds;
mod laws;
mod order;
mod path;
mod read;
mod row;

pub use entry::{Entry, EntryList};
pub use fault::{CatalogueFault, OrderFault};
pub use laws::{cell_names_are_spelled, load_orders_are_one};
pub use order::{PathList, load_order};
pub use read::read_catalogue;
