//! The object catalogue: the codes and acronyms of object classes and attributes.
//!
//! A catalogue is a file of lines (`text_lines`). A line that says something is `O CODE ACRONYM` for an object class or
//! `A CODE ACRONYM` for an attribute, three words parted by single spaces. CODE is a number from 1 to 65,535 in up to
//! 18 digits; ACRONYM is six bytes of `A` to `Z`, `0` to `9` and `_`.
//!
//! Any other line is bad. So is each line behind the 10,000th, whatever it holds. No code and no acronym stands twice
//! among the classes, nor among the attributes. The first line with a fault is answered.
#![tactic(auto)]

mod acronym;
mod catalogue;
mod code_list;
mod entry;
mod fault;
mod laws;
mod read;

pub use acronym::{Acronym, read_acronym};
pub use catalogue::Catalogue;
pub use entry::{Entry, Kind};
pub use fault::CatalogueFault;
pub use laws::catalogues_are_read;
pub use read::read_objects;
