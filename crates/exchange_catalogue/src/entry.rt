//! What a catalogue lists.
//!
//! Of the field CATD the path and the implementation are kept, which tell a cell file from the others. The number leads
//! back to the record, where its path is refused.

use chart_model::{Octets, Sequence};

/// One file of an exchange set, as its catalogue lists it.
#[derive(Debug, Drop)]
pub struct Entry {
    /// The number of its data record in the catalogue, counted from 1.
    pub number: u32,
    /// The path of the file in the exchange set (FILE), whose parts are parted by `\` or `/`.
    pub file: Octets,
    /// Whether the file is binary, as cell files are (IMPL is `BIN`).
    pub binary: bool,
}

/// The files of an exchange set, in the order of the catalogue's data records.
pub type EntryList = Sequence<Entry>;
