//! The cell files that a catalogue lists.
//!
//! A catalogue lists other files too: a cell file is one that is binary and has a cell file's name. Two folders may
//! have a file of one name, so the place in the catalogue is part of what a file is loaded by.

ghost use Rattle.std.specs.Prelude.{◌≡◌, IfOk, option_map};
ghost use Rattle.exchange_catalogue.specs.Paths.{cell_path_of};
ghost use Rattle.exchange_catalogue.specs.Firsts.{file_at};

use crate::bytes::Bytes;
use crate::cell_name::read_cell_name;
use crate::entry::Entry;
use crate::path::{name_of, read_path};
use std::alloc::{AllocError, Global};

/// What a cell file is loaded by, in the order of the fields.
#[derive(PartialEq, Eq, PartialOrd, Ord, Drop)]
pub(crate) struct Rank {
    /// The bytes of its name before the last dot.
    pub(crate) stem: Bytes,
    /// The number of the three digits behind it.
    pub(crate) number: u64,
    /// How many entries of the catalogue stand before it.
    pub(crate) place: usize,
}

/// A cell file. Files are loaded by their ranks, no two of which are the same.
#[derive(PartialEq, Eq, PartialOrd, Ord, Drop)]
pub(crate) struct CellFile {
    pub(crate) rank: Rank,
    pub(crate) path: Bytes,
}

/// The cell file that an entry lists, with so many entries before it, where the entry lists one.
#[tactic(auto, unfolding(crate::specs::Orders::stem_of, crate::specs::Orders::number_of))]
pub(crate) fn cell_file(
    alloc: Global,
    entry: &Entry,
    place: usize,
) -> Result<Option<CellFile>, AllocError>
    ensures { IfOk result (λ file. file ≡ option_map (file_at place) (cell_path_of entry.now)) }
{
    if !entry.binary {
        return Ok(None);
    }
    let path = Bytes::new(read_path(alloc, entry.file.as_slice())?);
    let Some(name) = read_cell_name(name_of(path.as_slice())) else {
        return Ok(None);
    };
    let rank = Rank {
        stem: Bytes::from_slice(alloc, name.stem)?,
        number: name.number,
        place,
    };
    Ok(Some(CellFile { rank, path }))
}
