//! Each cell file once: by the first entry that lists its path.
//!
//! A catalogue may list a path many times over, so they are kept in a map.

ghost use Rattle.std.specs.Prelude.{◌≡◌, List, ℕ, ◌∷◌, [], IfOk, OnOk, map};
ghost use Rattle.std.specs.BTreeMap.{get, IsOrdered};
ghost use Rattle.std.specs.Option.{option_or};
ghost use Rattle.chart_model.specs.Keys.{key_cmp};
ghost use Rattle.exchange_catalogue.specs.Answers.{GivesOrderBy};
ghost use Rattle.exchange_catalogue.specs.Firsts.{first_rank, paths_check, file_of, AreFirst};

use crate::bytes::Bytes;
use crate::cell_file::{CellFile, Rank, cell_file};
use crate::entry::Entry;
use crate::fault::OrderFault;
use crate::path::is_bad_path;
use std::alloc::{AllocError, Global};
use std::collections::BTreeMap;

/// Puts the cell file that an entry lists, where it lists one, among those of the entries before it, unless its path is
/// there.
fn note_entry(
    alloc: Global,
    files: &mut BTreeMap<Bytes, Rank>,
    entry: &Entry,
    place: usize,
) -> Result<(), OrderFault>
    ensures noted { OnOk result ((path : List ℕ) → get key_cmp files.new path
        ≡ option_or (get key_cmp files.old path) (first_rank place (entry.now ∷ []) path)) }
    ensures fault { GivesOrderBy (λ _. tt) result (paths_check (entry.now ∷ [])) }
{
    let Some(file) = cell_file(alloc, entry, place)? else {
        return Ok(());
    };
    if is_bad_path(file.path.as_slice()) {
        return Err(OrderFault::BadPath(entry.number));
    }
    if !files.contains_key(&file.path) {
        files.insert(file.path, file.rank)?;
    }
    Ok(())
}

/// The ranks of the cell files that entries list, by their paths: of each path the rank of its first entry.
fn first_ranks(alloc: Global, entries: &[Entry]) -> Result<BTreeMap<Bytes, Rank>, OrderFault>
    ensures ranks { IfOk result (λ files. (path : List ℕ) →
        get key_cmp files path ≡ first_rank 0 entries.now path) }
    ensures fault { GivesOrderBy (λ _. tt) result (paths_check entries.now) }
{
    let mut files = BTreeMap::new(alloc);
    for (place, entry) in entries.iter().enumerate() {
        note_entry(alloc, &mut files, entry, place)?;
    }
    Ok(files)
}

/// The files of paths and their ranks.
fn files_of(alloc: Global, ranks: BTreeMap<Bytes, Rank>) -> Result<Vec<CellFile>, AllocError>
    ensures files { IfOk result (λ files. files.items ≡ map file_of ranks.entries) }
    ensures ordered { IsOrdered key_cmp ranks }
{
    let mut files: Vec<CellFile> = Vec::new(alloc);
    for (path, rank) in ranks {
        files.push(CellFile { rank, path })?;
    }
    Ok(files)
}

/// The cell files that entries list, each once, in the order of their paths.
pub(crate) fn first_files(alloc: Global, entries: &[Entry]) -> Result<Vec<CellFile>, OrderFault>
    ensures files { IfOk result (λ files. AreFirst entries.now files.items) }
    ensures fault { GivesOrderBy (λ _. tt) result (paths_check entries.now) }
{
    let ranks = first_ranks(alloc, entries)?;
    Ok(files_of(alloc, ranks)?)
}
