//! The order in which the cell files of a catalogue are loaded.
//!
//! A catalogue may list updates in any order, and a path several times, while each update is to be applied behind the
//! one before it. So the files are sorted by the names and numbers that their names spell, and each path is loaded
//! once.

ghost use Rattle.std.specs.Prelude.{◌≡◌, IfOk, map};
ghost use Rattle.exchange_catalogue.specs.Answers.{GivesOrder, GivesOrderBy};
ghost use Rattle.exchange_catalogue.specs.Orders.{IsLoadOrder, load_order_in};
ghost use Rattle.exchange_catalogue.specs.Firsts.{paths_check};

use crate::cell_file::CellFile;
use crate::entry::{Entry, EntryList};
use crate::fault::OrderFault;
use crate::firsts::first_files;
use chart_model::{Octets, Sequence};
use std::alloc::{AllocError, Global};

/// The most cell files that are loaded of one catalogue.
const MOST_FILES: usize = 1_000;

/// The paths of cell files below the folder of their catalogue, in the order in which they are loaded.
pub type PathList = Sequence<Octets>;

/// The cell files that entries list, each once and in their order.
fn files_in_order(alloc: Global, entries: &[Entry]) -> Result<Vec<CellFile>, OrderFault>
    ensures order { IfOk result (λ files. IsLoadOrder entries.now (map (λ file. file.path) files.items)) }
    ensures fault { GivesOrderBy (λ _. tt) result (paths_check entries.now) }
{
    let mut files = first_files(alloc, entries)?;
    files.sort()?;
    Ok(files)
}

/// The paths of files.
fn paths_of(alloc: Global, files: Vec<CellFile>) -> Result<PathList, AllocError>
    ensures { IfOk result (λ paths. paths ≡ map (λ file. file.path) files.items) }
{
    let mut paths: Vec<Octets> = Vec::new(alloc);
    for file in files {
        paths.push(file.path.into_octets())?;
    }
    Ok(PathList::from_vec(paths))
}

/// The load order of what a catalogue lists: the path of each cell file once, by its name before the last dot, then by
/// the number behind it, so that a base file comes before its updates, and then by the place of the first entry that
/// lists it.
///
/// # Errors
///
/// The first `BadPath` by record, or else `Many` or `Empty`; `NoMemory`.
#[tactic(auto, unfolding(crate::specs::Orders::load_order_in))]
pub fn load_order(alloc: Global, entries: &EntryList) -> Result<PathList, OrderFault>
    // The paths of exactly the cell files, in a strict order, so each once.
    ensures order { IfOk result (IsLoadOrder entries.now) }
    ensures exact { GivesOrder result (load_order_in entries.now) }
{
    let files = files_in_order(alloc, entries.as_slice())?;
    let count = files.len();
    if count > MOST_FILES {
        return Err(OrderFault::Many(count));
    }
    if count == 0 {
        return Err(OrderFault::Empty);
    }
    Ok(paths_of(alloc, files)?)
}
