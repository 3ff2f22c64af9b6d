//! What is held of one cell.
//!
//! A cell that is not held has no numbers, no chart and no files, and is asked in the same way.

ghost use Rattle.std.specs.Prelude.{◌≡◌, IfOk, IsSome, IsOk, OnOk, OnErr};
ghost use Rattle.std.specs.Option.{option_copied};
ghost use Rattle.std.specs.FinMap as map;
ghost use Rattle.chart_store.specs.Loaded.{files_of, files_after};
ghost use Rattle.chart_store.specs.Next.{cells_with};
ghost use Rattle.chart_store.specs.Loaded.{held_of, chart_of};

use chart_model::{Cell, FileList, Held, Holding, HoldingMap, Key, Octets, Shared};
use std::alloc::{AllocError, Global};
use update_sequence::Effect;

/// The numbers of a cell.
pub(crate) fn held_of(before: Option<&Holding>) -> Option<&Held>
    ensures { option_copied result ≡ held_of (option_copied before.entry) }
{
    match before {
        Some(here) => Some(&here.held),
        None => None,
    }
}

/// The chart of a cell, unless it is cancelled.
pub(crate) fn chart_of(before: Option<&Holding>) -> Option<&Cell>
    ensures { option_copied result ≡ chart_of (option_copied before.entry) }
{
    match before {
        Some(here) => here.chart.as_ref(),
        None => None,
    }
}

/// The live files once a file is taken over: a base file stands alone, any other follows those before it, whose bytes
/// are shared.
pub(crate) fn files_after(
    alloc: Global,
    before: Option<&Holding>,
    effect: Effect,
    file: Octets,
) -> Result<FileList, AllocError>
    ensures { IfOk result (λ files. files ≡ files_after (files_of (option_copied before.entry)) effect file) }
{
    let file = Shared::of(alloc, file)?;
    let mut files = match (before, effect) {
        (Some(here), Effect::Extend | Effect::Cancel) => here.files.clone()?,
        _ => FileList::new(alloc),
    };
    files.push(file)?;
    Ok(files)
}

/// Puts a cell in place of what is held of it, or takes it away, and gives what was held. It takes memory only where
/// the cell is a new one; where there is none nothing changes.
pub(crate) fn set_in(
    cells: &mut HoldingMap,
    key: Key,
    holding: Option<Holding>,
) -> Result<Option<Holding>, AllocError>
    ensures ok { OnOk result (cells.new ≡ cells_with cells.old key holding) }
    ensures before { IfOk result (λ before. before ≡ map.get cells.old key) }
    ensures err { OnErr result (cells.new ≡ cells.old) }
    ensures free { IsSome (map.get cells.old key) → IsOk result }
{
    let Some(mut holding) = holding else {
        return Ok(cells.remove(key));
    };
    if cells.contains(key) {
        cells.swap(key, &mut holding);
        return Ok(Some(holding));
    }
    cells.insert(key, holding)?;
    Ok(None)
}
