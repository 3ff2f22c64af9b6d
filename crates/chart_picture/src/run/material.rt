//! What a picture is drawn from.

ghost use Rattle.std.specs.Prelude.{◌≡◌};
ghost use Rattle.picture_words.specs.Reading.{value_of};
ghost use Rattle.chart_picture.specs.Fetching.{IsFetched};
ghost use Rattle.chart_picture.specs.Material.{material_in};

use crate::run::cells::load_files;
use crate::run::end::End;
use crate::run::tables::{fetch_colours, fetch_table};
use crate::run::voyage::{CheckedRoute, check_any};
use chart_ports::{Shelf, Steps};
use chart_store::LiveCells;
use colour_table::ColourTable;
use lookup_table::Table;
use picture_words::PictureWords;
use std::alloc::Global;
use std::sync::ledger::Ledger;

/// What a picture is drawn from.
#[derive(Drop)]
pub struct Material {
    /// By which cells are drawn.
    pub table: Table,
    pub colours: ColourTable,
    /// The cells that are held.
    pub live: LiveCells,
    /// The route that is drawn over them, where there is one.
    pub checked: Option<CheckedRoute>,
}

/// Gathers what the words name: the table, the colours, the cells that the files leave, and the route.
pub fn gather<L: Shelf, C: Ledger>(
    alloc: Global,
    words: &PictureWords,
    shelf: &mut L,
    steps: &mut Steps<C>,
) -> Result<Material, End>
    ensures { IsFetched L.tells L.files L.faults shelf.old shelf.new result
        (λ files. material_in files (value_of words.now)) }
{
    let table = fetch_table(alloc, words, shelf)?;
    let colours = fetch_colours(alloc, words.colours.as_str(), shelf)?;
    let live = load_files(alloc, words.files.as_slice(), shelf, steps)?;
    let name = words.route.as_ref();
    let checked = check_any(alloc, name, &live, &words.settings, shelf)?;
    Ok(Material {
        table,
        colours,
        live,
        checked,
    })
}
