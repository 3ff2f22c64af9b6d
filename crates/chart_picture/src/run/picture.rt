//! The picture, drawn.

ghost use Rattle.std.specs.Prelude.{◌≡◌, ◌≤◌, option_map, IfOk};
ghost use Rattle.std.specs.Option.{option_copied};
ghost use Rattle.picture_words.specs.Reading.{value_of};
ghost use Rattle.chart_picture.specs.Material.{IsDrawn, IsViewOf};
ghost use Rattle.chart_picture.specs.Picture.{IsLook, IsPicture, value_of_checked, value_of_voyage};
ghost use Rattle.picture_words.specs.View.{value_of_view};

use crate::run::drawings::drawn_charts;
use crate::run::extent::whole_view;
use crate::run::material::Material;
use crate::run::voyage::CheckedRoute;
use chart_model::{HoldingMap, Octets, Settings};
use chart_ports::Steps;
use chart_store::LiveCells;
use chart_svg::{Look, View, Voyage, elements_of, print_document};
use chart_symbols::symbols;
use colour_table::{ColourTable, colours_by_token};
use lookup_table::Table;
use picture_words::PictureWords;
use std::alloc::{AllocError, Global};
use std::sync::ledger::Ledger;

/// What is drawn with, in these colours.
fn look_of(alloc: Global, colours: &ColourTable) -> Result<Look, AllocError>
    ensures { IfOk result (IsLook colours.now) }
{
    let colours = colours.as_slice();
    Ok(Look {
        colours: colours_by_token(alloc, colours)?,
        symbols: symbols(alloc, colours)?,
    })
}

/// A route with its dangers, as it is drawn.
fn voyage_of<'a>(checked: Option<&'a CheckedRoute>) -> Option<Voyage<'a>>
    ensures { option_map value_of_voyage result
        ≡ option_map value_of_checked (option_copied checked.entry) }
{
    match checked {
        Some(checked) => Some(Voyage {
            route: &checked.route,
            dangers: &checked.dangers,
        }),
        None => None,
    }
}

/// The picture of all charts that are held, with a route and its dangers over them.
fn document_of<C: Ledger>(
    alloc: Global,
    live: &LiveCells,
    table: &Table,
    settings: &Settings,
    look: &Look,
    view: &View,
    checked: Option<&CheckedRoute>,
    steps: &mut Steps<C>,
) -> Result<Octets, AllocError>
    ensures { IfOk result
        (IsPicture view.now look.now table.now settings.now live.now (option_copied checked.entry)) }
{
    let charts = drawn_charts(alloc, live.cells(), table, settings, steps)?;
    let voyage = voyage_of(checked);
    let elements = elements_of(alloc, view, look, &charts, voyage.as_ref())?;
    print_document(alloc, view, &elements)
}

/// The view that the words name, or that of all that there is.
fn view_of(words: &PictureWords, cells: &HoldingMap) -> View
    requires { 1 ≤ words.now.width }
    ensures { IsViewOf (option_map value_of_view words.now.view) cells.now words.now.width result }
{
    match words.view {
        Some(view) => view,
        None => whole_view(cells, words.width),
    }
}

/// The document that the words ask for, of what it is drawn from.
pub fn draw<C: Ledger>(
    alloc: Global,
    words: &PictureWords,
    material: &Material,
    steps: &mut Steps<C>,
) -> Result<Octets, AllocError>
    requires { 1 ≤ words.now.width }
    ensures { IfOk result (IsDrawn (value_of words.now) material.now) }
{
    let look = look_of(alloc, &material.colours)?;
    let view = view_of(words, material.live.cells());
    document_of(
        alloc,
        &material.live,
        &material.table,
        &words.settings,
        &look,
        &view,
        material.checked.as_ref(),
        steps,
    )
}
