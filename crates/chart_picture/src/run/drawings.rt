//! The charts that are held, with their drawings.

ghost use Rattle.std.specs.Prelude.{◌≡◌, map, IfOk};
ghost use Rattle.draw_list.specs.Drawing.{drawing_of};
ghost use Rattle.chart_picture.specs.Charts.{value_of_chart, charts_in};

use chart_model::{Cell, HoldingMap, Settings};
use chart_ports::Steps;
use chart_svg::Chart;
use draw_list::{DrawList, draw_cell};
use lookup_table::Table;
use std::alloc::{AllocError, Global};
use std::sync::ledger::Ledger;
use topology_cache::users_of;

/// The drawing of a cell.
fn drawing_of<C: Ledger>(
    alloc: Global,
    cell: &Cell,
    table: &Table,
    settings: &Settings,
    steps: &mut Steps<C>,
) -> Result<DrawList, AllocError>
    ensures { IfOk result (λ drawing. drawing ≡ drawing_of cell.now table.now settings.now) }
{
    let users = users_of(alloc, cell, steps)?;
    draw_cell(alloc, cell, &users, table, settings)
}

/// The charts that are held with their drawings, in the order of their keys.
pub fn drawn_charts<'a, C: Ledger>(
    alloc: Global,
    cells: &'a HoldingMap,
    table: &Table,
    settings: &Settings,
    steps: &mut Steps<C>,
) -> Result<Vec<Chart<'a>>, AllocError>
    ensures { IfOk result (λ charts.
        map value_of_chart charts.items ≡ charts_in table.now settings.now cells.now) }
{
    let mut charts = Vec::new(alloc);
    for (key, holding) in cells.iter() {
        if let Some(cell) = holding.chart.as_ref() {
            let drawing = drawing_of(alloc, cell, table, settings, steps)?;
            charts.push(Chart {
                key: *key,
                cell,
                drawing,
            })?;
        }
    }
    Ok(charts)
}
