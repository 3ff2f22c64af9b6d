//! The line `cells`.
//!
//! A cell that is cancelled is listed with the numbers that are held of it, since they say which base file it takes
//! next. It has no chart to count, so the word `cancelled` stands in the place of the number of records.

ghost use Rattle.std.specs.Prelude.{◌≡◌, ◌++◌, ◌∷◌, pos, IfOk, OnOk};
ghost use Rattle.session_lists.specs.Cells.{records_of, chart_word, cell_line, cell_lines, cells_reply};

use chart_model::{Cell, Holding, HoldingMap, Key, Octets};
use script_reader::{Reply, end_line, push_number, push_word};
use std::alloc::{AllocError, Global};
use text_scan::write_number;

/// The number of the chart's vector and feature records.
fn records_of(chart: &Cell) -> i128
    ensures { result ≡ pos (records_of chart.now) }
{
    chart.vectors.len() as i128 + chart.features.len() as i128
}

/// Adds behind a space the number of the chart's records, or that there is no chart.
fn push_chart(alloc: Global, line: &mut Octets, chart: &Option<Cell>) -> Result<(), AllocError>
    ensures { OnOk result (line.new ≡ line.old ++ 32 ∷ chart_word chart.now) }
{
    match chart {
        Some(chart) => {
            line.extend_from_slice(b" ")?;
            write_number(alloc, line, records_of(chart))
        }
        None => push_word(line, b"cancelled"),
    }
}

/// Adds the line of a cell.
fn push_cell(
    alloc: Global,
    lines: &mut Octets,
    key: &Key,
    holding: &Holding,
) -> Result<(), AllocError>
    ensures { OnOk result (lines.new ≡ lines.old ++ cell_line key.now holding.now) }
{
    lines.extend_from_slice(b"cell")?;
    push_word(lines, key.as_slice())?;
    push_number(alloc, lines, holding.held.edition as u64)?;
    push_number(alloc, lines, holding.held.update as u64)?;
    push_number(alloc, lines, holding.files.as_slice().len() as u64)?;
    push_chart(alloc, lines, &holding.chart)?;
    end_line(lines)
}

/// A line for each cell that is held, in the order of their keys.
fn list(alloc: Global, cells: &HoldingMap) -> Result<Octets, AllocError>
    ensures { IfOk result (λ lines. lines ≡ cell_lines cells.now) }
{
    let mut lines = Octets::from_vec(Vec::new(alloc));
    for (key, holding) in cells.iter() {
        push_cell(alloc, &mut lines, key, holding)?;
    }
    Ok(lines)
}

/// The reply of `cells`: the number of the cells that are held, and a line for each, in the order of their keys.
pub fn cells_reply(alloc: Global, cells: &HoldingMap) -> Result<Reply, AllocError>
    ensures { IfOk result (λ reply. reply ≡ cells_reply cells.now) }
{
    let lines = list(alloc, cells)?;
    Ok(Reply::Cells(cells.len() as u64, lines))
}
