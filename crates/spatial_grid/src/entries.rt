//! How boxes are put into buckets.
//!
//! A box that covers more than 64 buckets stands beside them all, where every question looks. So a grid has at most 64
//! entries for each box, however large the features of a chart are.

ghost use Rattle.std.specs.Prelude.{◌≤◌, ◌<◌, OnOk, IfOk, Contains};
ghost use Rattle.std.specs.List.Sorted.{IsNonDecreasingBy};
ghost use Rattle.spatial_grid.specs.Buckets.{bucket_of, Keeps};
ghost use Rattle.spatial_grid.specs.Buckets.{AreEntered, IsEntered, IsEnteredAt, StandsAcross, StandsIn};

use crate::axis::{Axis, Span};
use crate::entry::{BESIDE, Entry, in_order};
use chart_model::Name;
use plane_bounds::Bounds;
use std::alloc::{AllocError, Global};

/// The most buckets in which a box stands.
const MOST_ENTRIES: u16 = 64;

/// Adds an entry for each bucket of a part of a row.
fn push_row(entries: &mut Vec<Entry>, place: u32, row: u16, columns: Span) -> Result<(), AllocError>
    requires { row < 64 }
    ensures kept { OnOk result (Keeps entries.old.items entries.new.items) }
    ensures there { OnOk result (StandsAcross place row columns.first columns.last entries.new.items) }
{
    for column in columns.first..columns.last + 1 {
        entries.push(Entry {
            bucket: row * 64 + column,
            place,
        })?;
    }
    Ok(())
}

/// Adds an entry for each bucket of some columns in some rows.
fn push_rows(
    entries: &mut Vec<Entry>,
    place: u32,
    rows: Span,
    columns: Span,
) -> Result<(), AllocError>
    ensures kept { OnOk result (Keeps entries.old.items entries.new.items) }
    ensures there { OnOk result
        (StandsIn place rows.first rows.last columns.first columns.last entries.new.items) }
{
    for row in rows.first..rows.last + 1 {
        push_row(entries, place, row, columns)?;
    }
    Ok(())
}

/// Adds the entries of a box: one for each bucket that it covers, or one alone beside them.
fn push_box(
    entries: &mut Vec<Entry>,
    place: u32,
    rows: Span,
    columns: Span,
) -> Result<(), AllocError>
    ensures kept { OnOk result (Keeps entries.old.items entries.new.items) }
    ensures entered { OnOk result
        (IsEntered place rows.first rows.last columns.first columns.last entries.new.items) }
{
    if rows.count() * columns.count() > MOST_ENTRIES {
        entries.push(Entry {
            bucket: BESIDE,
            place,
        })?;
        return Ok(());
    }
    push_rows(entries, place, rows, columns)?;
    Ok(())
}

/// Adds the entries of the box at a place. A place that doesn't fit is want of memory: there are fewer names.
fn push_at(
    entries: &mut Vec<Entry>,
    boxes: &[(Name, Bounds)],
    place: usize,
    rows: Axis,
    columns: Axis,
) -> Result<(), AllocError>
    ensures kept { OnOk result (Keeps entries.old.items entries.new.items) }
    ensures entered { OnOk result (IsEnteredAt boxes.now rows columns place entries.new.items) }
{
    let Some(boxed) = boxes.get(place) else {
        return Ok(());
    };
    let Ok(number) = u32::try_from(place) else {
        return Err(AllocError);
    };
    let bounds = boxed.1;
    let rows = rows.span(bounds.y0, bounds.y1);
    let columns = columns.span(bounds.x0, bounds.x1);
    push_box(entries, number, rows, columns)?;
    Ok(())
}

/// The entries of boxes, in the order of their buckets.
pub(crate) fn entries_of(
    alloc: Global,
    boxes: &[(Name, Bounds)],
    rows: Axis,
    columns: Axis,
) -> Result<Vec<Entry>, AllocError>
    ensures ordered { IfOk result (λ entries. IsNonDecreasingBy bucket_of entries.items) }
    ensures entered { IfOk result (λ entries. AreEntered boxes.now rows columns entries.items) }
{
    let mut entries = Vec::new(alloc);
    for place in 0..boxes.len() {
        push_at(&mut entries, boxes, place, rows, columns)?;
    }
    let entries = in_order(entries)?;
    Ok(entries)
}
