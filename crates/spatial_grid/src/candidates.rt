//! Which boxes meet an area.
//!
//! A bucket says where to look, and a box whether it is met: a box may stand in a bucket that the area covers and lie
//! beside the area. One that stands in several of these buckets is found several times, so names are put in order at
//! the end.

ghost use Rattle.std.specs.Prelude.{◌≡◌, ◌↔◌, ◌+◌, ◌≤◌, OnOk, IfOk, Contains, AllPairs, length, min};
ghost use Rattle.std.specs.List.{filter};
ghost use Rattle.std.specs.declared.cmp.Ordering.TheVariants.{Less};
ghost use Rattle.std.specs.List.Sorted.{IsNonDecreasingBy};
ghost use Rattle.chart_model.specs.Names.{name_cmp};
ghost use Rattle.spatial_grid.specs.Buckets.{bucket_of, AreEntered};
ghost use Rattle.spatial_grid.specs.Looked.{looks_among, stands_between, stands_within};
ghost use Rattle.spatial_grid.specs.Met.{IsMet, IsTold, AreTold, AreToldBetween, AreToldIn};

use crate::axis::{Axis, Span};
use crate::entry::{BESIDE, Entry, between};
use chart_model::Name;
use plane_bounds::Bounds;
use std::alloc::AllocError;

/// Adds the name of the box at a place, where the box meets the area.
fn push_at(
    names: &mut Vec<Name>,
    boxes: &[(Name, Bounds)],
    area: Bounds,
    place: u32,
) -> Result<(), AllocError>
    ensures told { OnOk result (IsTold boxes.now area place names.old.items names.new.items) }
    ensures no_more { OnOk result (length names.new.items ≤ length names.old.items + 1) }
{
    let Some(boxed) = boxes.get(place as usize) else {
        return Ok(());
    };
    if boxed.1.meets(area) {
        names.push(boxed.0)?;
    }
    Ok(())
}

/// Adds the names of those boxes of entries that meet the area.
fn push_entries(
    names: &mut Vec<Name>,
    boxes: &[(Name, Bounds)],
    area: Bounds,
    entries: &[Entry],
) -> Result<(), AllocError>
    ensures told { OnOk result (AreTold boxes.now area entries.now names.old.items names.new.items) }
    ensures no_more { OnOk result (length names.new.items ≤ length names.old.items + length entries.now) }
{
    for entry in entries {
        push_at(names, boxes, area, entry.place)?;
    }
    Ok(())
}

/// Adds the names of the boxes that meet the area and stand in the buckets from one up to another. Returns how many
/// boxes it looked at.
fn push_between(
    names: &mut Vec<Name>,
    boxes: &[(Name, Bounds)],
    area: Bounds,
    entries: &[Entry],
    first: u16,
    last: u16,
) -> Result<usize, AllocError>
    requires { IsNonDecreasingBy bucket_of entries.now }
    ensures told { OnOk result
        (AreToldBetween boxes.now area entries.now first last names.old.items names.new.items) }
    ensures counted { IfOk result (λ looked_at. looked_at ≡ length (filter (stands_between first last) entries.now)) }
    ensures no_more { IfOk result (λ looked_at. length names.new.items ≤ length names.old.items + looked_at) }
{
    let those = between(entries, first, last);
    push_entries(names, boxes, area, those)?;
    Ok(those.len())
}

/// Adds the names of the boxes that meet the area and stand in some columns of some rows. Returns how many boxes it
/// looked at.
fn push_rows(
    names: &mut Vec<Name>,
    boxes: &[(Name, Bounds)],
    area: Bounds,
    entries: &[Entry],
    rows: Span,
    columns: Span,
) -> Result<usize, AllocError>
    requires { IsNonDecreasingBy bucket_of entries.now }
    ensures told { OnOk result (AreToldIn boxes.now area entries.now rows.first rows.last columns.first columns.last
        names.old.items names.new.items) }
    ensures counted { IfOk result (λ looked_at. looked_at ≡ min (length
        (filter (stands_within rows.first rows.last columns.first columns.last) entries.now)) usize.MAX) }
    ensures no_more { IfOk result (λ looked_at. length names.new.items ≤ length names.old.items + looked_at) }
{
    let mut looked_at: usize = 0;
    for row in rows.first..rows.last + 1 {
        let first = row * 64 + columns.first;
        let last = row * 64 + columns.last;
        let count = push_between(names, boxes, area, entries, first, last)?;
        looked_at = looked_at.saturating_add(count);
    }
    Ok(looked_at)
}

/// Puts the names of the boxes that meet the area in the place of others, some of them several times: of those that
/// stand in the buckets that the area covers, and of those beside the buckets. Returns how many boxes it looked at.
pub(crate) fn find_met(
    names: &mut Vec<Name>,
    boxes: &[(Name, Bounds)],
    area: Bounds,
    entries: &[Entry],
    rows: Axis,
    columns: Axis,
) -> Result<usize, AllocError>
    requires ordered { IsNonDecreasingBy bucket_of entries.now }
    requires entered { AreEntered boxes.now rows columns entries.now }
    ensures met { OnOk result ((name : Name) → Contains names.new.items name ↔ IsMet boxes.now area name) }
    ensures counted { IfOk result (λ looked_at. looked_at ≡ min (looks_among entries.now rows columns area) usize.MAX) }
    ensures no_more { IfOk result (λ looked_at. length names.new.items ≤ looked_at) }
{
    names.clear();
    let beside = push_between(names, boxes, area, entries, BESIDE, BESIDE)?;
    let rows = rows.span(area.y0, area.y1);
    let columns = columns.span(area.x0, area.x1);
    let within = push_rows(names, boxes, area, entries, rows, columns)?;
    Ok(beside.saturating_add(within))
}

/// Puts the names in order, each once. It takes no memory.
pub(crate) fn keep_each_once(names: &mut Vec<Name>)
    ensures same { (name : Name) → Contains names.new.items name ↔ Contains names.old.items name }
    ensures ordered { AllPairs (λ x y. name_cmp x y ≡ Less) names.new.items }
    ensures no_more { length names.new.items ≤ length names.old.items }
{
    names.sort_unstable();
    names.dedup();
}
