//! What is drawn of one feature.
//!
//! A block goes by the cell, the table, the settings and its feature alone, so it can be asked for without the rest of
//! the drawing.

ghost use Rattle.std.specs.Prelude.{◌≡◌, ◌↔◌, IfOk, IsSome};
ghost use Rattle.std.specs.Option.{option_copied};
ghost use Rattle.draw_list.specs.Block.{IsShown, block_at, block_in, block_with};
ghost use Rattle.draw_list.specs.Block.{line_for, geom_of, is_hidden, unknown_items};
ghost use Rattle.draw_list.specs.Known.{AreKnown};
ghost use Rattle.topology_cache.specs.Users.{AreUsersOf};

use crate::items::{Known, items_of};
use crate::sources::Sources;
use chart_model::codes::{AREA, LINE, POINT};
use chart_model::{AttrMap, Block, Cell, Feature, Geom, ItemList, Name, Settings, Target};
use draw_items::push_item;
use lookup_table::{Table, TableLine};
use std::alloc::{AllocError, Global};
use text_scan::{numbers_are_spelled, read_number};
use topology_cache::Users;

/// The code of the attribute SCAMIN: the smallest scale at which a feature is shown, by its denominator (S-57
/// Appendix A).
const SCAMIN: u16 = 133;

/// The priority of a feature for which the table has no line.
const UNKNOWN_PRIORITY: u8 = 5;

/// What is drawn of a feature for which the table has no line.
const UNKNOWN_SYMBOL: &[u8] = b"SY(QUESMRK1)";

/// The geometry of a primitive (S-57 Part 3, PRIM).
fn geom_of(prim: u8) -> Option<Geom>
    ensures { result ≡ geom_of prim }
{
    match prim {
        POINT => Some(Geom::Point),
        LINE => Some(Geom::Line),
        AREA => Some(Geom::Area),
        _ => None,
    }
}

/// Whether a feature is hidden at a display scale: its SCAMIN is a number below the scale's denominator.
fn is_hidden(attrs: &AttrMap, scale: u32) -> bool
    ensures { result ≡ is_hidden attrs.now scale }
{
    let Some(text) = attrs.get(SCAMIN) else {
        return false;
    };
    match read_number(text.as_slice()) {
        Some(scamin) => scamin < u64::from(scale),
        None => false,
    }
}

/// What is drawn of a feature for which the table has no line.
fn unknown_items(alloc: Global) -> Result<ItemList, AllocError>
    ensures { IfOk result (λ items. items ≡ unknown_items) }
{
    let mut items = ItemList::new(alloc);
    push_item(alloc, &mut items, Target::Whole, UNKNOWN_SYMBOL)?;
    Ok(items)
}

/// The block of a feature of a geometry, by the table's line for it.
fn block_with(
    alloc: Global,
    known: &mut Known,
    from: &Sources,
    feature: &Feature,
    geom: Geom,
    line: Option<&TableLine>,
) -> Result<Block, AllocError>
    requires { AreKnown from.now.cell.now from.now.settings.now known.old }
    ensures block { IfOk result (λ block. block
        ≡ block_with from.now.cell.now from.now.settings.now feature.now geom (option_copied line.entry)) }
    ensures known { AreKnown from.now.cell.now from.now.settings.now known.new }
{
    match line {
        Some(line) => Ok(Block {
            priority: line.priority,
            geom,
            items: items_of(alloc, known, from, feature, &line.instructions)?,
        }),
        None => Ok(Block {
            priority: UNKNOWN_PRIORITY,
            geom,
            items: unknown_items(alloc)?,
        }),
    }
}

/// The line of the table for a feature of a geometry.
fn line_for<'a>(table: &'a Table, feature: &Feature, geom: Geom) -> Option<&'a TableLine>
    ensures { option_copied result ≡ line_for table.now feature.now geom }
{
    let place = table.select(feature.class, geom, &feature.attrs)?;
    table.line(place)
}

/// What is drawn of a feature, where it is shown.
pub fn block_in(
    alloc: Global,
    known: &mut Known,
    from: &Sources,
    feature: &Feature,
) -> Result<Option<Block>, AllocError>
    requires { AreKnown from.now.cell.now from.now.settings.now known.old }
    ensures block { IfOk result (λ block. block
        ≡ block_in from.now.cell.now from.now.table.now from.now.settings.now feature.now) }
    ensures known { AreKnown from.now.cell.now from.now.settings.now known.new }
{
    let Some(geom) = geom_of(feature.prim) else {
        return Ok(None);
    };
    if is_hidden(&feature.attrs, from.settings.scale) {
        return Ok(None);
    }
    let line = line_for(from.table, feature, geom);
    let block = block_with(alloc, known, from, feature, geom, line)?;
    Ok(Some(block))
}

/// What is drawn of the feature with a name: the priority and the instructions of the table's line for it, each on the
/// whole feature, or what its procedure makes of the feature; or a question mark at priority 5 where there is no line.
/// None exactly where it isn't shown: the cell has no such feature, it has no geometry, or its SCAMIN is below the
/// denominator of the display scale. The users are those of the cell.
pub fn block_of(
    alloc: Global,
    cell: &Cell,
    users: &Users,
    table: &Table,
    settings: &Settings,
    name: Name,
) -> Result<Option<Block>, AllocError>
    requires { AreUsersOf cell.now users.now }
    ensures block { IfOk result (λ block. block ≡ block_at cell.now table.now settings.now name) }
    ensures shown { IfOk result (λ block. IsSome block ↔ IsShown cell.now settings.now.scale name) }
{
    numbers_are_spelled();
    let from = Sources {
        cell,
        users,
        table,
        settings,
    };
    match cell.features.get(name) {
        Some(feature) => block_in(alloc, &mut Known::nothing(alloc), &from, feature),
        None => Ok(None),
    }
}
