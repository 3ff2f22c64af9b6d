//! The procedure for soundings.
//!
//! One feature has many soundings, each with a place of its own, so its digits are items at places.

ghost use Rattle.std.specs.Prelude.{◌≡◌, ◌++◌, All, OnOk, IfOk};
ghost use Rattle.chart_model.specs.Record.{IsCoord};
ghost use Rattle.depth_symbology.specs.Soundings.{sounding_items, soundings_of, HasCoords};
ghost use Rattle.depth_symbology.specs.Soundings.{soundings_in, soundg02_of, soundg02_at};

use area_rings::Shape;
use chart_model::{Cell, Coord, Feature, ItemList, Name, Settings, Target};
use depth_values::{Effort, push_digits, shape_within};
use std::alloc::{AllocError, Global};
use topology_cache::Users;

/// What it costs to draw a sounding, in tests of a point against a segment: its items have to fit in memory.
const COST_OF_SOUNDING: usize = 240;

/// Adds the digits of a sounding, at its place.
fn push_sounding(
    alloc: Global,
    items: &mut ItemList,
    settings: &Settings,
    coord: &Coord,
) -> Result<(), AllocError>
    requires { IsCoord coord.now }
    ensures { OnOk result (items.new ≡ items.old ++ sounding_items settings.now coord.now) }
{
    match coord.z {
        Some(depth) => {
            let place = Target::At(coord.x, coord.y);
            push_digits(alloc, items, place, depth, settings.safety_depth)
        }
        None => Ok(()),
    }
}

/// Adds the digits of the soundings among coordinates.
fn push_soundings(
    alloc: Global,
    items: &mut ItemList,
    settings: &Settings,
    coords: &[Coord],
) -> Result<(), AllocError>
    requires { All IsCoord coords.now }
    ensures { OnOk result (items.new ≡ items.old ++ soundings_of settings.now coords.now) }
{
    for coord in coords {
        push_sounding(alloc, items, settings, coord)?;
    }
    Ok(())
}

/// Adds the digits of the soundings of a shape: of a point feature, and of no other.
fn push_shape(
    alloc: Global,
    effort: &mut Effort,
    items: &mut ItemList,
    settings: &Settings,
    shape: Option<Shape>,
) -> Result<(), AllocError>
    requires { HasCoords shape }
    ensures { OnOk result (items.new ≡ items.old ++ soundings_in settings.now shape) }
{
    match shape {
        Some(Shape::Points(coords)) => {
            let coords = coords.as_slice();
            effort.spend(coords.len().saturating_mul(COST_OF_SOUNDING))?;
            push_soundings(alloc, items, settings, coords)
        }
        _ => Ok(()),
    }
}

/// Adds what is drawn of soundings: the digits of each coordinate that has a depth, at its place. Nothing is drawn of
/// what is no point. It takes of the effort by the number of coordinates.
pub fn push_soundg02(
    alloc: Global,
    effort: &mut Effort,
    items: &mut ItemList,
    cell: &Cell,
    settings: &Settings,
    feature: &Feature,
) -> Result<(), AllocError>
    ensures { OnOk result (items.new ≡ items.old ++ soundg02_of cell.now settings.now feature.now) }
{
    // A cell is known to be one where a field of it is read: its depths are then within 9,999,999 cm, as `push_digits`
    // needs.
    let _ = &cell.vectors;
    let shape = shape_within(alloc, effort, cell, feature)?;
    push_shape(alloc, effort, items, settings, shape)
}

/// What is drawn of the soundings with a name, as `push_soundg02` has it. Nothing is drawn where the cell has no such
/// feature. The users of edges aren't asked.
pub fn soundg02(
    alloc: Global,
    cell: &Cell,
    _users: &Users,
    settings: &Settings,
    name: Name,
) -> Result<ItemList, AllocError>
    ensures { IfOk result (λ items. items ≡ soundg02_at cell.now settings.now name) }
{
    let mut items = ItemList::new(alloc);
    if let Some(feature) = cell.features.get(name) {
        push_soundg02(
            alloc,
            &mut Effort::whole(),
            &mut items,
            cell,
            settings,
            feature,
        )?;
    }
    Ok(items)
}
