//! The dangerous objects of a chart, feature by feature.
//!
//! Whether a feature may be dangerous is told by its class, its primitive and its attributes, without memory; its shape
//! is made for those alone that may be. Of a hazard the shape comes before the depth, since its depth may be that of
//! the areas in which it lies.

ghost use Rattle.std.specs.Prelude.{◌≡◌, ◌++◌, OnOk};
ghost use Rattle.std.specs.List.{flat_map, enumerate_from};
ghost use Rattle.area_rings.specs.Shape.{shape_of};
ghost use Rattle.route_check.specs.Ask.{objects_named};
ghost use Rattle.route_check.specs.Danger.{is_hazard, is_shallow, whole_of, hazards_of, sounding_at, soundings_in};
ghost use Rattle.route_check.specs.Danger.{objects_at};
ghost use Rattle.route_check.specs.Found.{AreOf};

use crate::depths::hazard_depth;
use crate::object::Object;
use crate::target::Target;
use area_rings::Shape;
use chart_model::codes::{AREA, POINT};
use chart_model::{Cell, Coord, Feature, Key, Name, Settings};
use depth_values::codes::{OBSTRN, UWTROC, WRECKS};
use depth_values::{DepthAreas, Effort, is_unsafe_area, shape_within};
use std::alloc::{AllocError, Global};

/// The class of soundings (S-57 Appendix A).
const SOUNDG: u16 = 129;

/// A chart, and by what it is asked.
#[derive(Clone, Copy)]
pub(crate) struct Sources<'a> {
    pub(crate) key: Key,
    pub(crate) cell: &'a Cell,
    pub(crate) settings: &'a Settings,
}

/// Whether the feature is an obstruction, an underwater rock or a wreck, that is a point, a line or an area.
fn is_hazard(feature: &Feature) -> bool
    ensures { result ≡ is_hazard feature.now }
{
    matches!(feature.class, OBSTRN | UWTROC | WRECKS) && matches!(feature.prim, POINT..=AREA)
}

/// Whether a sounding is at most as deep as the safety depth, in centimetres.
fn is_shallow(safety_depth: i32, depth: Option<i32>) -> bool
    ensures { result ≡ is_shallow safety_depth depth }
{
    match depth {
        Some(depth) => depth <= safety_depth,
        None => false,
    }
}

/// Adds an unsafe area as an object, where it has a shape.
fn push_area(
    alloc: Global,
    effort: &mut Effort,
    objects: &mut Vec<Object>,
    from: &Sources,
    rcid: u32,
    feature: &Feature,
) -> Result<(), AllocError>
    ensures { OnOk result (objects.new.items
        ≡ objects.old.items ++ whole_of from.now.key rcid (shape_of from.now.cell.now feature.now)) }
{
    match shape_within(alloc, effort, from.cell, feature)? {
        Some(shape) => {
            objects.push(Object::new(from.key, rcid, 0, Target::Whole(shape)))?;
            Ok(())
        }
        None => Ok(()),
    }
}

/// Adds a hazard as an object, where it has a shape and its depth is at most the safety contour.
fn push_hazard(
    alloc: Global,
    effort: &mut Effort,
    objects: &mut Vec<Object>,
    areas: &mut Option<DepthAreas>,
    from: &Sources,
    rcid: u32,
    feature: &Feature,
) -> Result<(), AllocError>
    requires { AreOf from.now.cell.now areas.old }
    ensures kept { OnOk result (AreOf from.now.cell.now areas.new) }
    ensures objects { OnOk result (objects.new.items ≡ objects.old.items
        ++ hazards_of from.now.settings.now from.now.key from.now.cell.now rcid feature.now) }
{
    let Some(shape) = shape_within(alloc, effort, from.cell, feature)? else {
        return Ok(());
    };
    let depth = hazard_depth(alloc, effort, areas, from.cell, feature, &shape)?;
    if depth <= from.settings.safety_contour {
        objects.push(Object::new(from.key, rcid, 0, Target::Whole(shape)))?;
    }
    Ok(())
}

/// Adds a coordinate at its place as an object, where it is a shallow sounding.
fn push_sounding(
    objects: &mut Vec<Object>,
    from: &Sources,
    rcid: u32,
    place: u64,
    coord: &Coord,
) -> Result<(), AllocError>
    ensures { OnOk result (objects.new.items ≡ objects.old.items
        ++ sounding_at from.now.key rcid from.now.settings.now.safety_depth (place, coord.now)) }
{
    if is_shallow(from.settings.safety_depth, coord.z) {
        objects.push(Object::new(from.key, rcid, place, Target::Sounding(*coord)))?;
    }
    Ok(())
}

/// Adds the shallow soundings among coordinates as objects.
fn push_coords(
    objects: &mut Vec<Object>,
    from: &Sources,
    rcid: u32,
    coords: &[Coord],
) -> Result<(), AllocError>
    ensures { OnOk result (objects.new.items ≡ objects.old.items ++ flat_map
        (sounding_at from.now.key rcid from.now.settings.now.safety_depth) (enumerate_from 1 coords.now)) }
{
    for (at, coord) in coords.iter().enumerate() {
        push_sounding(objects, from, rcid, at as u64 + 1, coord)?;
    }
    Ok(())
}

/// Adds the shallow soundings of a feature as objects, where it is a point.
fn push_soundings(
    alloc: Global,
    effort: &mut Effort,
    objects: &mut Vec<Object>,
    from: &Sources,
    rcid: u32,
    feature: &Feature,
) -> Result<(), AllocError>
    ensures { OnOk result (objects.new.items ≡ objects.old.items ++ soundings_in from.now.key rcid
        from.now.settings.now.safety_depth (shape_of from.now.cell.now feature.now)) }
{
    match shape_within(alloc, effort, from.cell, feature)? {
        Some(Shape::Points(coords)) => push_coords(objects, from, rcid, coords.as_slice()),
        _ => Ok(()),
    }
}

/// Adds the dangerous objects of a feature. Its shape is made where it may be dangerous.
fn push_feature(
    alloc: Global,
    effort: &mut Effort,
    objects: &mut Vec<Object>,
    areas: &mut Option<DepthAreas>,
    from: &Sources,
    rcid: u32,
    feature: &Feature,
) -> Result<(), AllocError>
    requires { AreOf from.now.cell.now areas.old }
    ensures kept { OnOk result (AreOf from.now.cell.now areas.new) }
    ensures objects { OnOk result (objects.new.items ≡ objects.old.items
        ++ objects_at from.now.settings.now from.now.key from.now.cell.now rcid feature.now) }
{
    if is_unsafe_area(feature, from.settings.safety_contour) {
        push_area(alloc, effort, objects, from, rcid, feature)
    } else if is_hazard(feature) {
        push_hazard(alloc, effort, objects, areas, from, rcid, feature)
    } else if feature.class == SOUNDG {
        push_soundings(alloc, effort, objects, from, rcid, feature)
    } else {
        Ok(())
    }
}

/// Adds the dangerous objects of the feature of a name, where the chart has it.
pub(crate) fn push_named(
    alloc: Global,
    effort: &mut Effort,
    objects: &mut Vec<Object>,
    areas: &mut Option<DepthAreas>,
    from: &Sources,
    name: Name,
) -> Result<(), AllocError>
    requires { AreOf from.now.cell.now areas.old }
    ensures kept { OnOk result (AreOf from.now.cell.now areas.new) }
    ensures objects { OnOk result (objects.new.items ≡ objects.old.items
        ++ objects_named from.now.settings.now from.now.key from.now.cell.now name) }
{
    let cell = from.cell;
    match cell.features.get(name) {
        Some(feature) => push_feature(alloc, effort, objects, areas, from, name.rcid, feature),
        None => Ok(()),
    }
}
