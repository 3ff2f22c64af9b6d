//! The procedure for depth areas.
//!
//! A chart needn't have a contour at the mariner's safety contour. So that is also drawn where a safe area meets an
//! unsafe one.
//!
//! Whether an unsafe area lies beyond an edge is the same for all areas of a chart. So the answer for an edge of many
//! users is kept for the others of a drawing, which would each ask all of them again.

ghost use Rattle.std.specs.Prelude.{◌≡◌, ◌++◌, OnOk, IfOk};
ghost use Rattle.std.specs.List.{list_any};
ghost use Rattle.topology_cache.specs.Users.{AreUsersOf};
ghost use Rattle.depth_values.specs.Area.{depths_of};
ghost use Rattle.depth_symbology.specs.DepthArea.{is_unsafe_at, borders_unsafe, pattern_items, dredged_items};
ghost use Rattle.depth_symbology.specs.DepthArea.{contours_on, contour_items, depare01_of, depare01_at};
ghost use Rattle.depth_symbology.specs.EdgeAnswers.{AreAnswers};

use crate::colour::{colour, is_deeper};
use crate::edge_answers::EdgeAnswers;
use crate::text::safety_contour;
use chart_model::codes::AREA;
use chart_model::{Cell, Feature, ItemList, Name, Pointer, Settings, Target};
use depth_values::codes::DRGARE;
use depth_values::{Depths, Effort, area_depths, is_safe_area_with, is_unsafe_area};
use draw_items::{is_drawn, push_item};
use std::alloc::{AllocError, Global};
use topology_cache::Users;

/// What it costs to look at a user of an edge, in tests of a point against a segment.
const COST_OF_USER: usize = 20;

/// What it costs to take an answer that is kept. No edge without two users has a safety contour, so each contour of a
/// drawing costs as much at least: all of them have to fit in memory.
const COST_OF_ANSWER: usize = 2 * COST_OF_USER;

/// The most users of an edge that are asked each time. An edge of a chart bounds one area or two, and a few lines may
/// run along it: to ask these takes no longer than to look for an answer, and no memory.
const FEW_USERS: usize = 8;

/// Whether the feature with a name is an unsafe area.
fn is_unsafe_at(cell: &Cell, contour: i32, name: Name) -> bool
    ensures { result ≡ is_unsafe_at cell.now contour name }
{
    match cell.features.get(name) {
        Some(feature) => is_unsafe_area(feature, contour),
        None => false,
    }
}

/// Whether one of the features with these names is an unsafe area.
fn are_any_unsafe(cell: &Cell, contour: i32, names: &[Name]) -> bool
    ensures { result ≡ list_any (is_unsafe_at cell.now contour) names.now }
{
    names.iter().any(|name| is_unsafe_at(cell, contour, *name))
}

/// Whether one of the users of an edge, which have these names, is an unsafe area. It takes of the effort what it looks
/// at.
fn ask_users(
    effort: &mut Effort,
    cell: &Cell,
    contour: i32,
    names: &[Name],
) -> Result<bool, AllocError>
    ensures { IfOk result (λ any. any ≡ list_any (is_unsafe_at cell.now contour) names.now) }
{
    effort.spend(names.len().saturating_mul(COST_OF_USER))?;
    Ok(are_any_unsafe(cell, contour, names))
}

/// Whether an unsafe area points to the edge, as it is kept; or as the users of the edge, which have these names, tell,
/// and then that is kept.
fn known_answer(
    effort: &mut Effort,
    answers: &mut EdgeAnswers,
    cell: &Cell,
    contour: i32,
    edge: Name,
    names: &[Name],
) -> Result<bool, AllocError>
    requires names { list_any (is_unsafe_at cell.now contour) names.now ≡ borders_unsafe cell.now contour edge }
    requires answers { AreAnswers cell.now contour answers.old }
    ensures borders { IfOk result (λ borders. borders ≡ borders_unsafe cell.now contour edge) }
    ensures answers { AreAnswers cell.now contour answers.new }
{
    if let Some(borders) = answers.get(edge) {
        effort.spend(COST_OF_ANSWER)?;
        return Ok(borders);
    }
    let borders = ask_users(effort, cell, contour, names)?;
    answers.keep(edge, borders)?;
    Ok(borders)
}

/// Whether an unsafe area points to the edge. The answer for an edge of many users is kept.
fn borders_unsafe(
    effort: &mut Effort,
    answers: &mut EdgeAnswers,
    cell: &Cell,
    users: &Users,
    contour: i32,
    edge: Name,
) -> Result<bool, AllocError>
    requires users { AreUsersOf cell.now users.now }
    requires answers { AreAnswers cell.now contour answers.old }
    ensures borders { IfOk result (λ borders. borders ≡ borders_unsafe cell.now contour edge) }
    ensures answers { AreAnswers cell.now contour answers.new }
{
    let names = users.edge_users(edge);
    if names.len() <= FEW_USERS {
        return ask_users(effort, cell, contour, names);
    }
    known_answer(effort, answers, cell, contour, edge, names)
}

/// Adds a safety contour on an edge that is drawn, where an unsafe area lies beyond it.
fn push_contour(
    alloc: Global,
    effort: &mut Effort,
    answers: &mut EdgeAnswers,
    items: &mut ItemList,
    cell: &Cell,
    users: &Users,
    contour: i32,
    pointer: &Pointer,
) -> Result<(), AllocError>
    requires users { AreUsersOf cell.now users.now }
    requires answers { AreAnswers cell.now contour answers.old }
    ensures items { OnOk result (items.new ≡ items.old ++ contours_on cell.now contour pointer.now) }
    ensures answers { AreAnswers cell.now contour answers.new }
{
    let edge = pointer.target;
    if is_drawn(pointer) && borders_unsafe(effort, answers, cell, users, contour, edge)? {
        push_item(
            alloc,
            items,
            Target::Edge(edge.rcid),
            safety_contour(cell, edge),
        )?;
    }
    Ok(())
}

/// Adds the safety contours of a safe area.
fn push_contours(
    alloc: Global,
    effort: &mut Effort,
    answers: &mut EdgeAnswers,
    items: &mut ItemList,
    cell: &Cell,
    users: &Users,
    contour: i32,
    feature: &Feature,
    depths: Depths,
) -> Result<(), AllocError>
    requires users { AreUsersOf cell.now users.now }
    requires answers { AreAnswers cell.now contour answers.old }
    requires depths { depths ≡ depths_of feature.now }
    ensures items { OnOk result (items.new ≡ items.old ++ contour_items cell.now contour feature.now) }
    ensures answers { AreAnswers cell.now contour answers.new }
{
    if !is_safe_area_with(feature, depths, contour) {
        return Ok(());
    }
    for pointer in feature.pointers.as_slice() {
        push_contour(alloc, effort, answers, items, cell, users, contour, pointer)?;
    }
    Ok(())
}

/// Adds the pattern of an area that isn't deeper than the safety contour, where it is asked for.
fn push_pattern(
    alloc: Global,
    items: &mut ItemList,
    settings: &Settings,
    depths: Depths,
) -> Result<(), AllocError>
    ensures { OnOk result (items.new ≡ items.old ++ pattern_items settings.now depths) }
{
    if settings.pattern && !is_deeper(settings.safety_contour, depths) {
        push_item(alloc, items, Target::Whole, b"AP(DIAMOND1)")?;
    }
    Ok(())
}

/// Adds the pattern and the outline of a dredged area.
fn push_dredged(alloc: Global, items: &mut ItemList, feature: &Feature) -> Result<(), AllocError>
    ensures { OnOk result (items.new ≡ items.old ++ dredged_items feature.now) }
{
    if feature.class == DRGARE {
        push_item(alloc, items, Target::Whole, b"AP(DRGARE01)")?;
        push_item(alloc, items, Target::Whole, b"LS(DASH,1,CHGRF)")?;
    }
    Ok(())
}

/// Adds what is drawn of a depth area: its colour; a pattern, where it is asked for and the area isn't deeper than the
/// safety contour; the pattern and the outline of a dredged area; and on the edges of a safe area beyond which an
/// unsafe area lies, the safety contour. Nothing is drawn of what is no area.
///
/// It takes of the effort what it looks at. The answers are those of the cell at its safety contour, and so they stay,
/// also where there is no memory: those for edges of many users are kept among them.
pub fn push_depare01(
    alloc: Global,
    effort: &mut Effort,
    answers: &mut EdgeAnswers,
    items: &mut ItemList,
    cell: &Cell,
    users: &Users,
    settings: &Settings,
    feature: &Feature,
) -> Result<(), AllocError>
    requires users { AreUsersOf cell.now users.now }
    requires answers { AreAnswers cell.now settings.now.safety_contour answers.old }
    ensures items { OnOk result (items.new ≡ items.old ++ depare01_of cell.now settings.now feature.now) }
    ensures answers { AreAnswers cell.now settings.now.safety_contour answers.new }
{
    if feature.prim != AREA {
        return Ok(());
    }
    let depths = area_depths(feature);
    push_item(alloc, items, Target::Whole, colour(settings, depths))?;
    push_pattern(alloc, items, settings, depths)?;
    push_dredged(alloc, items, feature)?;
    let contour = settings.safety_contour;
    push_contours(
        alloc, effort, answers, items, cell, users, contour, feature, depths,
    )
}

/// What is drawn of the depth area with a name, as `push_depare01` has it. Nothing is drawn where the cell has no such
/// feature.
pub fn depare01(
    alloc: Global,
    cell: &Cell,
    users: &Users,
    settings: &Settings,
    name: Name,
) -> Result<ItemList, AllocError>
    requires { AreUsersOf cell.now users.now }
    ensures { IfOk result (λ items. items ≡ depare01_at cell.now settings.now name) }
{
    let mut items = ItemList::new(alloc);
    if let Some(feature) = cell.features.get(name) {
        push_depare01(
            alloc,
            &mut Effort::whole(),
            &mut EdgeAnswers::new(alloc),
            &mut items,
            cell,
            users,
            settings,
            feature,
        )?;
    }
    Ok(items)
}
