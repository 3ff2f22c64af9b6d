//! What the instructions of a table draw of a feature.
//!
//! The depth areas of the cell are made for the first hazard and kept for the others: they take a walk over all areas.
//! So are the answers for edges that many areas share.

ghost use Rattle.std.specs.Prelude.{◌≡◌, ◌++◌, OnOk, IfOk};
ghost use Rattle.std.specs.List.{flat_map};
ghost use Rattle.depth_values.specs.Under.{areas_of};
ghost use Rattle.hazard_symbology.specs.Hazard.{hazard_items};
ghost use Rattle.draw_list.specs.Items.{procedure_items, items_by};
ghost use Rattle.draw_list.specs.Known.{AreAreas, AreKnown};

use crate::sources::Sources;
use chart_model::{Cell, Feature, ItemList, Target};
use depth_symbology::{EdgeAnswers, push_depare01, push_depcnt02, push_soundg02};
use depth_values::{DepthAreas, Effort, depth_areas};
use draw_items::push_item;
use hazard_symbology::push_hazard;
use lookup_table::{Instruction, InstructionList, Procedure};
use std::alloc::{AllocError, Global};

/// What an instruction costs that is drawn as it stands, in tests of a point against a segment: all items of a drawing
/// have to fit in memory.
const COST_OF_ITEM: usize = 75;

/// What it costs to call a procedure: beside items along edges and at places it draws a handful.
const COST_OF_CALL: usize = 4 * COST_OF_ITEM;

/// What a drawing has made already, and how much more it may ask for.
#[derive(Debug, Drop)]
pub struct Known {
    /// The depth areas of the cell that is drawn, where they were made: only hazards ask for them.
    pub areas: Option<DepthAreas>,
    /// Whether an unsafe area lies beyond an edge, for the edges of many users that were asked for.
    pub answers: EdgeAnswers,
    pub effort: Effort,
}

impl Known {
    ghost use Rattle.chart_model.specs.Cell.{CellValue};
    ghost use Rattle.chart_model.specs.declared.settings.Settings.{Settings};
    ghost use Rattle.draw_list.specs.Known.{AreKnown};

    /// That of any drawing that begins. It takes no memory.
    pub fn nothing(alloc: Global) -> Known
        ensures { (cell : CellValue) (settings : Settings) → AreKnown cell settings result }
    {
        Known {
            areas: None,
            answers: EdgeAnswers::new(alloc),
            effort: Effort::whole(),
        }
    }
}

/// The depth areas of a cell, which are made where they aren't known.
fn known_areas(
    alloc: Global,
    cell: &Cell,
    known: Option<DepthAreas>,
) -> Result<DepthAreas, AllocError>
    requires { AreAreas cell.now known }
    ensures { IfOk result (λ areas. areas ≡ areas_of cell.now) }
{
    match known {
        Some(areas) => Ok(areas),
        None => depth_areas(alloc, cell),
    }
}

/// Adds what is drawn of a hazard.
fn push_hazard_items(
    alloc: Global,
    items: &mut ItemList,
    known: &mut Known,
    from: &Sources,
    feature: &Feature,
) -> Result<(), AllocError>
    requires { AreKnown from.now.cell.now from.now.settings.now known.old }
    ensures items { OnOk result
        (items.new ≡ items.old ++ hazard_items from.now.cell.now from.now.settings.now feature.now) }
    ensures known { AreKnown from.now.cell.now from.now.settings.now known.new }
{
    let areas = known_areas(alloc, from.cell, known.areas.take())?;
    push_hazard(
        alloc,
        &mut known.effort,
        items,
        &areas,
        from.cell,
        from.settings,
        feature,
    )?;
    known.areas = Some(areas);
    Ok(())
}

/// Adds what a procedure draws of a feature.
fn push_called(
    alloc: Global,
    items: &mut ItemList,
    known: &mut Known,
    from: &Sources,
    feature: &Feature,
    procedure: Procedure,
) -> Result<(), AllocError>
    requires { AreKnown from.now.cell.now from.now.settings.now known.old }
    ensures items { OnOk result
        (items.new ≡ items.old ++ procedure_items from.now.cell.now from.now.settings.now feature.now procedure) }
    ensures known { AreKnown from.now.cell.now from.now.settings.now known.new }
{
    let Sources {
        cell,
        users,
        settings,
        ..
    } = *from;
    known.effort.spend(COST_OF_CALL)?;
    match procedure {
        Procedure::Depare01 => push_depare01(
            alloc,
            &mut known.effort,
            &mut known.answers,
            items,
            cell,
            users,
            settings,
            feature,
        ),
        Procedure::Depcnt02 => {
            let edges = feature.pointers.as_slice().len();
            known.effort.spend(edges.saturating_mul(COST_OF_ITEM))?;
            push_depcnt02(alloc, items, cell, settings, feature)
        }
        Procedure::Soundg02 => push_soundg02(
            alloc,
            &mut known.effort,
            items,
            cell,
            settings,
            feature,
        ),
        Procedure::Obstrn04 | Procedure::Wrecks02 => {
            push_hazard_items(alloc, items, known, from, feature)
        }
    }
}

/// Adds what an instruction draws of a feature: itself, on the whole feature, or what its procedure makes of it.
fn push_instruction(
    alloc: Global,
    items: &mut ItemList,
    known: &mut Known,
    from: &Sources,
    feature: &Feature,
    instruction: &Instruction,
) -> Result<(), AllocError>
    requires { AreKnown from.now.cell.now from.now.settings.now known.old }
    ensures items { OnOk result
        (items.new ≡ items.old ++ items_by from.now.cell.now from.now.settings.now feature.now instruction.now) }
    ensures known { AreKnown from.now.cell.now from.now.settings.now known.new }
{
    match instruction {
        Instruction::Draw(text) => {
            known.effort.spend(COST_OF_ITEM)?;
            push_item(alloc, items, Target::Whole, text.as_slice())
        }
        Instruction::Call(procedure) => push_called(alloc, items, known, from, feature, *procedure),
    }
}

/// What instructions draw of a feature, one after the other.
pub fn items_of(
    alloc: Global,
    known: &mut Known,
    from: &Sources,
    feature: &Feature,
    instructions: &InstructionList,
) -> Result<ItemList, AllocError>
    requires { AreKnown from.now.cell.now from.now.settings.now known.old }
    ensures items { IfOk result (λ items.
        items ≡ flat_map (items_by from.now.cell.now from.now.settings.now feature.now) instructions.now) }
    ensures known { AreKnown from.now.cell.now from.now.settings.now known.new }
{
    let mut items = ItemList::new(alloc);
    for instruction in instructions.as_slice() {
        push_instruction(alloc, &mut items, known, from, feature, instruction)?;
    }
    Ok(items)
}
