//! The feature that a block is of.

ghost use Rattle.std.specs.Prelude.{◌≡◌, IfOk};
ghost use Rattle.chart_svg.specs.Places.{shape_at};

use crate::places::shape_at;
use area_rings::Shape;
use chart_model::Cell;
use std::alloc::{AllocError, Global};

/// A feature of a cell by its number, with its shape: made once for all that is drawn of the feature.
#[derive(Debug, Drop)]
pub(crate) struct Subject<'a> {
    pub cell: &'a Cell,
    pub rcid: u32,
    pub shape: Option<Shape>,
    pub ghost shaped: { shape ≡ shape_at cell.now rcid },
}

/// The feature of a number, with its shape.
pub(crate) fn shaped<'a>(
    alloc: Global,
    cell: &'a Cell,
    rcid: u32,
) -> Result<Subject<'a>, AllocError>
    ensures { IfOk result (λ subject. (subject.cell.now ≡ cell.now) × (subject.rcid ≡ rcid)) }
{
    let shape = shape_at(alloc, cell, rcid)?;
    Ok(Subject { cell, rcid, shape })
}
