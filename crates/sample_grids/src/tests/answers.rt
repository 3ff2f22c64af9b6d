//! What a grid answers of an area.
//!
//! Answers are compared in their order and to the last, so that neither a name too many nor one twice goes unseen.

use chart_model::{Cell, Name};
use plane_bounds::Bounds;
use sample_rows::name;
use spatial_grid::{Grid, grid_of};
use std::alloc::{AllocError, Global};

/// An area, by its west, south, east and north.
pub type Area = (i64, i64, i64, i64);

/// An area, and the numbers of the features whose boxes meet it.
pub type Case = (Area, &'static [u32]);

fn are_names(names: &[Name], numbers: &[u32]) -> bool {
    names.len() == numbers.len()
        && names
            .iter()
            .zip(numbers)
            .all(|(name, number)| *name == name!(100, *number))
}

/// Whether the candidates for an area are the features of these numbers, in this order.
pub fn is_answer(
    alloc: Global,
    grid: &Grid,
    area: Area,
    numbers: &[u32],
) -> Result<bool, AllocError> {
    let area = Bounds {
        x0: area.0,
        y0: area.1,
        x1: area.2,
        y1: area.3,
    };
    let names = grid.candidates(alloc, &area)?;
    Ok(are_names(names.as_slice(), numbers))
}

/// Whether the grid of a chart answers each case.
pub fn are_answered(alloc: Global, cell: &Cell, cases: &[Case]) -> Result<bool, AllocError> {
    let grid = grid_of(alloc, cell)?;
    for (area, numbers) in cases {
        if !is_answer(alloc, &grid, *area, numbers)? {
            return Ok(false);
        }
    }
    Ok(true)
}
