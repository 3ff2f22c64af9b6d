//! The areas of coverage of charts.
//!
//! Each leg is held against all of them, so their rings are made once.

ghost use Rattle.std.specs.Prelude.{◌≡◌, ◌++◌, OnOk, IfOk};
ghost use Rattle.coverage_points.specs.Coverage.{has_text, is_coverage, coverage_at, coverage_of, coverage_under};
ghost use Rattle.coverage_points.specs.Coverage.{coverage_in};

use crate::area::Area;
use area_rings::rings;
use chart_model::codes::AREA;
use chart_model::{Cell, Feature, State};
use std::alloc::{AllocError, Global};

/// The class of areas of coverage (S-57 Appendix A).
const M_COVR: u16 = 302;

/// The attribute category of coverage.
const CATCOV: u16 = 18;

/// The category of an area for which the chart has data: coverage available.
const AVAILABLE: &[u8] = b"1";

/// Whether the text of an attribute is this value and no more.
fn has_text(feature: &Feature, code: u16, value: &[u8]) -> bool
    ensures { result ≡ has_text feature.now code value.now }
{
    match feature.attrs.get(code) {
        Some(text) => text.as_slice() == value,
        None => false,
    }
}

/// Whether the feature is an area for which its chart has data.
fn is_coverage(feature: &Feature) -> bool
    ensures { result ≡ is_coverage feature.now }
{
    feature.class == M_COVR && feature.prim == AREA && has_text(feature, CATCOV, AVAILABLE)
}

/// Adds a feature, where it is an area of coverage and has rings.
fn push_feature(
    alloc: Global,
    areas: &mut Vec<Area>,
    cell: &Cell,
    feature: &Feature,
) -> Result<(), AllocError>
    ensures { OnOk result (areas.new.items ≡ areas.old.items ++ coverage_at cell.now feature.now) }
{
    if !is_coverage(feature) {
        return Ok(());
    }
    if let Some(rings) = rings(alloc, cell, feature)? {
        areas.push(Area::new(rings))?;
    }
    Ok(())
}

/// Adds the areas of coverage of a chart.
fn push_cell(alloc: Global, areas: &mut Vec<Area>, cell: &Cell) -> Result<(), AllocError>
    ensures { OnOk result (areas.new.items ≡ areas.old.items ++ coverage_of cell.now) }
{
    for (_, feature) in cell.features.iter() {
        push_feature(alloc, areas, cell, feature)?;
    }
    Ok(())
}

/// Adds the areas of coverage of a chart, where there is one: a cancelled cell has none.
fn push_chart(alloc: Global, areas: &mut Vec<Area>, chart: &Option<Cell>) -> Result<(), AllocError>
    ensures { OnOk result (areas.new.items ≡ areas.old.items ++ coverage_under chart.now) }
{
    match chart {
        Some(cell) => push_cell(alloc, areas, cell),
        None => Ok(()),
    }
}

/// The areas of coverage of all charts that are held.
pub(crate) fn areas_in(alloc: Global, state: &State) -> Result<Vec<Area>, AllocError>
    ensures { IfOk result (λ areas. areas.items ≡ coverage_in state.now) }
{
    let mut areas = Vec::new(alloc);
    for (_, holding) in state.cells.iter() {
        push_chart(alloc, &mut areas, &holding.chart)?;
    }
    Ok(areas)
}
