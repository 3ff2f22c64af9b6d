//! The fault of a chart that isn't closed.
//!
//! Each record is looked at by itself, so that an update can have those alone looked at that it may
//! have harmed.

ghost use Rattle.std.specs.Prelude.{◌≡◌, ◌↔◌, ◌==◌, ◌&&◌, false, is_none, map, option_and_then, IsOk, IfErr};
ghost use Rattle.std.specs.Result.{result_err};
ghost use Rattle.std.specs.FinMap as finite;
ghost use Rattle.chart_model.specs.Answers.{first_of};
ghost use Rattle.chart_model.specs.Cell.{IsCell};
ghost use Rattle.area_rings.specs.Shape.{line_of, shape_of};
ghost use Rattle.chart_closure.specs.Closed.{vector_fault, feature_fault, fault_at};
ghost use Rattle.chart_closure.specs.Closed.{closure_fault, IsClosed, IsLeastFault};

use crate::fault::ClosureFault;
use crate::pointers::{feature_pointers_fit, first_absent, vector_pointers_fit};
use area_rings::{has_line, has_shape};
use chart_model::codes::{AREA, EDGE};
use chart_model::{Cell, Feature, Name, Vector};

/// Whether the record is an edge without a line.
fn lacks_line(cell: &Cell, name: Name) -> bool
    ensures { result ≡ ((name.rcnm == EDGE) && is_none (line_of cell.now name false)) }
{
    name.rcnm == EDGE && !has_line(cell, name)
}

/// Whether the feature is an area without a shape.
fn lacks_rings(cell: &Cell, feature: &Feature) -> bool
    ensures { result ≡ ((feature.now.prim == AREA) && is_none (shape_of cell.now feature.now)) }
{
    feature.prim == AREA && !has_shape(cell, feature)
}

/// Finds the fault of a vector record.
fn check_vector(cell: &Cell, name: Name, vector: &Vector) -> Result<(), ClosureFault>
    ensures { result_err result ≡ vector_fault cell.now name vector.now }
{
    let pointers = vector.pointers.as_slice();
    if let Some(target) = first_absent(cell, pointers) {
        return Err(ClosureFault::Dangling(name, target));
    }
    if !vector_pointers_fit(name, pointers) {
        return Err(ClosureFault::WrongPointer(name));
    }
    if lacks_line(cell, name) {
        return Err(ClosureFault::EdgeNodes(name));
    }
    Ok(())
}

/// Finds the fault of a feature.
fn check_feature(cell: &Cell, name: Name, feature: &Feature) -> Result<(), ClosureFault>
    ensures { result_err result ≡ feature_fault cell.now name feature.now }
{
    let pointers = feature.pointers.as_slice();
    if let Some(target) = first_absent(cell, pointers) {
        return Err(ClosureFault::Dangling(name, target));
    }
    if !feature_pointers_fit(feature.prim, pointers) {
        return Err(ClosureFault::WrongPointer(name));
    }
    if lacks_rings(cell, feature) {
        return Err(ClosureFault::RingOpen(name));
    }
    Ok(())
}

/// Finds the first fault of the vector records.
fn check_vectors(cell: &Cell) -> Result<(), ClosureFault>
    ensures { result_err result ≡ first_of
        (map (λ entry. vector_fault cell.now entry.0 entry.1) (finite.entries cell.now.vectors)) }
{
    for (name, vector) in cell.vectors.iter() {
        check_vector(cell, *name, vector)?;
    }
    Ok(())
}

/// Finds the first fault of the features.
fn check_features(cell: &Cell) -> Result<(), ClosureFault>
    ensures cell { IsCell cell.now }
    ensures fault { result_err result ≡ first_of
        (map (λ entry. feature_fault cell.now entry.0 entry.1) (finite.entries cell.now.features)) }
{
    for (name, feature) in cell.features.iter() {
        check_feature(cell, *name, feature)?;
    }
    Ok(())
}

/// Whether a chart is closed, or its fault: that of the least name with one. It takes no memory.
pub fn check(cell: &Cell) -> Result<(), ClosureFault>
    ensures fault { result_err result ≡ closure_fault cell.now }
    ensures closed { IsOk result ↔ IsClosed cell.now }
    ensures least { IfErr result (λ fault. IsLeastFault cell.now fault) }
{
    check_features(cell)?;
    check_vectors(cell)
}

/// Finds the fault of the feature of that name, where there is one.
fn check_feature_at(cell: &Cell, name: Name) -> Result<(), ClosureFault>
    ensures { result_err result ≡ option_and_then (feature_fault cell.now name) (finite.get cell.now.features name) }
{
    match cell.features.get(name) {
        Some(feature) => check_feature(cell, name, feature),
        None => Ok(()),
    }
}

/// Finds the fault of the vector record of that name, where there is one.
fn check_vector_at(cell: &Cell, name: Name) -> Result<(), ClosureFault>
    ensures { result_err result ≡ option_and_then (vector_fault cell.now name) (finite.get cell.now.vectors name) }
{
    match cell.vectors.get(name) {
        Some(vector) => check_vector(cell, name, vector),
        None => Ok(()),
    }
}

/// Finds the fault of the record of one name, where there is one. It takes no memory.
#[tactic(auto, unfolding(crate::specs::Closed::fault_at))]
pub fn check_at(cell: &Cell, name: Name) -> Result<(), ClosureFault>
    ensures { result_err result ≡ fault_at cell.now name }
{
    check_feature_at(cell, name)?;
    check_vector_at(cell, name)
}
