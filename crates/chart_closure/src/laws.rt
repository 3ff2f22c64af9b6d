//! What holds of the definitions.
//!
//! The crates above cite these where they look at some records of a chart in place of all.

ghost use Rattle.std.specs.Prelude.{◌≡◌, ◌⊎◌, Some, None, IsNone};
ghost use Rattle.chart_model.specs.declared.name.Name.{Name};
ghost use Rattle.chart_model.specs.Cell.{CellValue, IsCell};
ghost use Rattle.chart_closure.specs.declared.fault.ClosureFault.{ClosureFault};
ghost use Rattle.chart_closure.specs.Closed.{closure_fault, fault_at, IsClosed, IsLeastFault};
ghost use Rattle.chart_closure.specs.Unchanged.{KeepsRecords, StandsAsBefore};

use area_rings::shapes_are_kept;

/// A chart without a fault is closed, and the fault of any other is that of its least name with one.
pub fn first_is_least()
    ensures closed { (cell : CellValue) → closure_fault cell ≡ None → IsClosed cell }
    ensures none { (cell : CellValue) → IsCell cell → IsClosed cell → closure_fault cell ≡ None }
    ensures least { (cell : CellValue) (fault : ClosureFault) → IsCell cell →
        closure_fault cell ≡ Some fault → IsLeastFault cell fault }
{}

/// A closed chart stays closed where each record is kept, of vector records with the same pointers and
/// with a coordinate where there was one, and where each name has no fault or its records are as they
/// were: again a vector record so kept, a feature with the same primitive and pointers, or none.
pub fn closed_charts_stay_closed()
    ensures { (before after : CellValue) → IsClosed before → KeepsRecords before after →
        ((name : Name) → IsNone (fault_at after name) ⊎ StandsAsBefore before after name) → IsClosed after }
{
    shapes_are_kept();
}
