//! Laws of the definitions.
//!
//! Contracts say what a change makes as a function. Here it is tied to what a change is as a
//! relation, which has no order of steps.

ghost use Rattle.std.specs.Prelude.{◌≡◌, None};
ghost use Rattle.chart_model.specs.Cell.{CellValue, IsCell};
ghost use Rattle.chart_model.specs.Change.{Change, IsChange};
ghost use Rattle.update_apply.specs.Changed.{cell_after, Changes};
ghost use Rattle.update_apply.specs.Fault.{fault_of};

/// Where a change has no fault, one cell follows by the rule, and no other.
pub fn one_cell_follows()
    ensures follows { (cell : CellValue) (change : Change) → IsChange change → fault_of cell change ≡ None →
        Changes cell change (cell_after cell change) }
    ensures alone { (cell : CellValue) (change : Change) (after : CellValue) → IsChange change →
        Changes cell change after → after ≡ cell_after cell change }
{}

/// A change without a fault keeps what holds of every cell.
pub fn cells_are_kept()
    ensures { (cell : CellValue) (change : Change) → IsCell cell → IsChange change → fault_of cell change ≡ None →
        IsCell (cell_after cell change) }
{}

/// A change leaves the header of the cell.
pub fn headers_are_kept()
    ensures { (cell : CellValue) (change : Change) → (cell_after cell change).header ≡ cell.header }
{}
