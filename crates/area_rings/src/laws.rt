//! What holds of the definitions.
//!
//! The function that gives rings goes edge by edge. That they are the shortest chains which return is how the standard
//! has it, and the two are tied together here.

ghost use Rattle.std.specs.Prelude.{◌≡◌, ◌↔◌, Bool, List, Some, IsSome};
ghost use Rattle.chart_model.specs.declared.name.Name.{Name};
ghost use Rattle.chart_model.specs.declared.record.Pointer.{Pointer};
ghost use Rattle.chart_model.specs.declared.cell.Feature.{Feature};
ghost use Rattle.chart_model.specs.Cell.{CellValue};
ghost use Rattle.plane_geometry.specs.declared.point.Pt.{Pt};
ghost use Rattle.area_rings.specs.KeptEdges.{KeepsVectors};
ghost use Rattle.area_rings.specs.Rings.{HasRings};
ghost use Rattle.area_rings.specs.Shape.{line_of, rings_of, shape_of};

/// The rings of an area are those that its pointers' edges are, one after the other, where each ring is
/// the shortest chain that returns to its first node; and there is one way at most to take them so.
pub fn rings_are_shortest()
    ensures { (cell : CellValue) (pointers : List Pointer) (rings : List (List Pt)) →
        (rings_of cell pointers ≡ Some rings) ↔ HasRings cell pointers rings }
{}

/// Edges keep their lines and features their shapes where another cell has each vector record with the
/// same pointers, and with a coordinate where it had one. The coordinates may be others.
pub fn shapes_are_kept()
    ensures line { (before after : CellValue) (name : Name) (reversed : Bool) → KeepsVectors before after →
        IsSome (line_of before name reversed) → IsSome (line_of after name reversed) }
    ensures shape { (before after : CellValue) (feature : Feature) → KeepsVectors before after →
        IsSome (shape_of before feature) → IsSome (shape_of after feature) }
{}
