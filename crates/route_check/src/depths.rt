//! The depths of hazards, by the depth areas of their chart.
//!
//! Making the depth areas of a chart costs the points of all their rings. So they are made once for all hazards along a
//! route, and not at all where the route reaches none.

ghost use Rattle.std.specs.Prelude.{◌≡◌, Some, IfOk, OnOk};
ghost use Rattle.depth_values.specs.Hazard.{hazard_depth_by};
ghost use Rattle.depth_values.specs.Under.{areas_of};
ghost use Rattle.route_check.specs.Found.{AreOf};

use area_rings::Shape;
use chart_model::{Cell, Feature};
use depth_values::{DepthAreas, Effort, depth_areas, hazard_depth_at};
use std::alloc::{AllocError, Global};

/// The depth of a hazard of a shape by the depth areas of its chart, in centimetres. The areas are made for the first
/// hazard, and kept for the others.
pub(crate) fn hazard_depth(
    alloc: Global,
    effort: &mut Effort,
    areas: &mut Option<DepthAreas>,
    cell: &Cell,
    feature: &Feature,
    shape: &Shape,
) -> Result<i32, AllocError>
    requires { AreOf cell.now areas.old }
    ensures depth { IfOk result
        (λ depth. depth ≡ hazard_depth_by (areas_of cell.now) (Some shape.now) feature.now) }
    ensures kept { OnOk result (AreOf cell.now areas.new) }
{
    match areas {
        Some(made) => hazard_depth_at(alloc, effort, made, feature, shape),
        None => {
            let made = depth_areas(alloc, cell)?;
            let depth = hazard_depth_at(alloc, effort, &made, feature, shape)?;
            *areas = Some(made);
            Ok(depth)
        }
    }
}
