//! The depth areas of a chart.

ghost use Rattle.std.specs.Prelude.{◌≡◌};
ghost use Rattle.depth_values.specs.Under.{is_depth_area};

use crate::codes::{DEPARE, DRGARE};
use chart_model::codes::AREA;
use chart_model::{Feature, Name};

/// A depth area or a dredged area of a chart.
#[derive(Clone, Copy, Debug)]
pub struct DepthArea {
    /// The name of the feature.
    pub name: Name,
    /// The least of its depths, in centimetres.
    pub d1: i32,
    /// The place of what it covers, among the extents of the chart.
    pub extent: usize,
}

/// What is told of an area that is under an object.
#[derive(Clone, Copy, Debug)]
pub(crate) struct AreaMark {
    pub name: Name,
    /// The least of its depths, in centimetres.
    pub d1: i32,
}

/// Whether the feature is a depth area or a dredged area.
pub(crate) fn is_depth_area(feature: &Feature) -> bool
    ensures { result ≡ is_depth_area feature.now }
{
    feature.prim == AREA && (feature.class == DEPARE || feature.class == DRGARE)
}
