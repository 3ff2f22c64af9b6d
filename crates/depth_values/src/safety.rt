//! Which areas are safe.
//!
//! Safe and unsafe are not each other's opposite: a depth area that is too shallow is neither where it isn't one of
//! those that cover the chart, and no line or point is either. So each has a test of its own.

ghost use Rattle.std.specs.Prelude.{◌≡◌};
ghost use Rattle.depth_values.specs.Area.{depths_of};
ghost use Rattle.depth_values.specs.Safety.{is_safe_area, is_unsafe_area};

use crate::area::{Depths, least_depth};
use crate::depth_area::is_depth_area;
use chart_model::Feature;
use chart_model::codes::AREA;

/// The group of the areas that cover a chart without a gap: the skin of the earth (S-57 Appendix B.1, GRUP).
const SKIN_OF_THE_EARTH: u8 = 1;

/// Whether the feature is a safe area: a depth area or a dredged area that is nowhere less deep than the safety
/// contour, in centimetres. It takes no memory.
pub fn is_safe_area(feature: &Feature, safety_contour: i32) -> bool
    ensures { result ≡ is_safe_area safety_contour feature.now }
{
    is_depth_area(feature) && safety_contour <= least_depth(feature)
}

/// The same of a feature whose depths were read already. It takes no memory.
pub fn is_safe_area_with(feature: &Feature, depths: Depths, safety_contour: i32) -> bool
    requires { depths ≡ depths_of feature.now }
    ensures { result ≡ is_safe_area safety_contour feature.now }
{
    safety_contour <= depths.d1 && is_depth_area(feature)
}

/// Whether the feature is an unsafe area: one of the skin of the earth that isn't safe, such as land, an area that
/// wasn't surveyed, or a depth area that is too shallow. It takes no memory.
pub fn is_unsafe_area(feature: &Feature, safety_contour: i32) -> bool
    ensures { result ≡ is_unsafe_area safety_contour feature.now }
{
    feature.prim == AREA
        && feature.grup == SKIN_OF_THE_EARTH
        && !is_safe_area(feature, safety_contour)
}
