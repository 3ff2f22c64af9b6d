//! The range of depths of an area.
//!
//! What a chart doesn't say counts as shallow: an area without a least depth dries, and one without a greatest is
//! hardly deeper than its least. So no area is drawn as deeper than the chart says.

ghost use Rattle.std.specs.Prelude.{◌≡◌, pos, ◌≤ℤ◌};
ghost use Rattle.depth_values.specs.Area.{d1_of, depths_of};

use crate::attributes::depth_at;
use crate::codes::{DRVAL1, DRVAL2};
use chart_model::Feature;

/// The least depth of an area whose least depth is unknown: it dries one metre.
const UNKNOWN_DEPTH: i32 = -100;

/// The range of an area's depths, in centimetres.
#[derive(Clone, Copy, Debug, PartialEq, Eq)]
pub struct Depths {
    /// The least depth, DRVAL1: -100 where it is unknown.
    pub d1: i32,
    /// The greatest depth, DRVAL2: one centimetre more than `d1` where it is unknown.
    pub d2: i32,
}

/// The least depth by DRVAL1, as `area_depths` has it. It takes no memory.
pub(crate) fn least_depth(feature: &Feature) -> i32
    ensures depth { result ≡ d1_of feature.now }
    ensures small { result ≤ℤ pos 100000000 }
{
    depth_at(feature, DRVAL1).unwrap_or(UNKNOWN_DEPTH)
}

/// The range of depths by DRVAL1 and DRVAL2. An attribute that is absent, empty or no depth is unknown. It takes no
/// memory.
pub fn area_depths(feature: &Feature) -> Depths
    ensures { result ≡ depths_of feature.now }
{
    let d1 = least_depth(feature);
    let d2 = depth_at(feature, DRVAL2).unwrap_or(d1 + 1);
    Depths { d1, d2 }
}
