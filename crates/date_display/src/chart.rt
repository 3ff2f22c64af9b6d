//! The chart of a day.
//!
//! Features alone have dates. All vector records stay, and the features that stay are shared with the chart, so that a
//! chart of a day costs a pass over the features and the removal of those that are hidden.

ghost use Rattle.std.specs.Prelude.{◌≡◌, IfOk};
ghost use Rattle.date_display.specs.Days.{date_of};
ghost use Rattle.date_display.specs.Chart.{IsChartOn, features_on, chart_on};

use crate::day::Day;
use crate::feature::shown_on;
use chart_model::{Cell, FeatureMap};
use std::alloc::{AllocError, Global};

/// The features that are shown on a day. They are shared with the map that they are of.
fn visible_features(features: &FeatureMap, day: Day) -> Result<FeatureMap, AllocError>
    ensures { IfOk result (λ shown. shown ≡ features_on (date_of day) features.now) }
{
    let mut shown = features.clone()?;
    for (name, feature) in features.iter() {
        if !shown_on(feature, day) {
            shown.remove(*name)?;
        }
    }
    Ok(shown)
}

/// The cell with the features that are shown on a day, and no others. Its header and its vector records stay, and each
/// feature that is shown is as it was. The records are shared with the cell.
///
/// So whatever the features point to among the vector records is still there. A feature without a geometry may also
/// point to another feature, which may be one that isn't shown.
///
/// It costs a pass over the features, and a copy of the pages on which one is hidden, of up to 64 pointers each.
pub fn visible(_alloc: Global, cell: &Cell, day: Day) -> Result<Cell, AllocError>
    ensures exact { IfOk result (IsChartOn cell.now (date_of day)) }
    ensures function { IfOk result (λ shown. shown ≡ chart_on (date_of day) cell.now) }
{
    Ok(Cell {
        header: cell.header,
        vectors: cell.vectors.clone()?,
        features: visible_features(&cell.features, day)?,
    })
}
