//! The rows of a report, and their order.
//!
//! Rows are found feature by feature, as shapes are made, and told leg by leg, as a ship meets them: so they are put in
//! order at the end. The order is that of the fields as they stand in the struct.

ghost use Rattle.std.specs.Prelude.{◌≡◌, ◌↔◌, IfOk, Contains, AllPairs};
ghost use Rattle.std.specs.declared.cmp.Ordering.TheVariants.{Less};
ghost use Rattle.route_check.specs.Report.{danger_cmp};

use chart_model::{Key, Sequence};
use std::alloc::AllocError;

/// A leg of a route that meets a dangerous object of a chart. Rows stand by leg, then by key, by the feature's number
/// and by place.
#[derive(Clone, Copy, Debug, PartialEq, Eq, PartialOrd, Ord)]
pub struct Danger {
    /// The number of the leg, counted from 1.
    pub leg: u32,
    /// The key of the chart.
    pub key: Key,
    /// The record identification number (RCID) of the feature.
    pub rcid: u32,
    /// Of a sounding its place among the coordinates of its feature, counted from 1; of a whole feature 0.
    pub place: u64,
}

/// Rows in their order.
pub type DangerList = Sequence<Danger>;

/// Where a row stands among others: by its leg, and then by the feature's number. Nothing that is answered hangs on it,
/// but how fast.
fn order_of(row: &Danger) -> u64 {
    u64::from(row.leg) << 32 | u64::from(row.rcid)
}

/// The rows in order, each once.
pub(crate) fn each_once(mut rows: Vec<Danger>) -> Result<Vec<Danger>, AllocError>
    ensures same { IfOk result
        (λ sorted. (danger : Danger) → Contains sorted.items danger ↔ Contains rows.items danger) }
    ensures ordered { IfOk result (λ sorted. AllPairs (λ x y. danger_cmp x y ≡ Less) sorted.items) }
{
    // Most of the order is that of two numbers, which are faster to compare than rows.
    rows.sort_unstable_by_key(|row| order_of(row));
    rows.sort()?;
    rows.dedup();
    Ok(rows)
}
