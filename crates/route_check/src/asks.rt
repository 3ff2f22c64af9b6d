//! What of a chart is asked along a route: the features whose boxes a leg reaches.
//!
//! All legs ask the grid before any feature is looked at, and what they ask for is put in order by feature: so a
//! feature that many legs reach is looked up once, and its shape made once. An ask is a name and a number, and it costs
//! of the effort, since a route of 999 legs may reach every feature with each of them.

ghost use Rattle.std.specs.Prelude.{◌≡◌, ◌++◌, ◌↔◌, map, OnOk, IfOk, Contains};
ghost use Rattle.route_check.specs.Gains.{Gains};
ghost use Rattle.route_check.specs.Ask.{ask_for, IsAskOf, IsAsk};

use crate::reach::reach_of;
use crate::route::Route;
use chart_model::Name;
use depth_values::Effort;
use route_geometry::Leg;
use spatial_grid::Grid;
use std::alloc::{AllocError, Global};

/// What an ask costs, which is kept and put in order, in tests of a point against a segment.
const COST_OF_ASK: usize = 30;

/// What it costs to look at a box in a bucket, whose name is put in order then, in the same tests: a box may stand in
/// 64 buckets, and is looked at in each of them.
const COST_OF_BOX: usize = 8;

/// A feature whose box a leg reaches. Asks stand by the features' numbers, so that each shape is made once.
#[derive(Clone, Copy, Debug)]
pub(crate) struct Ask {
    pub(crate) name: Name,
    /// How many legs come before that leg.
    pub(crate) before: u32,
}

/// Adds the asks of a leg for the features of some names.
fn push_names(asks: &mut Vec<Ask>, names: &[Name], before: u32) -> Result<(), AllocError>
    ensures { OnOk result (asks.new.items ≡ asks.old.items ++ map (ask_for before) names.now) }
{
    for name in names {
        asks.push(Ask {
            name: *name,
            before,
        })?;
    }
    Ok(())
}

/// Adds the asks of a leg: for the features whose boxes meet the box that it reaches. The names of these are put in the
/// place of others.
fn push_leg(
    effort: &mut Effort,
    asks: &mut Vec<Ask>,
    names: &mut Vec<Name>,
    grid: &Grid,
    leg: Leg,
    before: u32,
) -> Result<(), AllocError>
    ensures { OnOk result (Gains (IsAskOf grid.now leg before) asks.old.items asks.new.items) }
{
    let looked_at = grid.find_candidates(names, &reach_of(leg))?;
    effort.spend(looked_at.saturating_mul(COST_OF_BOX))?;
    effort.spend(names.len().saturating_mul(COST_OF_ASK))?;
    push_names(asks, names.as_slice(), before)?;
    Ok(())
}

/// The asks of all legs.
fn all_asks(
    alloc: Global,
    effort: &mut Effort,
    grid: &Grid,
    route: &Route,
) -> Result<Vec<Ask>, AllocError>
    ensures { IfOk result (λ asks. (ask : Ask) → Contains asks.items ask ↔ IsAsk grid.now route.now ask) }
{
    let mut asks = Vec::new(alloc);
    let mut names = Vec::new(alloc);
    for before in 0..route.leg_count() {
        let leg = route.leg(before + 1);
        push_leg(effort, &mut asks, &mut names, grid, leg, before)?;
    }
    Ok(asks)
}

/// Where an ask stands among others: by the feature's number, and then by leg. Nothing that is answered hangs on it,
/// but how fast.
fn order_of(ask: &Ask) -> u64 {
    u64::from(ask.name.rcid) << 32 | u64::from(ask.before)
}

/// The asks of all legs, by feature.
pub(crate) fn asks_of(
    alloc: Global,
    effort: &mut Effort,
    grid: &Grid,
    route: &Route,
) -> Result<Vec<Ask>, AllocError>
    ensures { IfOk result (λ asks. (ask : Ask) → Contains asks.items ask ↔ IsAsk grid.now route.now ask) }
{
    let mut asks = all_asks(alloc, effort, grid, route)?;
    asks.sort_unstable_by_key(|ask| order_of(ask));
    Ok(asks)
}
