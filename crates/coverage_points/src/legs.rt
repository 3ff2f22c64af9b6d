//! The legs that no area covers.

ghost use Rattle.std.specs.Prelude.{◌≡◌, ◌++◌, OnOk, IfOk};
ghost use Rattle.std.specs.List.{list_any};
ghost use Rattle.coverage_points.specs.Cover.{is_covered};
ghost use Rattle.coverage_points.specs.Uncovered.{AreUncovered, uncovered_at, uncovered_of};

use crate::area::Area;
use crate::coverage::areas_in;
use chart_model::{Sequence, State};
use route_geometry::Leg;
use std::alloc::{AllocError, Global};

/// The numbers of legs, counted from 1, in order.
pub type LegList = Sequence<u64>;

/// Whether one of the areas covers the leg.
fn is_covered(areas: &[Area], leg: &Leg) -> bool
    ensures { result ≡ list_any (is_covered leg.now) areas.now }
{
    areas.iter().any(|area| area.covers(leg))
}

/// Adds the number of a leg, where none of the areas covers it.
fn push_uncovered(
    numbers: &mut Vec<u64>,
    areas: &[Area],
    number: u64,
    leg: &Leg,
) -> Result<(), AllocError>
    ensures { OnOk result (numbers.new.items ≡ numbers.old.items ++ uncovered_at areas.now (number, leg.now)) }
{
    if is_covered(areas, leg) {
        return Ok(());
    }
    numbers.push(number)?;
    Ok(())
}

/// The numbers of the legs, counted from 1, that no area of coverage of a chart that is held covers. A leg that only
/// two areas together cover is among them.
pub fn uncovered_legs(alloc: Global, state: &State, legs: &[Leg]) -> Result<LegList, AllocError>
    ensures exact { IfOk result (AreUncovered state.now legs.now) }
    // They are what holding every leg against every area gives.
    ensures value { IfOk result (λ numbers. numbers ≡ uncovered_of state.now legs.now) }
{
    let areas = areas_in(alloc, state)?;
    let mut numbers = Vec::new(alloc);
    for (before, leg) in legs.iter().enumerate() {
        push_uncovered(&mut numbers, areas.as_slice(), before as u64 + 1, leg)?;
    }
    Ok(LegList::from_vec(numbers))
}
