//! Areas that may cover just what another covers.
//!
//! Thousands of areas may point to the very same edges, or to edges that make the same rings. So the place of an area is
//! kept under numbers that are made of its pointers and of its rings. Others may have the same number, and the last of
//! them counts: who asks compares. Nothing that is answered hangs on it, but how fast.

use chart_model::Feature;
use plane_geometry::{Pt, Ring};
use std::alloc::{AllocError, Global};

/// By this the number of what came before is multiplied.
const MULTIPLIER: usize = 31;

/// The place of no area.
const NO_PLACE: usize = usize::MAX;

/// The places of areas, by numbers.
#[derive(Debug, Drop)]
pub(crate) struct LikelyTwins {
    places: Vec<usize>,
}

/// A number that is made of one more.
fn with(number: usize, next: u32) -> usize {
    number.wrapping_mul(MULTIPLIER).wrapping_add(next as usize)
}

/// A number made of a feature's pointers.
pub(crate) fn number_of_pointers(feature: &Feature) -> usize {
    let mut number = 0;
    for pointer in feature.pointers.as_slice() {
        number = with(number, pointer.target.rcid);
    }
    number
}

/// A number that is made of points more.
fn with_points(before: usize, points: &[Pt]) -> usize {
    let mut number = before;
    for p in points {
        number = with(with(number, p.x.unsigned_abs()), p.y.unsigned_abs());
    }
    number
}

/// A number made of the points of rings.
pub(crate) fn number_of_rings(rings: &[Ring]) -> usize {
    let mut number = 0;
    for ring in rings {
        number = with_points(number, ring.as_slice());
    }
    number
}

impl LikelyTwins {
    /// No area, of a chart with so many features.
    pub(crate) fn new(alloc: Global, features: usize) -> Result<LikelyTwins, AllocError> {
        let places = vec![in alloc; NO_PLACE; features]?;
        Ok(LikelyTwins { places })
    }

    /// Where what is kept under a number stands.
    fn slot(&self, number: usize) -> Option<usize> {
        if self.places.is_empty() {
            return None;
        }
        Some(number % self.places.len())
    }

    /// The place of an area that may have a number; where there is none, a place past all areas.
    pub(crate) fn place_for(&self, number: usize) -> Option<usize> {
        self.places.get(self.slot(number)?).copied()
    }

    /// Keeps the place of an area under a number.
    pub(crate) fn keep(&mut self, number: usize, place: usize) {
        let Some(slot) = self.slot(number) else {
            return;
        };
        if let Some(kept) = self.places.get_mut(slot) {
            *kept = place;
        }
    }
}
