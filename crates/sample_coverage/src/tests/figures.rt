//! Legs and rings, of a few numbers.

use plane_geometry::{Pt, Ring};
use route_geometry::Leg;
use std::alloc::{AllocError, Global};

/// A longitude and a latitude.
pub(super) type Place = [i32; 2];

fn pt(place: Place) -> Pt {
    Pt {
        x: place[0],
        y: place[1],
    }
}

/// The leg from a place to another, widened by half-widths.
pub(super) fn leg(a: Place, b: Place, half: [u32; 2]) -> Leg {
    Leg {
        a: pt(a),
        b: pt(b),
        w: half[0],
        h: half[1],
    }
}

/// The ring of these corners.
fn ring(alloc: Global, corners: &[Place]) -> Result<Ring, AllocError> {
    let mut points = Ring::new(alloc);
    for corner in corners {
        points.push(pt(*corner))?;
    }
    Ok(points)
}

/// The rings of these corners.
pub(super) fn rings(alloc: Global, figure: &[&[Place]]) -> Result<Vec<Ring>, AllocError> {
    let mut rings = Vec::new(alloc);
    for corners in figure {
        rings.push(ring(alloc, corners)?)?;
    }
    Ok(rings)
}
