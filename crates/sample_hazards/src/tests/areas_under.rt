//! The areas under objects.
//!
//! Places stand on borders, at corners and one unit beside them, since that is where the even-odd rule may go wrong.
//! Each is asked as a point, as a line and as an area, of which the points alone count.

use crate::tests::squares::SQUARES;
use area_rings::Shape;
use chart_model::{Coord, Name, Sequence};
use depth_values::{areas_among, areas_under, depth_areas};
use plane_bounds::points_are_inside;
use plane_geometry::Pt;
use sample_rows::{chart, name};
use std::alloc::{AllocError, Global};
use std::test::Fail;

/// Points, and the numbers of the areas in or on which one of them lies.
static UNDER: [(&[(i32, i32)], &[u32]); 15] = [
    (&[(5, 50)], &[1]),
    (&[(20, 50)], &[1, 3]),
    // in the hole, on its border and at its corner
    (&[(50, 50)], &[1]),
    (&[(40, 50)], &[1, 3]),
    (&[(60, 60)], &[1, 3]),
    // on the border between two areas, at its end, and beyond it
    (&[(100, 50)], &[1, 2]),
    (&[(100, 100)], &[1, 2]),
    (&[(100, 101)], &[]),
    (&[(150, 50)], &[2]),
    // outside, on each side
    (&[(-1, 50)], &[]),
    (&[(201, 50)], &[]),
    (&[(50, -1)], &[]),
    (&[], &[]),
    // one of several
    (&[(250, 50), (150, 50)], &[2]),
    (&[(5, 50), (250, 50), (199, 1)], &[1, 2]),
];

fn points(alloc: Global, places: &[(i32, i32)]) -> Result<Sequence<Pt>, AllocError> {
    let mut points = Sequence::new(alloc);
    for (x, y) in places {
        points.push(Pt { x: *x, y: *y })?;
    }
    Ok(points)
}

/// The shape of points.
fn point_shape(alloc: Global, places: &[(i32, i32)]) -> Result<Shape, AllocError> {
    let mut coords = Sequence::new(alloc);
    for (x, y) in places {
        let (x, y) = (*x, *y);
        coords.push(Coord { x, y, z: None })?;
    }
    Ok(Shape::Points(coords))
}

/// The shape of a line, behind one without points.
fn line_shape(alloc: Global, places: &[(i32, i32)]) -> Result<Shape, AllocError> {
    let mut lines = Sequence::new(alloc);
    lines.push(Sequence::new(alloc))?;
    lines.push(points(alloc, places)?)?;
    Ok(Shape::Lines(lines))
}

/// The shape of an area of one ring.
fn ring_shape(alloc: Global, places: &[(i32, i32)]) -> Result<Shape, AllocError> {
    let mut rings = Sequence::new(alloc);
    rings.push(points(alloc, places)?)?;
    Ok(Shape::Rings(rings))
}

fn are_names(names: &[Name], numbers: &[u32]) -> bool {
    names.len() == numbers.len()
        && names
            .iter()
            .zip(numbers)
            .all(|(name, number)| *name == name!(100, *number))
}

/// Whether the areas of these numbers are under a shape: with the areas to be found, and with those that were found.
fn are_under(alloc: Global, numbers: &[u32], shape: &Shape) -> Result<bool, Fail> {
    let cell = chart(alloc, &SQUARES)?;
    let areas = depth_areas(alloc, &cell)?;
    let names = areas_under(alloc, &cell, shape)?;
    let again = areas_among(alloc, &areas, shape)?;
    Ok(are_names(names.as_slice(), numbers) && are_names(again.as_slice(), numbers))
}

/// Whether they are under points, a line and an area at these places.
fn are_under_places(alloc: Global, numbers: &[u32], places: &[(i32, i32)]) -> Result<bool, Fail> {
    Ok(
        are_under(alloc, numbers, &point_shape(alloc, places)?)?
            && are_under(alloc, numbers, &line_shape(alloc, places)?)?
            && are_under(alloc, numbers, &ring_shape(alloc, places)?)?,
    )
}

#[test]
fn under(rt: HostRuntime) -> Result<(), Fail> {
    let alloc = rt.alloc();
    for (at, (places, numbers)) in UNDER.iter().enumerate() {
        assert!(rt; are_under_places(alloc, numbers, places)?, "case {at}");
    }
    assert!(rt; are_under(alloc, &[], &Shape::Bare)?);
    points_are_inside();
    Ok(())
}
