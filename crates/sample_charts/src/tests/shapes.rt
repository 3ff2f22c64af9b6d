//! Lines of edges and shapes of features.
//!
//! `has_line` and `has_shape` answer without making anything, so each case asks them as well. The chart isn't closed,
//! since a shape may be asked of any chart: there are edges without a node, without its coordinate, and with two begin
//! nodes.

use area_rings::{Line, Shape, edge_line, feature_shape, has_line, has_shape, rings};
use chart_model::{Coord, Name};
use plane_geometry::Pt;
use sample_rows::{Row, add_rows, chart, feature, name, vector};
use std::test::Fail;

/// A triangle whose first side bends at (5, 1), and two loops at (5, 5). The node 9 has no coordinate, and there is no
/// node 8; the edge 8 has two begin nodes, and the edge 9 names its end node first.
static CHART: [Row; 16] = [
    Row {
        deep: true,
        ..vector!(110, 1, [], [(2, 3, 0), (4, 5, 0)])
    },
    vector!(120, 1, [], [(0, 0, 0)]),
    vector!(120, 2, [], [(10, 0, 0)]),
    vector!(120, 3, [], [(10, 10, 0)]),
    vector!(120, 4, [], [(5, 5, 0)]),
    vector!(120, 9, [], []),
    vector!(130, 1, [(120, 1, 1), (120, 2, 2)], [(5, 1, 0)]),
    vector!(130, 2, [(120, 2, 1), (120, 3, 2)], []),
    vector!(130, 3, [(120, 1, 1), (120, 3, 2)], [(0, 9, 0), (1, 10, 0)],),
    vector!(130, 4, [(120, 4, 1), (120, 4, 2)], [(6, 5, 0), (6, 6, 0)]),
    vector!(130, 5, [(120, 4, 1), (120, 4, 2)], []),
    vector!(130, 6, [(120, 1, 1), (120, 9, 2)], [(7, 7, 0)]),
    vector!(130, 7, [(120, 1, 1), (120, 8, 2)], []),
    vector!(130, 8, [(120, 1, 1), (120, 2, 1)], []),
    vector!(130, 9, [(120, 2, 2), (120, 1, 1)], [(3, 3, 0)]),
    vector!(130, 10, [(120, 1, 1), (120, 2, 2), (120, 3, 2)], []),
];

macro_rules! line {
    ($(($x:expr, $y:expr)),* $(,)?) => {
        &[$(Pt { x: $x, y: $y }),*]
    };
}

/// A record, whether it is taken in reverse, and its line.
type LineCase = (Name, bool, Option<&'static [Pt]>);

static LINES: [LineCase; 12] = [
    (name!(130, 1), false, Some(line![(0, 0), (5, 1), (10, 0)])),
    (name!(130, 2), false, Some(line![(10, 0), (10, 10)])),
    (
        name!(130, 3),
        true,
        Some(line![(10, 10), (1, 10), (0, 9), (0, 0)]),
    ),
    (
        name!(130, 4),
        true,
        Some(line![(5, 5), (6, 6), (6, 5), (5, 5)]),
    ),
    (name!(130, 5), false, Some(line![(5, 5), (5, 5)])),
    (name!(130, 9), false, Some(line![(0, 0), (3, 3), (10, 0)])),
    (name!(130, 6), false, None),
    (name!(130, 7), false, None),
    (name!(130, 8), false, None),
    (name!(130, 10), false, None),
    (name!(130, 99), false, None),
    (name!(120, 1), false, None),
];

fn is_line(line: &Option<Line>, wanted: &Option<&'static [Pt]>) -> bool {
    match (line, wanted) {
        (Some(line), Some(points)) => line.as_slice() == *points,
        (None, None) => true,
        _ => false,
    }
}

#[test]
fn lines_of_edges(rt: HostRuntime) -> Result<(), Fail> {
    let alloc = rt.alloc();
    let cell = chart(alloc, &CHART)?;
    for (at, (edge, reverse, wanted)) in LINES.iter().enumerate() {
        let line = edge_line(alloc, &cell, *edge, *reverse)?;
        assert!(rt; is_line(&line, wanted), "line {at}");
        assert!(rt; has_line(&cell, *edge) == wanted.is_some(), "line {at}");
    }
    Ok(())
}

enum Wanted {
    Nothing,
    Bare,
    Points(&'static [Coord]),
    Lines(&'static [&'static [Pt]]),
    Rings(&'static [&'static [Pt]]),
}

/// Features, with the orientations of their edges, and their shapes.
static SHAPES: [(Row, Wanted); 12] = [
    (
        feature!(1, 1, [(110, 1, 255), (120, 2, 255)]),
        Wanted::Points(&[
            Coord {
                x: 2,
                y: 3,
                z: Some(500),
            },
            Coord {
                x: 4,
                y: 5,
                z: Some(500),
            },
            Coord {
                x: 10,
                y: 0,
                z: None,
            },
        ]),
    ),
    (feature!(1, 2, [(130, 1, 1)]), Wanted::Nothing),
    (
        feature!(2, 3, [(130, 2, 2), (130, 5, 1)]),
        Wanted::Lines(&[line![(10, 10), (10, 0)], line![(5, 5), (5, 5)]]),
    ),
    (feature!(2, 4, [(120, 1, 1)]), Wanted::Nothing),
    (feature!(2, 5, [(130, 1, 1), (130, 6, 1)]), Wanted::Nothing),
    (
        feature!(
            3,
            6,
            [
                (130, 1, 1),
                (130, 2, 255),
                (130, 3, 2),
                (130, 5, 1),
                (130, 4, 2),
            ],
        ),
        Wanted::Rings(&[
            line![(0, 0), (5, 1), (10, 0), (10, 10), (1, 10), (0, 9)],
            line![(5, 5)],
            line![(5, 5), (6, 6), (6, 5)],
        ]),
    ),
    // No pointer, an unfinished ring, a broken chain, an edge without a line, no edge.
    (feature!(3, 7, []), Wanted::Nothing),
    (feature!(3, 8, [(130, 1, 1), (130, 2, 1)]), Wanted::Nothing),
    (
        feature!(3, 9, [(130, 1, 1), (130, 2, 1), (130, 3, 1)]),
        Wanted::Nothing,
    ),
    (feature!(3, 10, [(130, 4, 1), (130, 6, 1)]), Wanted::Nothing),
    (feature!(3, 11, [(120, 1, 1)]), Wanted::Nothing),
    (feature!(255, 12, [(130, 99, 1)]), Wanted::Bare),
];

fn are_lines(lines: &[Line], wanted: &[&[Pt]]) -> bool {
    for (at, points) in wanted.iter().enumerate() {
        if at >= lines.len() || lines[at].as_slice() != *points {
            return false;
        }
    }
    lines.len() == wanted.len()
}

fn is_shape(shape: &Option<Shape>, wanted: &Wanted) -> bool {
    match (shape, wanted) {
        (None, Wanted::Nothing) => true,
        (Some(Shape::Bare), Wanted::Bare) => true,
        (Some(Shape::Points(coords)), Wanted::Points(points)) => coords.as_slice() == *points,
        (Some(Shape::Lines(lines)), Wanted::Lines(wanted)) => are_lines(lines.as_slice(), wanted),
        (Some(Shape::Rings(rings)), Wanted::Rings(wanted)) => are_lines(rings.as_slice(), wanted),
        _ => false,
    }
}

#[test]
fn shapes_of_features(rt: HostRuntime) -> Result<(), Fail> {
    let alloc = rt.alloc();
    let mut cell = chart(alloc, &CHART)?;
    for (row, wanted) in &SHAPES {
        add_rows(alloc, &mut cell, &[*row])?;
        let number = row.name.rcid;
        let feature = cell.features.get(row.name).ok_or("a feature")?;
        let shape = feature_shape(alloc, &cell, feature)?;
        assert!(rt; is_shape(&shape, wanted), "feature {number}");
        assert!(rt;
            has_shape(&cell, feature) == shape.is_some(),
            "feature {number}"
        );
        if row.prim == 3 {
            let rings = rings(alloc, &cell, feature)?.map(Shape::Rings);
            assert!(rt; is_shape(&rings, wanted), "feature {number}");
        }
    }
    Ok(())
}
