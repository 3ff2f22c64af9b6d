//! Drawings of areas that share edges.
//!
//! The answer for an edge of more than eight users is kept for a drawing, so areas on both sides of that number are
//! drawn whole, with edges of both answers by turns.

use crate::tests::users::find_users;
use chart_model::{Cell, Octets, Settings};
use draw_list::{draw_cell, print_drawing};
use lookup_table::read_table;
use object_catalogue::read_objects;
use sample_rows::{Row, SETTINGS, add_rows, chart, feature, name};
use std::alloc::Global;
use std::test::Fail;

/// An area of depths from 10 m to 20 m, which is safe at the safety contour of 10 m: its number, and its pointers to
/// edges.
macro_rules! safe {
    ($number:expr, $($edge:expr),* $(,)?) => {
        Row {
            grup: 1,
            attrs: &[(87, b"10"), (88, b"20")],
            ..feature!(3, $number, [$((130, $edge, 1)),*])
        }
    };
}

/// An area of depths from 9.99 m to 10 m, which isn't.
macro_rules! shoal {
    ($number:expr, $($edge:expr),* $(,)?) => {
        Row {
            grup: 1,
            attrs: &[(87, b"9.99"), (88, b"10")],
            ..feature!(3, $number, [$((130, $edge, 1)),*])
        }
    };
}

/// Edge 1 has eleven users, the last of which isn't safe; edge 2 has ten, all of which are safe; edge 3 has eight and
/// edge 4 nine, the last of which isn't safe.
static CHART: [Row; 12] = [
    safe!(1, 1, 2, 3, 4),
    safe!(2, 2, 1, 4, 3),
    safe!(3, 1, 2, 3, 4),
    safe!(4, 1, 2, 3, 4),
    safe!(5, 1, 2, 3, 4),
    safe!(6, 1, 2, 3, 4),
    safe!(7, 1, 2, 3, 4),
    safe!(8, 2, 4, 1),
    // masked along edge 1
    Row {
        marks: &[(1, 2), (1, 1)],
        ..safe!(9, 2, 1)
    },
    // along edge 1 twice
    safe!(10, 1, 2, 1),
    shoal!(11, 1, 3),
    shoal!(12, 4),
];

/// A safety contour in centimetres, and the number of the drawing's items and their lines.
type Case = (i32, u64, &'static [u8]);

static CASES: [Case; 2] = [
    (
        1_000,
        37,
        b"item 1 A 1 whole AC(DEPMD)
item 1 A 1 edge 1 LS(SOLID,2,DEPSC)
item 1 A 1 edge 3 LS(SOLID,2,DEPSC)
item 1 A 1 edge 4 LS(SOLID,2,DEPSC)
item 1 A 2 whole AC(DEPMD)
item 1 A 2 edge 1 LS(SOLID,2,DEPSC)
item 1 A 2 edge 4 LS(SOLID,2,DEPSC)
item 1 A 2 edge 3 LS(SOLID,2,DEPSC)
item 1 A 3 whole AC(DEPMD)
item 1 A 3 edge 1 LS(SOLID,2,DEPSC)
item 1 A 3 edge 3 LS(SOLID,2,DEPSC)
item 1 A 3 edge 4 LS(SOLID,2,DEPSC)
item 1 A 4 whole AC(DEPMD)
item 1 A 4 edge 1 LS(SOLID,2,DEPSC)
item 1 A 4 edge 3 LS(SOLID,2,DEPSC)
item 1 A 4 edge 4 LS(SOLID,2,DEPSC)
item 1 A 5 whole AC(DEPMD)
item 1 A 5 edge 1 LS(SOLID,2,DEPSC)
item 1 A 5 edge 3 LS(SOLID,2,DEPSC)
item 1 A 5 edge 4 LS(SOLID,2,DEPSC)
item 1 A 6 whole AC(DEPMD)
item 1 A 6 edge 1 LS(SOLID,2,DEPSC)
item 1 A 6 edge 3 LS(SOLID,2,DEPSC)
item 1 A 6 edge 4 LS(SOLID,2,DEPSC)
item 1 A 7 whole AC(DEPMD)
item 1 A 7 edge 1 LS(SOLID,2,DEPSC)
item 1 A 7 edge 3 LS(SOLID,2,DEPSC)
item 1 A 7 edge 4 LS(SOLID,2,DEPSC)
item 1 A 8 whole AC(DEPMD)
item 1 A 8 edge 4 LS(SOLID,2,DEPSC)
item 1 A 8 edge 1 LS(SOLID,2,DEPSC)
item 1 A 9 whole AC(DEPMD)
item 1 A 10 whole AC(DEPMD)
item 1 A 10 edge 1 LS(SOLID,2,DEPSC)
item 1 A 10 edge 1 LS(SOLID,2,DEPSC)
item 1 A 11 whole AC(DEPMS)
item 1 A 12 whole AC(DEPMS)
",
    ),
    // all of them are safe
    (
        999,
        12,
        b"item 1 A 1 whole AC(DEPMD)
item 1 A 2 whole AC(DEPMD)
item 1 A 3 whole AC(DEPMD)
item 1 A 4 whole AC(DEPMD)
item 1 A 5 whole AC(DEPMD)
item 1 A 6 whole AC(DEPMD)
item 1 A 7 whole AC(DEPMD)
item 1 A 8 whole AC(DEPMD)
item 1 A 9 whole AC(DEPMD)
item 1 A 10 whole AC(DEPMD)
item 1 A 11 whole AC(DEPMD)
item 1 A 12 whole AC(DEPMD)
",
    ),
];

/// The number of the items of a chart's drawing at a safety contour, and their lines.
fn drawing(alloc: Global, cell: &Cell, safety_contour: i32) -> Result<(u64, Octets), Fail> {
    let users = find_users(alloc, cell)?;
    let catalogue = read_objects(alloc, b"O 42 DEPARE\n")?;
    let table = read_table(alloc, b"DEPARE A 1 - CS(DEPARE01)\n", &catalogue)?;
    let settings = Settings {
        safety_contour,
        ..SETTINGS
    };
    let drawing = draw_cell(alloc, cell, &users, &table, &settings)?;
    Ok(print_drawing(alloc, &drawing)?)
}

#[test]
fn shared_edges(rt: HostRuntime) -> Result<(), Fail> {
    let cell = chart(rt.alloc(), &CHART)?;
    for (safety_contour, count, lines) in &CASES {
        let (items, printed) = drawing(rt.alloc(), &cell, *safety_contour)?;
        assert!(rt;
            items == *count && printed.as_slice() == *lines,
            "{safety_contour}"
        );
    }
    Ok(())
}

/// So many areas of one edge that a drawing couldn't bear it if each asked all of them.
const MANY: u32 = 4_000;

/// Safe areas of one edge, and behind them one that isn't safe.
fn many_areas(alloc: Global) -> Result<Cell, Fail> {
    let mut cell = chart(alloc, &[])?;
    for number in 1..MANY {
        add_rows(alloc, &mut cell, &[safe!(number, 1)])?;
    }
    add_rows(alloc, &mut cell, &[shoal!(MANY, 1)])?;
    Ok(cell)
}

#[test]
fn many_areas_of_one_edge(rt: HostRuntime) -> Result<(), Fail> {
    let cell = many_areas(rt.alloc())?;
    let (items, _) = drawing(rt.alloc(), &cell, 1_000)?;
    assert!(rt; items == 7_999);
    let (items, _) = drawing(rt.alloc(), &cell, 999)?;
    assert!(rt; items == 4_000);
    Ok(())
}
