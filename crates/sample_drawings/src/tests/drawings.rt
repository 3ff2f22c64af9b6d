//! Drawings of features by tables.
//!
//! Rows of the chart don't stand in the order in which they are drawn, so that the order has to come from priorities,
//! geometries and names. Drawings are compared as the lines that are said of them.

use crate::tests::users::find_users;
use chart_model::{Block, Geom, Item, ItemList, Octets, Settings, Shades, Target};
use draw_list::{block_of, blocks_of, draw_cell, print_drawing, print_item};
use lookup_table::{Table, read_table};
use object_catalogue::read_objects;
use sample_rows::{Row, chart, feature, name};
use std::alloc::{AllocError, Global};
use std::test::Fail;

/// Two areas, two points, a line that is shown up to the display scale 1, and a feature without a geometry.
static CHART: [Row; 6] = [
    feature!(1, 4, []),
    Row {
        attrs: &[(133, b"1")],
        ..feature!(2, 5, [])
    },
    feature!(255, 6, []),
    Row {
        attrs: &[(87, b"2"), (133, b"2")],
        ..feature!(3, 2, [])
    },
    Row {
        attrs: &[(87, b"1"), (133, b"")],
        ..feature!(3, 1, [])
    },
    feature!(1, 3, []),
];

/// A table, the denominator of a display scale, and the number of the drawing's items and their lines.
type Case = (&'static [u8], u32, u64, &'static [u8]);

static CASES: [Case; 6] = [
    (
        b"DEPARE A 1 - AC(DEPVS)",
        1,
        5,
        b"item 1 A 1 whole AC(DEPVS)
item 1 A 2 whole AC(DEPVS)
item 5 L 5 whole SY(QUESMRK1)
item 5 P 3 whole SY(QUESMRK1)
item 5 P 4 whole SY(QUESMRK1)
",
    ),
    (
        b"DEPARE A 1 - AC(DEPVS)\nDEPARE A 2 DRVAL1=2 AC(DEPDW)\n",
        2,
        4,
        b"item 1 A 1 whole AC(DEPVS)
item 2 A 2 whole AC(DEPDW)
item 5 P 3 whole SY(QUESMRK1)
item 5 P 4 whole SY(QUESMRK1)
",
    ),
    (
        b"DEPARE A 1 - AC(DEPVS)",
        3,
        3,
        b"item 1 A 1 whole AC(DEPVS)
item 5 P 3 whole SY(QUESMRK1)
item 5 P 4 whole SY(QUESMRK1)
",
    ),
    // instructions in their order, at one priority by geometry; a line without instructions draws nothing
    (
        b"DEPARE P 1 - SY(B);SY(A)\nDEPARE A 1 - AC(DEPVS)\nDEPARE L 0 - -\n",
        1,
        6,
        b"item 1 A 1 whole AC(DEPVS)
item 1 A 2 whole AC(DEPVS)
item 1 P 3 whole SY(B)
item 1 P 3 whole SY(A)
item 1 P 4 whole SY(B)
item 1 P 4 whole SY(A)
",
    ),
    // what procedures make of a feature stands in its block in the place of the call
    (
        b"DEPARE A 1 - CS(DEPARE01);AC(X)\nDEPARE P 2 - SY(A);CS(SOUNDG02);CS(DEPARE01)\n",
        1,
        7,
        b"item 1 A 1 whole AC(DEPVS)
item 1 A 1 whole AC(X)
item 1 A 2 whole AC(DEPMS)
item 1 A 2 whole AC(X)
item 2 P 3 whole SY(A)
item 2 P 4 whole SY(A)
item 5 L 5 whole SY(QUESMRK1)
",
    ),
    // an area whose SCAMIN is no number is shown at every scale
    (
        b"DEPARE A 9 SCAMIN=? AC(DEPMD)\nDEPARE P 7 DRVAL1=* -\n",
        4_294_967_295,
        3,
        b"item 5 P 3 whole SY(QUESMRK1)
item 5 P 4 whole SY(QUESMRK1)
item 9 A 1 whole AC(DEPMD)
",
    ),
];

fn table(alloc: Global, text: &[u8]) -> Result<Table, Fail> {
    let catalogue = read_objects(alloc, b"O 42 DEPARE\nA 87 DRVAL1\nA 133 SCAMIN\n")?;
    Ok(read_table(alloc, text, &catalogue)?)
}

fn settings(scale: u32) -> Settings {
    Settings {
        safety_contour: 3_000,
        safety_depth: 3_000,
        shallow: 200,
        deep: 3_000,
        shades: Shades::Four,
        pattern: false,
        scale,
    }
}

/// The number of the items of the chart's drawing by a table, and their lines.
fn drawing(alloc: Global, text: &[u8], scale: u32) -> Result<(u64, Octets), Fail> {
    let cell = chart(alloc, &CHART)?;
    let users = find_users(alloc, &cell)?;
    let table = table(alloc, text)?;
    let drawing = draw_cell(alloc, &cell, &users, &table, &settings(scale))?;
    Ok(print_drawing(alloc, &drawing)?)
}

#[test]
fn drawings(rt: HostRuntime) -> Result<(), Fail> {
    for (at, (text, scale, count, lines)) in CASES.iter().enumerate() {
        let (items, printed) = drawing(rt.alloc(), text, *scale)?;
        assert!(rt;
            items == *count && printed.as_slice() == *lines,
            "case {at}"
        );
    }
    Ok(())
}

/// The number of a feature, the denominator of a display scale, and how many instructions the feature's block has.
static BLOCKS: [(u32, u32, Option<usize>); 8] = [
    (1, 1_000, Some(2)),
    (2, 2, Some(2)),
    (2, 3, None),
    (3, 1, Some(1)),
    (5, 1, Some(1)),
    (5, 2, None),
    (6, 1, None),
    (7, 1, None),
];

/// How many instructions the block of a feature has.
fn block_length(alloc: Global, rcid: u32, scale: u32) -> Result<Option<usize>, Fail> {
    let cell = chart(alloc, &CHART)?;
    let users = find_users(alloc, &cell)?;
    let table = table(alloc, b"DEPARE A 1 - AC(DEPVS);LS(SOLID,1,CHGRD)")?;
    let settings = settings(scale);
    let block = block_of(alloc, &cell, &users, &table, &settings, name!(100, rcid))?;
    Ok(block.as_ref().map(|block| block.items.as_slice().len()))
}

#[test]
fn blocks(rt: HostRuntime) -> Result<(), Fail> {
    for (rcid, scale, count) in &BLOCKS {
        let found = block_length(rt.alloc(), *rcid, *scale)?;
        assert!(rt; found == *count, "feature {rcid} at {scale}");
    }
    Ok(())
}

/// The number of a feature, its block's priority, and how many instructions that has.
type Listed = (u32, u8, usize);

/// The denominator of a display scale, and the blocks of the chart in their order.
static LISTS: [(u32, &[Listed]); 3] = [
    // a line without instructions makes a block too
    (1, &[(1, 1, 1), (2, 1, 1), (3, 9, 2), (4, 9, 2), (5, 0, 0)]),
    (2, &[(1, 1, 1), (2, 1, 1), (3, 9, 2), (4, 9, 2)]),
    (3, &[(1, 1, 1), (3, 9, 2), (4, 9, 2)]),
];

/// The blocks of the chart in their order.
fn listed(alloc: Global, scale: u32) -> Result<Vec<Listed>, Fail> {
    let cell = chart(alloc, &CHART)?;
    let users = find_users(alloc, &cell)?;
    let table = table(
        alloc,
        b"DEPARE P 9 - SY(B);SY(A)\nDEPARE A 1 - AC(DEPVS)\nDEPARE L 0 - -\n",
    )?;
    let mut listed = Vec::new(alloc);
    for named in &blocks_of(alloc, &cell, &users, &table, &settings(scale))? {
        let items = named.block.items.as_slice().len();
        listed.push((named.name.rcid, named.block.priority, items))?;
    }
    Ok(listed)
}

#[test]
fn lists(rt: HostRuntime) -> Result<(), Fail> {
    for (scale, blocks) in &LISTS {
        let found = listed(rt.alloc(), *scale)?;
        assert!(rt; found.as_slice() == *blocks, "scale {scale}");
    }
    Ok(())
}

/// A geometry, a target, and the line of an item.
static LINES: [(Geom, Target, &[u8]); 3] = [
    (Geom::Area, Target::Whole, b"item 4 A 7 whole LS(DASH, 2)\n"),
    (
        Geom::Line,
        Target::Edge(12),
        b"item 4 L 7 edge 12 LS(DASH, 2)\n",
    ),
    (
        Geom::Point,
        Target::At(-1_800_000_000, 900_000_000),
        b"item 4 P 7 at -1800000000 900000000 LS(DASH, 2)\n",
    ),
];

/// The line of the feature 7's item behind a byte that is there already.
fn line_of(alloc: Global, geom: Geom, target: Target) -> Result<Octets, AllocError> {
    let item = Item {
        target,
        text: Octets::from_vec(Vec::from_slice(alloc, b"LS(DASH, 2)")?),
    };
    let block = Block {
        priority: 4,
        geom,
        items: ItemList::new(alloc),
    };
    let mut out = Octets::from_vec(Vec::from_slice(alloc, b"x")?);
    print_item(alloc, &mut out, &block, 7, &item)?;
    Ok(out)
}

#[test]
fn items(rt: HostRuntime) -> Result<(), Fail> {
    for (at, (geom, target, line)) in LINES.iter().enumerate() {
        let out = line_of(rt.alloc(), *geom, *target)?;
        let bytes = out.as_slice();
        let same = bytes.first() == Some(&b'x') && bytes.get(1..) == Some(*line);
        assert!(rt; same, "case {at}");
    }
    Ok(())
}
