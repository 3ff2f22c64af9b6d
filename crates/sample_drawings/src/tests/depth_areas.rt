//! What is drawn of depth areas.
//!
//! Colours go by both ends of an area's range, so each contour has cases at it and one centimetre on either side.
//! Whether a border is a safety contour goes by the areas beyond it, so areas of several kinds share edges.

use crate::tests::users::find_users;
use chart_model::{Settings, Shades, Target};
use depth_symbology::depare01;
use sample_rows::{Drawn, Row, SETTINGS, Setting, are_items, chart, feature, name, vector, whole};
use std::alloc::Global;
use std::test::Fail;

/// DRVAL1 and DRVAL2, and the colours by two shades and by four.
type ColourCase = (&'static [Setting], &'static [u8], &'static [u8]);

static COLOURS: [ColourCase; 24] = [
    // what dries, and depths from 0 on
    (&[], b"AC(DEPIT)", b"AC(DEPIT)"),
    (&[(88, b"30")], b"AC(DEPIT)", b"AC(DEPIT)"),
    (&[(87, b"-2"), (88, b"-1")], b"AC(DEPIT)", b"AC(DEPIT)"),
    (&[(87, b"-0.01"), (88, b"5")], b"AC(DEPIT)", b"AC(DEPIT)"),
    (&[(87, b"0"), (88, b"0")], b"AC(DEPIT)", b"AC(DEPIT)"),
    (&[(87, b"0"), (88, b"0.01")], b"AC(DEPVS)", b"AC(DEPVS)"),
    (&[(87, b"0")], b"AC(DEPVS)", b"AC(DEPVS)"),
    // the shallow contour
    (&[(87, b"4.99"), (88, b"30")], b"AC(DEPVS)", b"AC(DEPVS)"),
    (&[(87, b"5"), (88, b"5")], b"AC(DEPVS)", b"AC(DEPVS)"),
    (&[(87, b"5"), (88, b"5.01")], b"AC(DEPVS)", b"AC(DEPMS)"),
    (&[(87, b"5.01"), (88, b"30")], b"AC(DEPVS)", b"AC(DEPMS)"),
    // the safety contour
    (&[(87, b"9.99"), (88, b"30")], b"AC(DEPVS)", b"AC(DEPMS)"),
    (&[(87, b"10"), (88, b"10")], b"AC(DEPVS)", b"AC(DEPMS)"),
    (&[(87, b"10"), (88, b"10.01")], b"AC(DEPDW)", b"AC(DEPMD)"),
    (&[(87, b"10"), (88, b"20")], b"AC(DEPDW)", b"AC(DEPMD)"),
    (&[(87, b"10")], b"AC(DEPDW)", b"AC(DEPMD)"),
    (&[(87, b"10.01"), (88, b"20")], b"AC(DEPDW)", b"AC(DEPMD)"),
    // the deep contour
    (&[(87, b"19.99"), (88, b"30")], b"AC(DEPDW)", b"AC(DEPMD)"),
    (&[(87, b"20"), (88, b"20")], b"AC(DEPDW)", b"AC(DEPMD)"),
    (&[(87, b"20"), (88, b"20.01")], b"AC(DEPDW)", b"AC(DEPDW)"),
    (&[(87, b"20")], b"AC(DEPDW)", b"AC(DEPDW)"),
    (&[(87, b"20.01"), (88, b"30")], b"AC(DEPDW)", b"AC(DEPDW)"),
    // a greatest depth that isn't the greater
    (&[(87, b"10"), (88, b"5")], b"AC(DEPVS)", b"AC(DEPVS)"),
    (&[(87, b"30"), (88, b"6")], b"AC(DEPVS)", b"AC(DEPMS)"),
];

/// Whether the colour of an area is this.
fn has_colour(
    alloc: Global,
    attrs: &'static [Setting],
    shades: Shades,
    colour: &'static [u8],
) -> Result<bool, Fail> {
    let row = Row {
        attrs,
        ..feature!(3, 1, [])
    };
    let cell = chart(alloc, &[row])?;
    let users = find_users(alloc, &cell)?;
    let settings = Settings { shades, ..SETTINGS };
    let items = depare01(alloc, &cell, &users, &settings, name!(100, 1))?;
    Ok(are_items(&items, &[(Target::Whole, colour)]))
}

#[test]
fn colours(rt: HostRuntime) -> Result<(), Fail> {
    for (at, (attrs, two, four)) in COLOURS.iter().enumerate() {
        assert!(rt;
            has_colour(rt.alloc(), attrs, Shades::Two, two)?,
            "case {at}"
        );
        assert!(rt;
            has_colour(rt.alloc(), attrs, Shades::Four, four)?,
            "case {at}"
        );
    }
    Ok(())
}

/// An area of depths from 10 m to 20 m, which is safe at the safety contour of 10 m.
const SAFE: Row = Row {
    grup: 1,
    attrs: &[(87, b"10"), (88, b"20")],
    ..feature!(3, 1, [])
};

/// An area of depths from 9.99 m to 10 m, which isn't.
const UNSAFE: Row = Row {
    grup: 1,
    attrs: &[(87, b"9.99"), (88, b"10")],
    ..feature!(3, 1, [])
};

/// An area beside others: of this kind and number, and with pointers to these edges.
macro_rules! area {
    ($kind:expr, $number:expr, $($edge:expr),* $(,)?) => {
        Row {
            name: name!(100, $number),
            pointers: &[$((130, $edge, 1)),*],
            ..$kind
        }
    };
}

/// Edges with a quality of position, and areas along these edges and others, of which there are no records.
static CHART: [Row; 30] = [
    vector!(130, 1, [], []),
    Row {
        attrs: &[(402, b"1")],
        ..vector!(130, 2, [], [])
    },
    Row {
        attrs: &[(402, b"10")],
        ..vector!(130, 3, [], [])
    },
    Row {
        attrs: &[(402, b"11")],
        ..vector!(130, 4, [], [])
    },
    Row {
        attrs: &[(402, b"2")],
        ..vector!(130, 5, [], [])
    },
    Row {
        attrs: &[(402, b"")],
        ..vector!(130, 6, [], [])
    },
    // a safe and an unsafe area
    area!(SAFE, 1, 1, 2, 3, 4, 5, 6, 7),
    area!(UNSAFE, 2, 7, 6, 5, 4, 3, 2, 1),
    // two safe areas, two unsafe ones
    area!(SAFE, 3, 11),
    area!(SAFE, 4, 11),
    area!(UNSAFE, 5, 12),
    area!(UNSAFE, 6, 12),
    // the unsafe one is no part of the skin of the earth
    area!(SAFE, 7, 13),
    Row {
        grup: 2,
        ..area!(UNSAFE, 8, 13)
    },
    // or the safe one isn't
    Row {
        grup: 2,
        ..area!(SAFE, 9, 14)
    },
    area!(UNSAFE, 10, 14),
    // masked, cut by the data limit, both, shown, of an interior, without a mark; land is beyond, which masks an edge
    Row {
        marks: &[(1, 1), (3, 2), (3, 1), (1, 2), (2, 255)],
        ..area!(SAFE, 11, 15, 16, 17, 18, 19, 20)
    },
    Row {
        class: 71,
        attrs: &[],
        marks: &[(1, 1)],
        ..area!(UNSAFE, 12, 20, 15, 16, 17, 18, 19)
    },
    // an edge that is pointed to twice, between others
    area!(SAFE, 13, 21, 22, 21, 23),
    area!(UNSAFE, 14, 21),
    // dredged areas
    Row {
        class: 46,
        ..area!(SAFE, 15, 24)
    },
    Row {
        class: 46,
        ..area!(UNSAFE, 16, 24)
    },
    // a coastline
    area!(SAFE, 17, 25),
    Row {
        prim: 2,
        class: 30,
        ..area!(UNSAFE, 18, 25)
    },
    // land of a depth, which is no depth area
    Row {
        class: 71,
        ..area!(SAFE, 19, 26)
    },
    area!(UNSAFE, 20, 26),
    // no areas
    Row {
        prim: 1,
        ..area!(SAFE, 21, 1)
    },
    Row {
        prim: 2,
        ..area!(SAFE, 22, 1)
    },
    Row {
        prim: 255,
        ..area!(SAFE, 23, 1)
    },
    // unsafe areas on both sides of one that is safe
    area!(SAFE, 24, 12, 14),
];

/// The number of a feature, the safety contour in centimetres, whether the pattern is asked for, and what is drawn.
type Case = (u32, i32, bool, &'static [Drawn]);

static CASES: [Case; 33] = [
    (
        1,
        1_000,
        false,
        &[
            (Target::Whole, b"AC(DEPMD)"),
            (Target::Edge(1), b"LS(SOLID,2,DEPSC)"),
            (Target::Edge(2), b"LS(SOLID,2,DEPSC)"),
            (Target::Edge(3), b"LS(SOLID,2,DEPSC)"),
            (Target::Edge(4), b"LS(SOLID,2,DEPSC)"),
            (Target::Edge(5), b"LS(DASH,2,DEPSC)"),
            (Target::Edge(6), b"LS(DASH,2,DEPSC)"),
            (Target::Edge(7), b"LS(SOLID,2,DEPSC)"),
        ],
    ),
    (2, 1_000, false, whole![b"AC(DEPMS)"]),
    (2, 1_000, true, whole![b"AC(DEPMS)", b"AP(DIAMOND1)"]),
    // both are safe, and both aren't
    (1, 999, false, whole![b"AC(DEPMD)"]),
    (2, 999, false, whole![b"AC(DEPMD)"]),
    (2, 999, true, whole![b"AC(DEPMD)"]),
    (1, 1_001, false, whole![b"AC(DEPMS)"]),
    (1, 1_001, true, whole![b"AC(DEPMS)", b"AP(DIAMOND1)"]),
    (3, 1_000, false, whole![b"AC(DEPMD)"]),
    (4, 1_000, false, whole![b"AC(DEPMD)"]),
    (5, 1_000, false, whole![b"AC(DEPMS)"]),
    (6, 1_000, false, whole![b"AC(DEPMS)"]),
    (7, 1_000, false, whole![b"AC(DEPMD)"]),
    (8, 1_000, false, whole![b"AC(DEPMS)"]),
    (
        9,
        1_000,
        false,
        &[
            (Target::Whole, b"AC(DEPMD)"),
            (Target::Edge(14), b"LS(SOLID,2,DEPSC)"),
        ],
    ),
    (10, 1_000, false, whole![b"AC(DEPMS)"]),
    (
        11,
        1_000,
        false,
        &[
            (Target::Whole, b"AC(DEPMD)"),
            (Target::Edge(18), b"LS(SOLID,2,DEPSC)"),
            (Target::Edge(19), b"LS(SOLID,2,DEPSC)"),
            (Target::Edge(20), b"LS(SOLID,2,DEPSC)"),
        ],
    ),
    (12, 1_000, true, whole![b"AC(DEPIT)", b"AP(DIAMOND1)"]),
    (
        13,
        1_000,
        true,
        &[
            (Target::Whole, b"AC(DEPMD)"),
            (Target::Edge(21), b"LS(SOLID,2,DEPSC)"),
            (Target::Edge(21), b"LS(SOLID,2,DEPSC)"),
        ],
    ),
    (14, 1_000, false, whole![b"AC(DEPMS)"]),
    (
        15,
        1_000,
        true,
        &[
            (Target::Whole, b"AC(DEPMD)"),
            (Target::Whole, b"AP(DRGARE01)"),
            (Target::Whole, b"LS(DASH,1,CHGRF)"),
            (Target::Edge(24), b"LS(SOLID,2,DEPSC)"),
        ],
    ),
    (
        16,
        1_000,
        false,
        whole![b"AC(DEPMS)", b"AP(DRGARE01)", b"LS(DASH,1,CHGRF)"],
    ),
    (
        16,
        1_000,
        true,
        whole![
            b"AC(DEPMS)",
            b"AP(DIAMOND1)",
            b"AP(DRGARE01)",
            b"LS(DASH,1,CHGRF)",
        ],
    ),
    (17, 1_000, false, whole![b"AC(DEPMD)"]),
    (18, 1_000, false, &[]),
    (19, 1_000, false, whole![b"AC(DEPMD)"]),
    (20, 1_000, false, whole![b"AC(DEPMS)"]),
    (21, 1_000, true, &[]),
    (22, 1_000, true, &[]),
    (23, 1_000, true, &[]),
    (
        24,
        1_000,
        false,
        &[
            (Target::Whole, b"AC(DEPMD)"),
            (Target::Edge(12), b"LS(SOLID,2,DEPSC)"),
            (Target::Edge(14), b"LS(SOLID,2,DEPSC)"),
        ],
    ),
    // no such feature
    (25, 1_000, true, &[]),
    (0, 1_000, true, &[]),
];

#[test]
fn depth_areas(rt: HostRuntime) -> Result<(), Fail> {
    let cell = chart(rt.alloc(), &CHART)?;
    let users = find_users(rt.alloc(), &cell)?;
    for (number, safety_contour, pattern, wanted) in &CASES {
        let settings = Settings {
            safety_contour: *safety_contour,
            pattern: *pattern,
            ..SETTINGS
        };
        let items = depare01(rt.alloc(), &cell, &users, &settings, name!(100, *number))?;
        assert!(rt; are_items(&items, wanted), "{number} {safety_contour}");
    }
    Ok(())
}
