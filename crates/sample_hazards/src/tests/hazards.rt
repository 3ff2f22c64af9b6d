//! What is drawn of wrecks, rocks and obstructions.
//!
//! Both procedures are asked for each object, since they draw by the same rules. What is drawn goes by the depth over
//! the hazard, by the areas around it and by the settings, so cases stand at these limits and one centimetre beside
//! them.

use crate::tests::squares::{BETWEEN, DEEP, NOWHERE, OUTSIDE, SHALLOW, SQUARES, object};
use chart_model::{Settings, Target};
use depth_values::codes::{OBSTRN, UWTROC, WRECKS};
use hazard_symbology::{obstrn04, wrecks02};
use sample_rows::{
    Drawn, Item, Mark, Row, SETTINGS, Setting, add_rows, are_items, chart, edges, feature, name,
    whole,
};
use std::alloc::Global;
use std::test::Fail;

/// A class that none of the rules names.
const PILPNT: u16 = 90;

/// The safety contour in centimetres, a class, attributes, a place, and what is drawn.
type PointCase = (
    i32,
    u16,
    &'static [Setting],
    &'static [Item],
    &'static [Drawn],
);

static POINTS: [PointCase; 47] = [
    // at the safety contour, over an area that is safe at it
    (500, OBSTRN, &[(179, b"5")], DEEP, whole![b"SY(ISODGR01)"]),
    // deeper than the safety contour
    (
        500,
        OBSTRN,
        &[(179, b"5.01")],
        DEEP,
        whole![b"SY(DANGER01)", b"SY(SOUNDS15)"],
    ),
    // the area isn't safe
    (
        501,
        OBSTRN,
        &[(179, b"5.01")],
        DEEP,
        whole![b"SY(DANGER01)", b"SY(SOUNDS15)"],
    ),
    (
        500,
        OBSTRN,
        &[(179, b"5")],
        SHALLOW,
        whole![b"SY(DANGER01)", b"SY(SOUNDS15)"],
    ),
    // one of two areas is
    (
        500,
        OBSTRN,
        &[(179, b"5")],
        BETWEEN,
        whole![b"SY(ISODGR01)"],
    ),
    // there is no area, or no shape
    (
        500,
        OBSTRN,
        &[(179, b"5")],
        OUTSIDE,
        whole![b"SY(DANGER01)", b"SY(SOUNDS15)"],
    ),
    (
        500,
        OBSTRN,
        &[(179, b"5")],
        NOWHERE,
        whole![b"SY(DANGER01)", b"SY(SOUNDS15)"],
    ),
    (500, WRECKS, &[(179, b"-1")], DEEP, whole![b"SY(ISODGR01)"]),
    (
        500,
        UWTROC,
        &[(179, b"4.99")],
        DEEP,
        whole![b"SY(ISODGR01)"],
    ),
    (500, PILPNT, &[(179, b"5")], DEEP, whole![b"SY(ISODGR01)"]),
    // at the safety depth, and one over it
    (
        500,
        UWTROC,
        &[(179, b"30"), (187, b"4")],
        DEEP,
        whole![b"SY(DANGER01)", b"SY(SOUNDS13)", b"SY(SOUNDS00)"],
    ),
    (
        500,
        WRECKS,
        &[(179, b"30.01"), (71, b"4")],
        DEEP,
        whole![b"SY(DANGER02)", b"SY(SOUNDG13)", b"SY(SOUNDG00)"],
    ),
    (
        500,
        PILPNT,
        &[(179, b"-0.5")],
        OUTSIDE,
        whole![
            b"SY(DANGER01)",
            b"SY(SOUNDSA1)",
            b"SY(SOUNDS10)",
            b"SY(SOUNDS55)"
        ],
    ),
    // of unknown depth, over areas: what dries, what isn't dangerous, and what lies at the bottom
    (500, OBSTRN, &[], DEEP, whole![b"SY(ISODGR01)"]),
    (500, OBSTRN, &[], SHALLOW, whole![b"SY(OBSTRN01)"]),
    (500, WRECKS, &[(71, b"1")], DEEP, whole![b"SY(WRECKS04)"]),
    (500, WRECKS, &[(71, b"4")], DEEP, whole![b"SY(ISODGR01)"]),
    (
        500,
        OBSTRN,
        &[(187, b"3"), (93, b"1")],
        DEEP,
        whole![b"SY(ISODGR01)"],
    ),
    (
        499,
        OBSTRN,
        &[(187, b"3"), (93, b"1")],
        DEEP,
        whole![b"SY(OBSTRN01)"],
    ),
    (
        500,
        OBSTRN,
        &[(187, b"3"), (93, b"1")],
        BETWEEN,
        whole![b"SY(ISODGR01)"],
    ),
    (
        500,
        OBSTRN,
        &[(187, b"3"), (93, b"1")],
        SHALLOW,
        whole![b"SY(OBSTRN01)"],
    ),
    // wrecks of unknown depth, by their category alone
    (500, WRECKS, &[(71, b"4")], OUTSIDE, whole![b"SY(WRECKS01)"]),
    (500, WRECKS, &[(71, b"5")], OUTSIDE, whole![b"SY(WRECKS01)"]),
    (500, WRECKS, &[(71, b"1")], OUTSIDE, whole![b"SY(WRECKS04)"]),
    (500, WRECKS, &[(71, b"2")], OUTSIDE, whole![b"SY(WRECKS05)"]),
    (500, WRECKS, &[(71, b"3")], OUTSIDE, whole![b"SY(WRECKS05)"]),
    (500, WRECKS, &[(71, b"")], OUTSIDE, whole![b"SY(WRECKS05)"]),
    (
        500,
        WRECKS,
        &[(71, b"1,4")],
        OUTSIDE,
        whole![b"SY(WRECKS05)"],
    ),
    (500, WRECKS, &[], OUTSIDE, whole![b"SY(WRECKS05)"]),
    (
        500,
        WRECKS,
        &[(187, b"4")],
        OUTSIDE,
        whole![b"SY(WRECKS05)"],
    ),
    // rocks, by the water level
    (
        500,
        UWTROC,
        &[(187, b"4")],
        OUTSIDE,
        whole![b"SY(UWTROC04)"],
    ),
    (
        500,
        UWTROC,
        &[(187, b"5")],
        OUTSIDE,
        whole![b"SY(UWTROC04)"],
    ),
    (
        500,
        UWTROC,
        &[(187, b"3")],
        OUTSIDE,
        whole![b"SY(UWTROC03)"],
    ),
    (500, UWTROC, &[], OUTSIDE, whole![b"SY(UWTROC03)"]),
    (500, UWTROC, &[(71, b"4")], OUTSIDE, whole![b"SY(UWTROC03)"]),
    // obstructions and all others, by the water level
    (
        500,
        OBSTRN,
        &[(187, b"4")],
        OUTSIDE,
        whole![b"SY(OBSTRN03)"],
    ),
    (
        500,
        OBSTRN,
        &[(187, b"5")],
        OUTSIDE,
        whole![b"SY(OBSTRN03)"],
    ),
    (
        500,
        OBSTRN,
        &[(187, b"3")],
        OUTSIDE,
        whole![b"SY(OBSTRN01)"],
    ),
    (500, OBSTRN, &[(187, b"")], OUTSIDE, whole![b"SY(OBSTRN01)"]),
    (
        500,
        OBSTRN,
        &[(187, b"4,5")],
        OUTSIDE,
        whole![b"SY(OBSTRN01)"],
    ),
    (500, OBSTRN, &[], OUTSIDE, whole![b"SY(OBSTRN01)"]),
    (
        500,
        PILPNT,
        &[(187, b"4")],
        OUTSIDE,
        whole![b"SY(OBSTRN03)"],
    ),
    (500, PILPNT, &[(71, b"4")], OUTSIDE, whole![b"SY(OBSTRN01)"]),
    // a depth that is none
    (500, OBSTRN, &[(179, b"")], OUTSIDE, whole![b"SY(OBSTRN01)"]),
    (
        500,
        OBSTRN,
        &[(179, b"5m")],
        OUTSIDE,
        whole![b"SY(OBSTRN01)"],
    ),
    (
        500,
        UWTROC,
        &[(179, b"100000")],
        OUTSIDE,
        whole![b"SY(UWTROC03)"],
    ),
    (
        500,
        WRECKS,
        &[(179, b"-100000")],
        OUTSIDE,
        whole![b"SY(WRECKS05)"],
    ),
];

/// Whether these are the items of the feature 9, by both procedures, among the squares.
fn draws(alloc: Global, contour: i32, row: &Row, wanted: &[Drawn]) -> Result<bool, Fail> {
    let mut cell = chart(alloc, &SQUARES)?;
    add_rows(alloc, &mut cell, &[*row])?;
    let settings = Settings {
        safety_contour: contour,
        ..SETTINGS
    };
    let items = obstrn04(alloc, &cell, &settings, name!(100, 9))?;
    let same = wrecks02(alloc, &cell, &settings, name!(100, 9))?;
    Ok(are_items(&items, wanted) && are_items(&same, wanted))
}

#[test]
fn points(rt: HostRuntime) -> Result<(), Fail> {
    for (at, (contour, class, attrs, place, wanted)) in POINTS.iter().enumerate() {
        let row = object(*class, attrs, place);
        assert!(rt; draws(rt.alloc(), *contour, &row, wanted)?, "case {at}");
    }
    Ok(())
}

const EDGES: &[Item] = &[(130, 1, 1), (130, 2, 1)];

const TWICE: &[Item] = &[(130, 1, 1), (130, 2, 1), (130, 1, 2)];

const SIX: &[Item] = &[
    (130, 1, 1),
    (130, 2, 1),
    (130, 3, 1),
    (130, 4, 1),
    (130, 5, 1),
    (130, 6, 1),
];

/// Masked, cut by the data limit, both, shown, of an interior; the others are without a mark.
const MARKS: &[Mark] = &[(1, 1), (3, 2), (3, 1), (1, 2), (2, 255)];

/// A primitive, VALSOU, pointers, their marks, and what is drawn at a safety contour of 5 m.
type EdgesCase = (
    u8,
    &'static [Setting],
    &'static [Item],
    &'static [Mark],
    &'static [Drawn],
);

static LINES: [EdgesCase; 20] = [
    // lines at the safety contour, and one over it
    (
        2,
        &[(179, b"5")],
        EDGES,
        &[],
        edges![b"LS(DOTT,2,CHBLK)", 1, 2],
    ),
    (
        2,
        &[(179, b"5.01")],
        EDGES,
        &[],
        edges![b"LS(DASH,1,CHBLK)", 1, 2],
    ),
    (2, &[], EDGES, &[], edges![b"LS(DOTT,2,CHBLK)", 1, 2]),
    // the least depth of the areas under the line is 2 m
    (
        2,
        &[(187, b"3"), (93, b"1")],
        EDGES,
        &[],
        edges![b"LS(DOTT,2,CHBLK)", 1, 2],
    ),
    (
        2,
        &[(179, b"5")],
        TWICE,
        &[],
        edges![b"LS(DOTT,2,CHBLK)", 1, 2, 1],
    ),
    (
        2,
        &[(179, b"6")],
        TWICE,
        &[],
        edges![b"LS(DASH,1,CHBLK)", 1, 2, 1],
    ),
    (
        2,
        &[(179, b"5")],
        SIX,
        MARKS,
        edges![b"LS(DOTT,2,CHBLK)", 4, 5, 6],
    ),
    (
        2,
        &[(179, b"6")],
        SIX,
        MARKS,
        edges![b"LS(DASH,1,CHBLK)", 4, 5, 6],
    ),
    (2, &[(179, b"5")], EDGES, MARKS, &[]),
    (2, &[(179, b"5")], &[], &[], &[]),
    // areas
    (
        3,
        &[(179, b"5")],
        EDGES,
        &[],
        &[
            (Target::Whole, b"AP(FOULAR01)"),
            (Target::Edge(1), b"LS(DOTT,2,CHBLK)"),
            (Target::Edge(2), b"LS(DOTT,2,CHBLK)"),
        ],
    ),
    (
        3,
        &[(179, b"5.01")],
        EDGES,
        &[],
        edges![b"LS(DASH,2,CHGRD)", 1, 2],
    ),
    (
        3,
        &[(71, b"1")],
        EDGES,
        &[],
        edges![b"LS(DASH,2,CHGRD)", 1, 2],
    ),
    (
        3,
        &[(179, b"6")],
        TWICE,
        &[],
        edges![b"LS(DASH,2,CHGRD)", 1, 2, 1],
    ),
    (
        3,
        &[(179, b"5")],
        SIX,
        MARKS,
        &[
            (Target::Whole, b"AP(FOULAR01)"),
            (Target::Edge(4), b"LS(DOTT,2,CHBLK)"),
            (Target::Edge(5), b"LS(DOTT,2,CHBLK)"),
            (Target::Edge(6), b"LS(DOTT,2,CHBLK)"),
        ],
    ),
    (3, &[(179, b"5")], EDGES, MARKS, whole![b"AP(FOULAR01)"]),
    (3, &[(179, b"6")], EDGES, MARKS, &[]),
    (3, &[], &[], &[], whole![b"AP(FOULAR01)"]),
    // no geometry
    (255, &[(179, b"5")], EDGES, &[], &[]),
    (255, &[], &[], &[], &[]),
];

#[test]
fn lines_and_areas(rt: HostRuntime) -> Result<(), Fail> {
    for (at, (prim, attrs, pointers, marks, wanted)) in LINES.iter().enumerate() {
        let row = Row {
            prim: *prim,
            class: WRECKS,
            attrs: *attrs,
            pointers: *pointers,
            marks: *marks,
            ..feature!(3, 9, [])
        };
        assert!(rt; draws(rt.alloc(), 500, &row, wanted)?, "case {at}");
    }
    // a feature of another number
    assert!(rt; draws(rt.alloc(), 500, &feature!(3, 8, []), &[])?);
    Ok(())
}
