//! What is drawn of soundings.
//!
//! One feature has several soundings, each drawn at its own place, and a place without a depth, which isn't drawn. A
//! feature without a shape draws nothing, also where one of its nodes is there.

use crate::tests::users::find_users;
use chart_model::{Settings, Target};
use depth_symbology::soundg02;
use sample_rows::{Drawn, Row, SETTINGS, are_items, chart, feature, name, vector};
use std::test::Fail;

/// Five soundings, a place without a depth, and an edge.
static CHART: [Row; 10] = [
    Row {
        deep: true,
        depths: &[-12, 99, 305, 315, 1_230],
        ..vector!(
            110,
            1,
            [],
            [
                (20, 20, 0),
                (30, 20, 0),
                (40, 20, 0),
                (150, 20, 0),
                (160, 20, 0)
            ],
        )
    },
    vector!(120, 1, [], [(7, 7, 0)]),
    vector!(130, 1, [(120, 1, 1), (120, 1, 2)], [(8, 7, 0), (8, 8, 0)]),
    feature!(1, 1, [(110, 1, 255), (120, 1, 255)]),
    feature!(1, 2, [(120, 1, 255)]),
    feature!(1, 3, []),
    feature!(2, 4, [(130, 1, 1)]),
    feature!(3, 5, [(130, 1, 1)]),
    feature!(255, 6, [(110, 1, 255)]),
    // there is no node 9
    feature!(1, 7, [(110, 1, 255), (110, 9, 255)]),
];

/// The number of a feature, the safety depth in centimetres, and what is drawn.
type Case = (u32, i32, &'static [Drawn]);

static CASES: [Case; 9] = [
    (
        1,
        3_000,
        &[
            (Target::At(20, 20), b"SY(SOUNDSA1)"),
            (Target::At(20, 20), b"SY(SOUNDS11)"),
            (Target::At(20, 20), b"SY(SOUNDS52)"),
            (Target::At(30, 20), b"SY(SOUNDS19)"),
            (Target::At(30, 20), b"SY(SOUNDS59)"),
            (Target::At(40, 20), b"SY(SOUNDG23)"),
            (Target::At(40, 20), b"SY(SOUNDG10)"),
            (Target::At(40, 20), b"SY(SOUNDG55)"),
            (Target::At(150, 20), b"SY(SOUNDG13)"),
            (Target::At(150, 20), b"SY(SOUNDG01)"),
            (Target::At(160, 20), b"SY(SOUNDG21)"),
            (Target::At(160, 20), b"SY(SOUNDG12)"),
            (Target::At(160, 20), b"SY(SOUNDG03)"),
        ],
    ),
    // the third sounding is at the safety depth
    (
        1,
        3_050,
        &[
            (Target::At(20, 20), b"SY(SOUNDSA1)"),
            (Target::At(20, 20), b"SY(SOUNDS11)"),
            (Target::At(20, 20), b"SY(SOUNDS52)"),
            (Target::At(30, 20), b"SY(SOUNDS19)"),
            (Target::At(30, 20), b"SY(SOUNDS59)"),
            (Target::At(40, 20), b"SY(SOUNDS23)"),
            (Target::At(40, 20), b"SY(SOUNDS10)"),
            (Target::At(40, 20), b"SY(SOUNDS55)"),
            (Target::At(150, 20), b"SY(SOUNDG13)"),
            (Target::At(150, 20), b"SY(SOUNDG01)"),
            (Target::At(160, 20), b"SY(SOUNDG21)"),
            (Target::At(160, 20), b"SY(SOUNDG12)"),
            (Target::At(160, 20), b"SY(SOUNDG03)"),
        ],
    ),
    (2, 3_000, &[]),
    (3, 3_000, &[]),
    (4, 3_000, &[]),
    (5, 3_000, &[]),
    (6, 3_000, &[]),
    (7, 3_000, &[]),
    // no such feature
    (99, 3_000, &[]),
];

#[test]
fn soundings(rt: HostRuntime) -> Result<(), Fail> {
    let cell = chart(rt.alloc(), &CHART)?;
    let users = find_users(rt.alloc(), &cell)?;
    for (number, safety_depth, wanted) in &CASES {
        let settings = Settings {
            safety_depth: *safety_depth,
            ..SETTINGS
        };
        let items = soundg02(rt.alloc(), &cell, &users, &settings, name!(100, *number))?;
        assert!(rt; are_items(&items, wanted), "{number} {safety_depth}");
    }
    Ok(())
}
