//! Settings of attributes, few enough to be made in their places and one more.
//!
//! Up to 32 settings are made one after the other, and more are merged with the attributes in one pass. So 31, 32 and
//! 33 of them are tried, and an attribute that was there before is among those that are set.

use super::{Case, EDGE, EDGE_CHANGE, FEATURE, FEATURE_CHANGE, hold};
use sample_rows::{Row, Setting};
use std::test::Fail;

/// Settings of the codes 1 to 33: of the code 7, which the records have, too.
static SETTINGS: [Setting; 33] = [
    (1, b"101"),
    (2, b"102"),
    (3, b"103"),
    (4, b"104"),
    (5, b"105"),
    (6, b"106"),
    (7, b"107"),
    (8, b"108"),
    (9, b"109"),
    (10, b"110"),
    (11, b"111"),
    (12, b"112"),
    (13, b"113"),
    (14, b"114"),
    (15, b"115"),
    (16, b"116"),
    (17, b"117"),
    (18, b"118"),
    (19, b"119"),
    (20, b"120"),
    (21, b"121"),
    (22, b"122"),
    (23, b"123"),
    (24, b"124"),
    (25, b"125"),
    (26, b"126"),
    (27, b"127"),
    (28, b"128"),
    (29, b"129"),
    (30, b"130"),
    (31, b"131"),
    (32, b"132"),
    (33, b"133"),
];

/// A modification of a record by settings, and what it leaves.
fn case(before: Row, change: Row, attrs: &'static [Setting]) -> Case {
    Case {
        before: Some(before),
        change: Row { attrs, ..change },
        answer: Ok(()),
        after: Some(Row {
            version: 2,
            attrs,
            ..before
        }),
    }
}

#[test]
fn many_settings_in_one_change(rt: HostRuntime) -> Result<(), Fail> {
    for attrs in [&SETTINGS[..31], &SETTINGS[..32], &SETTINGS[..33]] {
        let count = attrs.len();
        hold(&rt, rt.alloc(), count, &case(EDGE, EDGE_CHANGE, attrs))?;
        hold(
            &rt,
            rt.alloc(),
            count,
            &case(FEATURE, FEATURE_CHANGE, attrs),
        )?;
    }
    Ok(())
}
