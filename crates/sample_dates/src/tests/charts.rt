//! Charts of a day.

use super::features::{DATEND, DATSTA, PEREND, PERSTA};
use chart_difference::changed_names;
use chart_model::{Cell, Name};
use date_display::{read_day, visible};
use sample_rows::{Row, chart, feature, name, vector};
use std::alloc::Global;
use std::process::Abort;
use std::test::Fail;

const NODE: Row = vector!(110, 1, [], [(1, 2, 0)]);

const LIGHT: Row = feature!(1, 1, [(110, 1, 255)]);

/// A buoy of winters.
const BUOY: Row = Row {
    attrs: &[(PERSTA, b"--1101"), (PEREND, b"--0331")],
    ..feature!(1, 2, [(110, 1, 255)])
};

/// An area for June 2024.
const AREA: Row = Row {
    attrs: &[(DATSTA, b"202406"), (DATEND, b"202406")],
    ..feature!(3, 70000, [])
};

/// The rows of a chart, the days, and the names that aren't shown then.
type Case = (&'static [Row], &'static [(&'static [u8], &'static [Name])]);

static CASES: [Case; 4] = [
    (&[], &[(b"20240101", &[])]),
    (&[NODE, LIGHT], &[(b"00010101", &[]), (b"99991231", &[])]),
    (
        &[NODE, LIGHT, BUOY, AREA],
        &[
            (b"20240115", &[name!(100, 70000)]),
            (b"20240615", &[name!(100, 2)]),
            (b"20240715", &[name!(100, 2), name!(100, 70000)]),
        ],
    ),
    (
        &[NODE, BUOY, AREA],
        &[(b"20240715", &[name!(100, 2), name!(100, 70000)])],
    ),
];

/// The chart of a day has the header and the records of its cell, but for these.
fn hold(
    rt: &impl Abort,
    alloc: Global,
    cell: &Cell,
    day: &[u8],
    hidden: &[Name],
) -> Result<(), Fail> {
    let day = read_day(day).ok_or("a day")?;
    let shown = visible(alloc, cell, day)?;
    let missing = changed_names(alloc, Some(cell), Some(&shown))?;
    assert_eq!(rt; missing.as_slice(), hidden);
    for name in hidden {
        assert!(rt; cell.features.contains(*name) && !shown.features.contains(*name));
    }
    assert_eq!(rt; shown.vectors.len(), cell.vectors.len());
    assert!(rt;
        shown.header.update == cell.header.update && shown.header.scale == cell.header.scale
    );
    Ok(())
}

#[test]
fn charts(rt: HostRuntime) -> Result<(), Fail> {
    for (rows, days) in &CASES {
        let cell = chart(rt.alloc(), rows)?;
        for (day, hidden) in *days {
            hold(&rt, rt.alloc(), &cell, day, hidden)?;
        }
    }
    Ok(())
}
