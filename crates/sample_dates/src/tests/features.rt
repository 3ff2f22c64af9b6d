//! The days on which features are shown, worked out by hand.

use chart_model::{AttrMap, Feature, Octets, Sequence};
use date_display::{read_day, shown_on};
use sample_rows::{FOID, Setting};
use std::alloc::{AllocError, Global};
use std::process::Abort;
use std::test::Fail;

/// The end of the time in which a feature is there.
pub const DATEND: u16 = 85;

/// The start of the time in which a feature is there.
pub const DATSTA: u16 = 86;

/// The end of its period.
pub const PEREND: u16 = 118;

/// The start of its period.
pub const PERSTA: u16 = 119;

/// What a feature has, and days with whether it is shown on them.
type Case = (&'static [Setting], &'static [(&'static [u8], bool)]);

/// Features with nothing, with one end alone, with both, and with periods of every year.
static CASES: [Case; 30] = [
    (&[], &[(b"00010101", true), (b"99991231", true)]),
    (
        &[(DATSTA, b"20240229")],
        &[
            (b"20240228", false),
            (b"20240229", true),
            (b"99991231", true),
        ],
    ),
    (
        &[(DATEND, b"20240630")],
        &[
            (b"00010101", true),
            (b"20240630", true),
            (b"20240701", false),
        ],
    ),
    (
        &[(DATEND, b"202402")],
        &[(b"20240229", true), (b"20240301", false)],
    ),
    (
        &[(DATEND, b"202302")],
        &[(b"20230228", true), (b"20230301", false)],
    ),
    (
        &[(DATSTA, b"202302")],
        &[(b"20230131", false), (b"20230201", true)],
    ),
    (
        &[(DATEND, b"2023")],
        &[(b"20231231", true), (b"20240101", false)],
    ),
    (
        &[(DATSTA, b"2023")],
        &[(b"20221231", false), (b"20230101", true)],
    ),
    (
        &[(DATEND, b"0001")],
        &[
            (b"00010101", true),
            (b"00011231", true),
            (b"00020101", false),
        ],
    ),
    (
        &[(DATSTA, b"9999")],
        &[(b"99981231", false), (b"99990101", true)],
    ),
    (
        &[(DATSTA, b"99991231"), (DATEND, b"99991231")],
        &[(b"99991230", false), (b"99991231", true)],
    ),
    (
        &[(DATSTA, b"20240704"), (DATEND, b"20240704")],
        &[
            (b"20240703", false),
            (b"20240704", true),
            (b"20240705", false),
        ],
    ),
    (
        &[(DATSTA, b"20240705"), (DATEND, b"20240704")],
        &[(b"20240704", false), (b"20240705", false)],
    ),
    (&[(DATSTA, b"--12")], &[(b"20240101", true)]),
    (&[(DATEND, b"--01")], &[(b"20241231", true)]),
    (
        &[(PERSTA, b"20240601")],
        &[(b"20240531", false), (b"20240601", true)],
    ),
    (
        &[(PEREND, b"202406")],
        &[(b"20240630", true), (b"20240701", false)],
    ),
    (&[(PERSTA, b"--1101")], &[(b"20240601", true)]),
    (&[(PEREND, b"--0331")], &[(b"20240601", true)]),
    (
        &[(PERSTA, b"--0415"), (PEREND, b"--1015")],
        &[
            (b"20240414", false),
            (b"20240415", true),
            (b"20241015", true),
            (b"20241016", false),
        ],
    ),
    (
        &[(PERSTA, b"--1101"), (PEREND, b"--0331")],
        &[
            (b"20240115", true),
            (b"20240331", true),
            (b"20240401", false),
            (b"20240601", false),
            (b"20241031", false),
            (b"20241101", true),
        ],
    ),
    (
        &[(PERSTA, b"--11"), (PEREND, b"--02")],
        &[
            (b"20241031", false),
            (b"20241231", true),
            (b"20240229", true),
            (b"20240301", false),
        ],
    ),
    (
        &[(PERSTA, b"--0704"), (PEREND, b"--0704")],
        &[
            (b"20240703", false),
            (b"20240704", true),
            (b"20240705", false),
        ],
    ),
    (
        &[(PERSTA, b"--0101"), (PEREND, b"--0229")],
        &[(b"20240229", true), (b"20230301", false)],
    ),
    (
        &[(PERSTA, b"2024"), (PEREND, b"--06")],
        &[(b"20231231", false), (b"20240801", true)],
    ),
    (
        &[(PERSTA, b"--06"), (PEREND, b"2024")],
        &[(b"20240101", true), (b"20250701", false)],
    ),
    (
        &[(DATSTA, b"--1101"), (PEREND, b"--0331")],
        &[(b"20240601", true)],
    ),
    (
        &[(PERSTA, b"--1101"), (DATEND, b"--0331")],
        &[(b"20240601", true)],
    ),
    (
        &[(DATSTA, b"2024"), (PERSTA, b"--12"), (PEREND, b"--01")],
        &[
            (b"20230101", false),
            (b"20240101", true),
            (b"20240201", false),
            (b"20241201", true),
        ],
    ),
    (&[(DATSTA, b"soon")], &[(b"20240101", true)]),
];

/// A feature with these attributes.
pub fn dated(alloc: Global, settings: &[Setting]) -> Result<Feature, AllocError> {
    let mut attrs = AttrMap::new(alloc);
    for (code, text) in settings {
        attrs.set(*code, Octets::from_slice(alloc, text)?)?;
    }
    Ok(Feature {
        prim: 1,
        grup: 2,
        class: 1,
        version: 1,
        foid: FOID,
        attrs,
        related: Sequence::new(alloc),
        pointers: Sequence::new(alloc),
    })
}

/// Asserts whether a feature is shown on a day.
pub fn expect(rt: &impl Abort, feature: &Feature, day: &[u8], shown: bool, at: usize) {
    match read_day(day) {
        Some(day) => assert_eq!(rt; shown_on(feature, day), shown, "at {at}"),
        None => assert!(rt; false, "no day at {at}"),
    }
}

#[test]
fn features(rt: HostRuntime) -> Result<(), Fail> {
    for (at, (settings, days)) in CASES.iter().enumerate() {
        let feature = dated(rt.alloc(), settings)?;
        for (day, shown) in *days {
            expect(&rt, &feature, day, *shown, at);
        }
    }
    Ok(())
}
