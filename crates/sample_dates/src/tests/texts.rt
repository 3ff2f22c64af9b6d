//! Texts that are in none of the forms, and bound nothing.

use super::features::{DATEND, DATSTA, PEREND, PERSTA, dated, expect};
use std::test::Fail;

/// Texts of wrong lengths and with other bytes than digits; years, months and days that the calendar hasn't; days and
/// months of every year that a leap year hasn't, or of wrong lengths.
static TEXTS: [&[u8]; 36] = [
    b"",
    b"2",
    b"202",
    b"20241",
    b"2024011",
    b"202401011",
    b"soon",
    b"2024-01",
    b"+202",
    b" 202",
    b"2024 ",
    b"0000",
    b"000001",
    b"00000101",
    b"202400",
    b"202413",
    b"20240001",
    b"20241301",
    b"20240100",
    b"20240431",
    b"20230229",
    b"19000229",
    b"-",
    b"--",
    b"--1",
    b"--00",
    b"--13",
    b"--0012",
    b"--1301",
    b"--0100",
    b"--0230",
    b"--0431",
    b"--011",
    b"--01011",
    b"-0101",
    b"---01",
];

#[test]
fn texts_that_bound_nothing(rt: HostRuntime) -> Result<(), Fail> {
    let alloc = rt.alloc();
    for (at, text) in TEXTS.iter().enumerate() {
        let all = dated(
            alloc,
            &[
                (DATSTA, text),
                (DATEND, text),
                (PERSTA, text),
                (PEREND, text),
            ],
        )?;
        expect(&rt, &all, b"00010101", true, at);
        expect(&rt, &all, b"99991231", true, at);
        let end = dated(alloc, &[(PERSTA, b"--1231"), (PEREND, text)])?;
        expect(&rt, &end, b"20240601", true, at);
        let start = dated(alloc, &[(PERSTA, text), (PEREND, b"--1231")])?;
        expect(&rt, &start, b"20240101", true, at);
    }
    Ok(())
}
