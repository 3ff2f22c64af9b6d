//! The digits of depths.
//!
//! The cells change their places at 10, 31, 100, 1,000 and 10,000 metres, so depths stand on both sides of each. Many
//! have tenths or centimetres that are not drawn.

use depth_values::{Digits, digit_cells, digits_write_depths};
use std::test::Fail;

/// A depth and the safety depth in centimetres, the prefix, and the cells.
type DigitsCase = (i32, i32, &'static [u8; 6], &'static [&'static [u8; 2]]);

static DIGITS: [DigitsCase; 36] = [
    (0, 3_000, b"SOUNDS", &[b"10"]),
    (9, 3_000, b"SOUNDS", &[b"10"]),
    (10, 3_000, b"SOUNDS", &[b"10", b"51"]),
    (99, 3_000, b"SOUNDS", &[b"10", b"59"]),
    (900, 3_000, b"SOUNDS", &[b"19"]),
    (990, 3_000, b"SOUNDS", &[b"19", b"59"]),
    (1_000, 3_000, b"SOUNDS", &[b"11", b"00"]),
    (1_010, 3_000, b"SOUNDS", &[b"21", b"10", b"51"]),
    (1_500, 3_000, b"SOUNDS", &[b"11", b"05"]),
    // at the safety depth, and one over it
    (3_000, 3_000, b"SOUNDS", &[b"13", b"00"]),
    (3_001, 3_000, b"SOUNDG", &[b"13", b"00"]),
    (3_050, 3_000, b"SOUNDG", &[b"23", b"10", b"55"]),
    (3_099, 3_100, b"SOUNDS", &[b"23", b"10", b"59"]),
    (3_100, 3_000, b"SOUNDG", &[b"13", b"01"]),
    (3_150, 3_000, b"SOUNDG", &[b"13", b"01"]),
    (9_900, 3_000, b"SOUNDG", &[b"19", b"09"]),
    (9_999, 3_000, b"SOUNDG", &[b"19", b"09"]),
    (10_000, 3_000, b"SOUNDG", &[b"21", b"10", b"00"]),
    (10_050, 3_000, b"SOUNDG", &[b"21", b"10", b"00"]),
    (12_300, 3_000, b"SOUNDG", &[b"21", b"12", b"03"]),
    (99_900, 3_000, b"SOUNDG", &[b"29", b"19", b"09"]),
    (99_990, 3_000, b"SOUNDG", &[b"29", b"19", b"09"]),
    (100_000, 3_000, b"SOUNDG", &[b"21", b"10", b"00", b"40"]),
    (100_090, 3_000, b"SOUNDG", &[b"21", b"10", b"00", b"40"]),
    (999_900, 3_000, b"SOUNDG", &[b"29", b"19", b"09", b"49"]),
    (999_990, 3_000, b"SOUNDG", &[b"29", b"19", b"09", b"49"]),
    (
        1_000_000,
        3_000,
        b"SOUNDG",
        &[b"31", b"20", b"10", b"00", b"40"],
    ),
    (
        1_000_050,
        3_000,
        b"SOUNDG",
        &[b"31", b"20", b"10", b"00", b"40"],
    ),
    (
        1_234_590,
        2_000_000,
        b"SOUNDS",
        &[b"31", b"22", b"13", b"04", b"45"],
    ),
    (
        9_999_999,
        0,
        b"SOUNDG",
        &[b"39", b"29", b"19", b"09", b"49"],
    ),
    // above the water
    (-9, 3_000, b"SOUNDS", &[b"A1", b"10"]),
    (-120, 3_000, b"SOUNDS", &[b"A1", b"11", b"52"]),
    (-129, 3_000, b"SOUNDS", &[b"A1", b"11", b"52"]),
    (-120, -130, b"SOUNDG", &[b"A1", b"11", b"52"]),
    (-3_100, 0, b"SOUNDS", &[b"A1", b"13", b"01"]),
    (
        -9_999_999,
        3_000,
        b"SOUNDS",
        &[b"A1", b"39", b"29", b"19", b"09", b"49"],
    ),
];

fn are_cells(cells: &[[u8; 2]], wanted: &[&'static [u8; 2]]) -> bool {
    cells.len() == wanted.len() && cells.iter().zip(wanted).all(|(cell, other)| cell == *other)
}

/// The digits of a depth that a sounding can have.
fn digits_of(depth: i32, safety_depth: i32) -> Option<Digits> {
    if depth.unsigned_abs() <= 9_999_999 {
        Some(digit_cells(depth, safety_depth))
    } else {
        None
    }
}

#[test]
fn digits(rt: HostRuntime) -> Result<(), Fail> {
    for (depth, safety_depth, prefix, wanted) in &DIGITS {
        let digits = digits_of(*depth, *safety_depth).ok_or("a depth")?;
        let same = digits.prefix == **prefix && are_cells(digits.cells.as_slice(), wanted);
        assert!(rt; same, "{depth} {safety_depth}");
    }
    digits_write_depths();
    Ok(())
}
