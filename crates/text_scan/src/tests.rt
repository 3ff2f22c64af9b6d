//! Texts worked out by hand from the grammars.
//!
//! Depths stand on both sides of 0, where rounding down and rounding towards 0 differ, and at the most digits that are
//! read. Most texts that are no number are one byte beside one that is.

use super::*;
use chart_model::Octets;
use std::test::Fail;

#[test]
fn depths(rt: HostRuntime) {
    let cases: [(&[u8], Option<i32>); 34] = [
        (b"0", Some(0)),
        (b"-0", Some(0)),
        (b"+0", Some(0)),
        (b"2.0", Some(200)),
        (b"12", Some(1200)),
        (b"1.", Some(100)),
        (b"+.5", Some(50)),
        (b".5", Some(50)),
        (b"-.5", Some(-50)),
        (b"1.23", Some(123)),
        (b"1.205", Some(120)),
        (b"1.299999", Some(129)),
        (b"-1.2", Some(-120)),
        // rounded down, and not towards zero
        (b"-1.205", Some(-121)),
        (b"-0.001", Some(-1)),
        (b"-1.20000000000000000000", Some(-120)),
        (b"-1.20000000000000000001", Some(-121)),
        (b"000000.00000000000000000000", Some(0)),
        (b"999999.99999999999999999999", Some(99_999_999)),
        (b"-999999.99999999999999999999", Some(-100_000_000)),
        // no depths
        (b"", None),
        (b".", None),
        (b"+", None),
        (b"-", None),
        (b"-.", None),
        (b"+-1", None),
        (b"1234567", None),
        (b"0000000", None),
        (b"0.000000000000000000001", None),
        (b" 1", None),
        (b"1 ", None),
        (b"1.2.3", None),
        (b"1,5", None),
        (b"1e2", None),
    ];
    for (text, depth) in &cases {
        assert_eq!(rt; read_depth(text), *depth, "{text:?}");
    }
    depths_are_spelled();
}

#[test]
fn numbers(rt: HostRuntime) {
    let cases: [(&[u8], Option<u64>, Option<i64>); 11] = [
        (b"0", Some(0), Some(0)),
        (b"007", Some(7), Some(7)),
        (
            b"123456789012345678",
            Some(123_456_789_012_345_678),
            Some(123_456_789_012_345_678),
        ),
        (b"1234567890123456789", None, None),
        (b"0000000000000000000", None, None),
        (b"", None, None),
        (b"-", None, None),
        (b"-0", None, Some(0)),
        (b"-999999999999999999", None, Some(-999_999_999_999_999_999)),
        (b"--1", None, None),
        (b"+1", None, None),
    ];
    for (text, number, signed) in &cases {
        assert_eq!(rt; read_number(text), *number, "{text:?}");
        assert_eq!(rt; read_signed(text), *signed, "{text:?}");
    }
    numbers_are_spelled();
}

#[test]
fn written(rt: HostRuntime) -> Result<(), Fail> {
    let mut out = Octets::from_vec(Vec::new(rt.alloc()));
    write_number(rt.alloc(), &mut out, 0)?;
    out.extend_from_slice(b" ")?;
    write_number(rt.alloc(), &mut out, -1205)?;
    out.extend_from_slice(b" ")?;
    write_number(rt.alloc(), &mut out, i128::MAX)?;
    out.extend_from_slice(b" ")?;
    write_number(rt.alloc(), &mut out, i128::MIN)?;
    assert!(rt;
        out.as_slice()
            == b"0 -1205 170141183460469231731687303715884105727 -170141183460469231731687303715884105728".as_slice()
    );
    decimals_are_spelled();
    Ok(())
}
