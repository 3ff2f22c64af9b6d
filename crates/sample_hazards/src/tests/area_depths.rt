//! The depths of areas.
//!
//! Depths are rounded down, also below 0, and a text that is no depth counts as none. What stands for a depth that is
//! unknown differs between the two attributes, so each is missing once while the other is there.

use depth_values::area_depths;
use sample_rows::{Row, Setting, chart, feature, name};
use std::test::Fail;

/// Attributes, and the depths in centimetres.
type RangeCase = (&'static [Setting], (i32, i32));

static RANGES: [RangeCase; 10] = [
    (&[(87, b"5"), (88, b"10")], (500, 1_000)),
    (&[(87, b"+0.55"), (88, b".5")], (55, 50)),
    (&[(87, b"-1.505"), (88, b"-0")], (-151, 0)),
    (&[], (-100, -99)),
    (&[(88, b"3")], (-100, 300)),
    (&[(87, b"20")], (2_000, 2_001)),
    (&[(87, b""), (88, b"")], (-100, -99)),
    (&[(87, b"deep"), (88, b"7")], (-100, 700)),
    (&[(87, b"1,5"), (88, b"7 ")], (-100, -99)),
    (&[(87, b"999999.999")], (99_999_999, 100_000_000)),
];

#[test]
fn depths_of_areas(rt: HostRuntime) -> Result<(), Fail> {
    for (at, (attrs, wanted)) in RANGES.iter().enumerate() {
        let row = Row {
            attrs: *attrs,
            ..feature!(3, 1, [])
        };
        let cell = chart(rt.alloc(), &[row])?;
        let feature = cell.features.get(name!(100, 1)).ok_or("a feature")?;
        let depths = area_depths(feature);
        assert_eq!(rt; (depths.d1, depths.d2), *wanted, "case {at}");
    }
    Ok(())
}
