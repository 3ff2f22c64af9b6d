//! Which areas are safe.
//!
//! Each is asked both ways, since safe and unsafe are not each other's opposite: two of these areas are neither, and
//! what is no area isn't either.

use depth_values::{is_safe_area, is_unsafe_area};
use sample_rows::{Row, SETTINGS, Setting, chart, feature, name};
use std::test::Fail;

/// A primitive, a group, a class and attributes; whether the area is safe, and whether it is unsafe.
type Case = (u8, u8, u16, &'static [Setting], (bool, bool));

static CASES: [Case; 15] = [
    // one beside the safety contour, at it, and one beyond
    (3, 1, 42, &[(87, b"9.99")], (false, true)),
    (3, 1, 42, &[(87, b"10")], (true, false)),
    (3, 1, 42, &[(87, b"10.01")], (true, false)),
    (3, 1, 46, &[(87, b"9.99")], (false, true)),
    (3, 1, 46, &[(87, b"10")], (true, false)),
    // the greatest depth says nothing, and an unknown depth is none
    (3, 1, 42, &[(87, b"5"), (88, b"20")], (false, true)),
    (3, 1, 42, &[(88, b"20")], (false, true)),
    // another class
    (3, 1, 71, &[(87, b"10")], (false, true)),
    // no part of the skin of the earth
    (3, 2, 42, &[(87, b"10")], (true, false)),
    (3, 2, 42, &[(87, b"9.99")], (false, false)),
    (3, 2, 71, &[], (false, false)),
    // no area
    (2, 1, 42, &[(87, b"10")], (false, false)),
    (2, 1, 42, &[], (false, false)),
    (1, 1, 42, &[(87, b"10")], (false, false)),
    (255, 1, 42, &[], (false, false)),
];

#[test]
fn safety(rt: HostRuntime) -> Result<(), Fail> {
    for (at, (prim, grup, class, attrs, wanted)) in CASES.iter().enumerate() {
        let row = Row {
            prim: *prim,
            grup: *grup,
            class: *class,
            attrs: *attrs,
            ..feature!(3, 1, [])
        };
        let cell = chart(rt.alloc(), &[row])?;
        let feature = cell.features.get(name!(100, 1)).ok_or("a feature")?;
        let contour = SETTINGS.safety_contour;
        let found = (
            is_safe_area(feature, contour),
            is_unsafe_area(feature, contour),
        );
        assert_eq!(rt; found, *wanted, "case {at}");
    }
    Ok(())
}
