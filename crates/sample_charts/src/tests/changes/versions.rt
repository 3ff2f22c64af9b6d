//! Versions and attributes.
//!
//! A version has 16 bits (RVER) and doesn't start again at 0: behind 65,535 nothing can be modified any more, and a
//! record can still be deleted. An attribute is removed by the delete character alone, and an empty value is kept.

use super::{Case, EDGE, EDGE_CHANGE, EDGE_NAME, FEATURE, FEATURE_CHANGE, hold};
use sample_rows::{Row, Setting};
use std::test::Fail;
use update_apply::ChangeFault;

/// The version that is kept, an instruction, the version that is given, and the version afterwards, where the change is
/// made. A modification has the kept version and 1, which is kept from then on, and none follows 65,535; a deletion has
/// that, or the kept one.
static VERSIONS: [(u16, u8, u16, Result<Option<u16>, ()>); 12] = [
    (1, 3, 2, Ok(Some(2))),
    (65_534, 3, 65_535, Ok(Some(65_535))),
    (1, 2, 1, Ok(None)),
    (1, 2, 2, Ok(None)),
    (65_535, 2, 65_535, Ok(None)),
    (1, 3, 1, Err(())),
    (1, 3, 3, Err(())),
    (65_535, 3, 65_535, Err(())),
    (65_535, 3, 0, Err(())),
    (1, 2, 0, Err(())),
    (1, 2, 3, Err(())),
    (65_535, 2, 0, Err(())),
];

fn edge_of(version: u16) -> Row {
    Row { version, ..EDGE }
}

fn version_case(kept: u16, ruin: u8, given: u16, after: &Result<Option<u16>, ()>) -> Case {
    let before = Some(edge_of(kept));
    let change = Row {
        ruin,
        version: given,
        ..EDGE_CHANGE
    };
    let (answer, after) = match after {
        Ok(Some(version)) => (Ok(()), Some(edge_of(*version))),
        Ok(None) => (Ok(()), None),
        Err(()) => {
            let name = EDGE_NAME;
            (Err(ChangeFault::Version { name, kept, given }), before)
        }
    };
    Case {
        before,
        change,
        answer,
        after,
    }
}

/// Settings of attributes, and the attributes afterwards, where 7 is there before. The delete character alone removes
/// one.
static SETTINGS: [(&'static [Setting], &'static [Setting]); 7] = [
    (&[], &[(7, b"1")]),
    (&[(7, b"2")], &[(7, b"2")]),
    (&[(7, b"2"), (7, b"")], &[(7, b"")]),
    (&[(7, b""), (7, b"2")], &[(7, b"2")]),
    (&[(7, b"2"), (7, b"\x7F")], &[]),
    (&[(7, b"\x7F"), (7, b"2")], &[(7, b"2")]),
    (
        &[(6, b"\x7F"), (8, b""), (65_535, b"2")],
        &[(7, b"1"), (8, b""), (65_535, b"2")],
    ),
];

fn setting_case(
    before: Row,
    change: Row,
    attrs: &'static [Setting],
    after: &'static [Setting],
) -> Case {
    Case {
        before: Some(before),
        change: Row { attrs, ..change },
        answer: Ok(()),
        after: Some(Row {
            version: 2,
            attrs: after,
            ..before
        }),
    }
}

#[test]
fn versions_and_attributes(rt: HostRuntime) -> Result<(), Fail> {
    for (number, (kept, ruin, given, after)) in VERSIONS.iter().enumerate() {
        let case = version_case(*kept, *ruin, *given, after);
        hold(&rt, rt.alloc(), number, &case)?;
    }
    for (number, (settings, after)) in SETTINGS.iter().enumerate() {
        let case = setting_case(EDGE, EDGE_CHANGE, settings, after);
        hold(&rt, rt.alloc(), number, &case)?;
        let case = setting_case(FEATURE, FEATURE_CHANGE, settings, after);
        hold(&rt, rt.alloc(), number, &case)?;
    }
    Ok(())
}
