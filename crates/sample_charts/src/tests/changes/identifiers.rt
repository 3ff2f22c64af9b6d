//! Names, identifiers and soundings.
//!
//! A change may not hit another record than it was made for: its name has to be there or not, and a FOID that is given
//! has to be the kept one in each of its parts. Nor may it mix soundings with points that have no depth.

use super::{
    Case, EDGE, EDGE_CHANGE, EDGE_NAME, FEATURE, FEATURE_CHANGE, FEATURE_NAME, hold, items,
};
use chart_model::Foid;
use sample_rows::{FOID, Row};
use std::test::Fail;
use update_apply::ChangeFault;

/// A change of a record that is refused.
macro_rules! refused {
    ($record:expr, $change:expr, $fault:expr $(,)?) => {
        Case {
            before: Some($record),
            change: $change,
            answer: Err($fault),
            after: Some($record),
        }
    };
}

/// A change of no record.
macro_rules! of_none {
    ($ruin:expr $(,)?) => {
        Case {
            before: None,
            change: Row {
                ruin: $ruin,
                version: 1,
                ..EDGE_CHANGE
            },
            answer: Err(ChangeFault::Absent { name: EDGE_NAME }),
            after: None,
        }
    };
}

macro_rules! made {
    ($before:expr, $change:expr, $after:expr $(,)?) => {
        Case {
            before: Some($before),
            change: $change,
            answer: Ok(()),
            after: $after,
        }
    };
}

/// A change of the feature with this identifier.
macro_rules! with_foid {
    ($ruin:expr, $foid:expr $(,)?) => {
        Row {
            ruin: $ruin,
            foid: $foid,
            ..FEATURE_CHANGE
        }
    };
}

/// A change of the feature with an identifier that differs from the kept one.
macro_rules! of_another {
    ($ruin:expr, $given:expr $(,)?) => {
        refused!(
            FEATURE,
            with_foid!($ruin, Some($given)),
            ChangeFault::Foid {
                name: FEATURE_NAME,
                kept: FOID,
                given: $given,
            }
        )
    };
}

/// Soundings that are put in, or taken out, at a place of the edge's coordinates.
macro_rules! soundings {
    ($edit:expr, $given:expr $(,)?) => {
        Row {
            other_edit: Some($edit),
            others: &$given,
            deep: true,
            ..EDGE_CHANGE
        }
    };
}

const PRESENT: ChangeFault = ChangeFault::Present { name: EDGE_NAME };

const MIXED: ChangeFault = ChangeFault::Mixed { name: EDGE_NAME };

const OTHER_AGENCY: Foid = Foid { agen: 2, ..FOID };

const OTHER_NUMBER: Foid = Foid { fidn: 2, ..FOID };

const OTHER_PART: Foid = Foid { fids: 2, ..FOID };

const EDGE_AFTER: Row = Row { version: 2, ..EDGE };

const FEATURE_AFTER: Row = Row {
    version: 2,
    ..FEATURE
};

static CASES: [Case; 21] = [
    // A record that is there, and one that isn't.
    refused!(EDGE, EDGE, PRESENT),
    refused!(EDGE, Row { version: 2, ..EDGE }, PRESENT),
    of_none!(2),
    of_none!(3),
    // A refused change keeps the attributes.
    refused!(
        EDGE,
        Row {
            version: 1,
            attrs: &[(7, b"\x7F")],
            ..EDGE_CHANGE
        },
        ChangeFault::Version {
            name: EDGE_NAME,
            kept: 1,
            given: 1,
        },
    ),
    // The identifier may be given, and is then the kept one.
    made!(FEATURE, with_foid!(3, None), Some(FEATURE_AFTER)),
    made!(FEATURE, with_foid!(3, Some(FOID)), Some(FEATURE_AFTER)),
    made!(FEATURE, with_foid!(2, None), None),
    made!(FEATURE, with_foid!(2, Some(FOID)), None),
    of_another!(3, OTHER_AGENCY),
    of_another!(3, OTHER_NUMBER),
    of_another!(3, OTHER_PART),
    of_another!(2, OTHER_AGENCY),
    of_another!(2, OTHER_NUMBER),
    of_another!(2, OTHER_PART),
    // Soundings among points are refused, also in the place of all of them, but not where none are put in.
    refused!(EDGE, soundings!((1, 4, 1), items![9]), MIXED),
    refused!(EDGE, soundings!((3, 1, 3), items![7, 8, 9]), MIXED,),
    made!(EDGE, soundings!((1, 4, 0), []), Some(EDGE_AFTER)),
    made!(EDGE, soundings!((2, 1, 0), items![9]), Some(EDGE_AFTER)),
    made!(
        Row {
            others: &[],
            ..EDGE
        },
        soundings!((1, 1, 2), items![8, 9]),
        Some(Row {
            others: &items![8, 9],
            deep: true,
            ..EDGE_AFTER
        }),
    ),
    // Points among soundings.
    refused!(
        Row { deep: true, ..EDGE },
        Row {
            deep: false,
            ..soundings!((1, 4, 1), items![9])
        },
        MIXED,
    ),
];

#[test]
fn records_and_identifiers(rt: HostRuntime) -> Result<(), Fail> {
    for (number, case) in CASES.iter().enumerate() {
        hold(&rt, rt.alloc(), number, case)?;
    }
    Ok(())
}
