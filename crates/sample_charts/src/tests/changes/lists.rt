//! Edits of lists.
//!
//! An edit means the same on each of the lists of a vector record and of a feature, so one table is tried on four of
//! them: at the first place, at the last, at the one behind it, and past that.

use super::{Case, EDGE, EDGE_CHANGE, FEATURE, FEATURE_CHANGE, FEATURE_NAME, hold, items};
use chart_model::Name;
use sample_rows::{Edit, Item, Row};
use std::test::Fail;
use update_apply::ChangeFault;

/// Edits of the list 1, 2, 3 with the items that are given, and what they make of it.
static EDITS: [(Edit, &'static [Item], &'static [Item]); 15] = [
    ((1, 1, 1), &items![9], &items![9, 1, 2, 3]),
    ((1, 3, 2), &items![8, 9], &items![1, 2, 8, 9, 3]),
    ((1, 4, 1), &items![9], &items![1, 2, 3, 9]),
    ((1, 1, 0), &[], &items![1, 2, 3]),
    ((1, 4, 0), &[], &items![1, 2, 3]),
    ((2, 1, 1), &[], &items![2, 3]),
    ((2, 3, 1), &items![9, 9], &items![1, 2]),
    ((2, 1, 3), &[], &[]),
    ((2, 1, 0), &[], &items![1, 2, 3]),
    ((2, 4, 0), &[], &items![1, 2, 3]),
    ((3, 1, 1), &items![9], &items![9, 2, 3]),
    ((3, 3, 1), &items![9], &items![1, 2, 9]),
    ((3, 1, 3), &items![7, 8, 9], &items![7, 8, 9]),
    ((3, 1, 0), &[], &items![1, 2, 3]),
    ((3, 4, 0), &[], &items![1, 2, 3]),
];

/// Why an edit of a list of three items is refused.
enum Refusal {
    NoControl,
    Count(u16, usize),
    Index(u16),
}

/// Edits that the list 1, 2, 3 refuses, with the items that are given, and why.
static REFUSED: [(Option<Edit>, &'static [Item], Refusal); 15] = [
    (None, &items![9], Refusal::NoControl),
    (Some((1, 0, 1)), &items![9], Refusal::Index(0)),
    (Some((1, 5, 1)), &items![9], Refusal::Index(5)),
    (Some((1, 5, 0)), &[], Refusal::Index(5)),
    (Some((1, 9, 2)), &items![9], Refusal::Count(2, 1)),
    (Some((2, 0, 1)), &[], Refusal::Index(0)),
    (Some((2, 3, 2)), &[], Refusal::Index(3)),
    (Some((2, 4, 1)), &[], Refusal::Index(4)),
    (Some((2, 5, 0)), &[], Refusal::Index(5)),
    (Some((3, 0, 1)), &items![9], Refusal::Index(0)),
    (Some((3, 3, 2)), &items![8, 9], Refusal::Index(3)),
    (Some((3, 4, 1)), &items![9], Refusal::Index(4)),
    (Some((3, 5, 0)), &[], Refusal::Index(5)),
    (Some((3, 65_535, 1)), &items![9], Refusal::Index(65_535)),
    (Some((3, 1, 0)), &items![9], Refusal::Count(0, 1)),
];

fn fault(name: Name, refusal: &Refusal) -> ChangeFault {
    match refusal {
        Refusal::NoControl => ChangeFault::NoControl { name },
        Refusal::Count(stated, found) => ChangeFault::Count {
            name,
            stated: *stated,
            found: *found,
        },
        Refusal::Index(index) => ChangeFault::Index {
            name,
            length: 3,
            index: *index,
        },
    }
}

/// The edits of each of the lists of the two records.
fn edits(edit: Option<Edit>, given: &'static [Item]) -> [Row; 4] {
    let edge_pointers = Row {
        pointer_edit: edit,
        pointers: given,
        ..EDGE_CHANGE
    };
    let coordinates = Row {
        other_edit: edit,
        others: given,
        ..EDGE_CHANGE
    };
    let feature_pointers = Row {
        pointer_edit: edit,
        pointers: given,
        ..FEATURE_CHANGE
    };
    let related = Row {
        other_edit: edit,
        others: given,
        ..FEATURE_CHANGE
    };
    [edge_pointers, coordinates, feature_pointers, related]
}

/// The records with another list in the place of each of theirs.
fn edited(list: &'static [Item]) -> [Row; 4] {
    let edge = Row { version: 2, ..EDGE };
    let feature = Row {
        version: 2,
        ..FEATURE
    };
    [
        Row {
            pointers: list,
            ..edge
        },
        Row {
            others: list,
            ..edge
        },
        Row {
            pointers: list,
            ..feature
        },
        Row {
            others: list,
            ..feature
        },
    ]
}

/// The record that a change is of.
fn before(change: &Row) -> Row {
    if change.name == FEATURE_NAME {
        FEATURE
    } else {
        EDGE
    }
}

#[test]
fn lists_edited(rt: HostRuntime) -> Result<(), Fail> {
    for (number, (edit, given, after)) in EDITS.iter().enumerate() {
        let changes = edits(Some(*edit), given);
        let afters = edited(after);
        for list in 0..4 {
            let case = Case {
                before: Some(before(&changes[list])),
                change: changes[list],
                answer: Ok(()),
                after: Some(afters[list]),
            };
            hold(&rt, rt.alloc(), number, &case)?;
        }
    }
    Ok(())
}

#[test]
fn lists_kept(rt: HostRuntime) -> Result<(), Fail> {
    for (number, (edit, given, refusal)) in REFUSED.iter().enumerate() {
        for change in edits(*edit, given) {
            let kept = before(&change);
            let case = Case {
                before: Some(kept),
                change,
                answer: Err(fault(kept.name, refusal)),
                after: Some(kept),
            };
            hold(&rt, rt.alloc(), number, &case)?;
        }
    }
    Ok(())
}
