//! Why a change was not made, and why a chart isn't closed, in words.
//!
//! A record is named by its kind and its number, as replies name it. Each variant has a row.

use chart_closure::ClosureFault;
use chart_model::{Foid, Name};
use sample_rows::name;
use std::test::Fail;
use update_apply::ChangeFault;

const NAME: Name = name!(130, 7);

/// Each fault with its sentence.
static SENTENCES: [(ChangeFault, &'static str); 9] = [
    (
        ChangeFault::Present { name: NAME },
        "record 130/7 is inserted, and the cell has one",
    ),
    (
        ChangeFault::Absent { name: NAME },
        "record 130/7 is changed, and the cell has none",
    ),
    (
        ChangeFault::Version {
            name: NAME,
            kept: 3,
            given: 5,
        },
        "record 130/7: version 5 does not follow version 3",
    ),
    (
        ChangeFault::Foid {
            name: NAME,
            kept: Foid {
                agen: 1,
                fidn: 2,
                fids: 3,
            },
            given: Foid {
                agen: 4,
                fidn: 5,
                fids: 6,
            },
        },
        "record 130/7: its identifier is 1 2 3, not 4 5 6",
    ),
    (
        ChangeFault::NoControl { name: NAME },
        "record 130/7: items of a list are given without its control field",
    ),
    (
        ChangeFault::Count {
            name: NAME,
            stated: 2,
            found: 1,
        },
        "record 130/7: the number of items is stated as 2 and is 1",
    ),
    (
        ChangeFault::Index {
            name: NAME,
            length: 3,
            index: 5,
        },
        "record 130/7: the places from 5 on are not in a list of length 3",
    ),
    (
        ChangeFault::Mixed { name: NAME },
        "record 130/7: soundings and points without a depth are put into one list",
    ),
    (ChangeFault::NoMemory, "there was no memory"),
];

#[test]
fn faults_are_told_in_words(rt: HostRuntime) -> Result<(), Fail> {
    for (fault, sentence) in &SENTENCES {
        let told = format!(in rt.alloc(); "{fault}")?;
        assert_eq!(rt; told.as_str(), *sentence);
    }
    Ok(())
}

/// Each fault of closure with its sentence.
static CLOSURE_SENTENCES: [(ClosureFault, &'static str); 4] = [
    (
        ClosureFault::Dangling(NAME, name!(120, 5)),
        "record 130/7 points to record 120/5, which the chart lacks",
    ),
    (
        ClosureFault::EdgeNodes(NAME),
        "edge 130/7 has no begin node and end node with a place",
    ),
    (
        ClosureFault::RingOpen(name!(100, 9)),
        "area 100/9: its edges make no rings",
    ),
    (
        ClosureFault::WrongPointer(NAME),
        "record 130/7 points to a record of a kind that it may not point to",
    ),
];

#[test]
fn faults_of_closure_are_told_in_words(rt: HostRuntime) -> Result<(), Fail> {
    for (fault, sentence) in &CLOSURE_SENTENCES {
        let told = format!(in rt.alloc(); "{fault}")?;
        assert_eq!(rt; told.as_str(), *sentence);
    }
    Ok(())
}
