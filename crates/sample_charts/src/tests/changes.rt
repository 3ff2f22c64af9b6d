//! What changes make of one record, and why they are refused.
//!
//! Each case is tried with a change that is lent, and with one that is judged and then given away, whose lists are
//! taken over: the two have to answer alike. A change that is refused has to leave the record as it was.

mod identifiers;
mod lists;
mod settings;
mod versions;

use chart_model::{AttrMap, Cell, Feature, Name, UpdateRecord, Vector};
use sample_rows::{Item, Row, Setting, change, chart, feature, name, vector};
use std::alloc::Global;
use std::process::Abort;
use std::test::Fail;
use update_apply::{ChangeFault, Moves, apply_record, judge_change, make_change};

/// Items of these numbers.
macro_rules! items {
    ($($number:expr),* $(,)?) => {
        [$((120, $number, 1)),*]
    };
}

use items;

const LIST: [Item; 3] = items![1, 2, 3];

/// The edge 1, with an attribute and three items in each of its lists.
const EDGE: Row = Row {
    attrs: &[(7, b"1")],
    ..vector!(130, 1, LIST, LIST)
};

/// The feature 1, with the same.
const FEATURE: Row = Row {
    attrs: &[(7, b"1")],
    others: &LIST,
    ..feature!(2, 1, LIST)
};

const EDGE_NAME: Name = name!(130, 1);

const FEATURE_NAME: Name = name!(100, 1);

/// A modification of the edge that changes nothing but its version.
const EDGE_CHANGE: Row = Row {
    ruin: 3,
    version: 2,
    ..vector!(130, 1, [], [])
};

/// The same of the feature.
const FEATURE_CHANGE: Row = Row {
    ruin: 3,
    version: 2,
    foid: None,
    ..feature!(2, 1, [])
};

/// What a change answers on a chart of one record or of none, and the record afterwards.
#[derive(Drop)]
struct Case {
    before: Option<Row>,
    change: Row,
    answer: Result<(), ChangeFault>,
    after: Option<Row>,
}

fn has_attrs(attrs: &AttrMap, settings: &[Setting]) -> bool {
    for (code, wanted) in settings {
        match attrs.get(*code) {
            Some(text) if text.as_slice() == *wanted => {}
            _ => return false,
        }
    }
    attrs.len() == settings.len()
}

fn same_vectors(found: &Vector, wanted: &Vector) -> bool {
    found.version == wanted.version
        && found.pointers.as_slice() == wanted.pointers.as_slice()
        && found.coords.as_slice() == wanted.coords.as_slice()
}

fn same_features(found: &Feature, wanted: &Feature) -> bool {
    (found.version, found.prim, found.grup, found.class)
        == (wanted.version, wanted.prim, wanted.grup, wanted.class)
        && found.foid == wanted.foid
        && found.pointers.as_slice() == wanted.pointers.as_slice()
        && found.related.as_slice() == wanted.related.as_slice()
}

/// Whether a chart has the record of a row.
fn has_record(alloc: Global, cell: &Cell, row: &Row) -> Result<bool, Fail> {
    let wanted = chart(alloc, &[*row])?;
    let vectors = (cell.vectors.get(row.name), wanted.vectors.get(row.name));
    let features = (cell.features.get(row.name), wanted.features.get(row.name));
    Ok(match (vectors, features) {
        ((Some(found), Some(wanted)), (None, None)) => {
            same_vectors(found, wanted) && has_attrs(&found.attrs, row.attrs)
        }
        ((None, None), (Some(found), Some(wanted))) => {
            same_features(found, wanted) && has_attrs(&found.attrs, row.attrs)
        }
        _ => false,
    })
}

/// Whether a chart has the record of a row, or has none.
fn has_alone(alloc: Global, cell: &Cell, row: &Option<Row>) -> Result<bool, Fail> {
    match row {
        Some(row) => has_record(alloc, cell, row),
        None => Ok(cell.vectors.len() == 0 && cell.features.len() == 0),
    }
}

/// The chart of one record or of none.
fn chart_of(alloc: Global, row: &Option<Row>) -> Result<Cell, Fail> {
    match row {
        Some(row) => chart(alloc, &[*row]),
        None => chart(alloc, &[]),
    }
}

/// Judges a change that is given away, and makes it where it has no fault.
fn judge_and_make(alloc: Global, cell: &mut Cell, change: UpdateRecord) -> Result<(), ChangeFault> {
    judge_change(cell, &change, &mut Moves::of_file())?;
    make_change(alloc, cell, change).map_err(|_| ChangeFault::NoMemory)
}

/// Holds what a change answers against the case of this number.
fn hold(rt: &impl Abort, alloc: Global, number: usize, case: &Case) -> Result<(), Fail> {
    let mut cell = chart_of(alloc, &case.before)?;
    let change = change(alloc, &case.change)?;
    assert!(rt;
        apply_record(alloc, &mut cell, &change) == case.answer,
        "case {number}"
    );
    assert!(rt; has_alone(alloc, &cell, &case.after)?, "case {number}");
    let mut cell = chart_of(alloc, &case.before)?;
    assert!(rt;
        judge_and_make(alloc, &mut cell, change) == case.answer,
        "case {number}, given away"
    );
    assert!(rt;
        has_alone(alloc, &cell, &case.after)?,
        "case {number}, given away"
    );
    Ok(())
}
