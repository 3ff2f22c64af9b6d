//! Why a file is not taken, in words.
//!
//! A sentence names what a user has to compare: the cell or the record, the number that is held or wanted, and the one
//! that was given.

use chart_closure::ClosureFault;
use chart_model::{Key, Name};
use std::alloc::AllocError;
use std::test::Fail;
use update_apply::ChangeFault;
use update_sequence::{BuildFault, SequenceFault};

const NODE: Name = Name { rcnm: 120, rcid: 3 };

/// Whether the sentence of a fault of numbers is this.
fn says(rt: HostRuntime, fault: SequenceFault, sentence: &str) -> Result<bool, AllocError> {
    let text = format!(in rt.alloc(); "{fault}")?;
    Ok(text.as_str() == sentence)
}

/// Whether the sentence of a fault of a chart is this.
fn tells(rt: HostRuntime, fault: BuildFault, sentence: &str) -> Result<bool, AllocError> {
    let text = format!(in rt.alloc(); "{fault}")?;
    Ok(text.as_str() == sentence)
}

#[test]
fn faults_of_numbers_are_told_in_words(rt: HostRuntime) -> Result<(), Fail> {
    let stale = SequenceFault::StaleBase {
        held_edition: 2,
        held_update: 4,
        edition: 1,
        update: 9,
    };
    let before = "edition 1, update 9 comes before the held edition 2, update 4";
    assert!(rt; says(rt, stale, before)?);
    let edition = SequenceFault::Edition { held: 2, given: 3 };
    let other = "an update of edition 3 does not follow edition 2";
    assert!(rt; says(rt, edition, other)?);
    let gap = SequenceFault::Gap {
        wanted: 5,
        given: 7,
    };
    let next = "update 7 does not follow: the next is update 5";
    assert!(rt; says(rt, gap, next)?);
    Ok(())
}

#[test]
fn faults_of_charts_are_told_in_words(rt: HostRuntime) -> Result<(), Fail> {
    let change = BuildFault::Change(ChangeFault::Absent { name: NODE });
    let none = "record 120/3 is changed, and the cell has none";
    assert!(rt; tells(rt, change, none)?);
    let closure = BuildFault::Closure(ClosureFault::WrongPointer(NODE));
    let kind = "record 120/3 points to a record of a kind that it may not point to";
    assert!(rt; tells(rt, closure, kind)?);
    let memory = "there was no memory for the chart, or its changes move too many items of lists";
    assert!(rt; tells(rt, BuildFault::NoMemory, memory)?);
    Ok(())
}

#[test]
fn faults_of_a_cell_name_it(rt: HostRuntime) -> Result<(), Fail> {
    let key = Key::from_bytes(b"AA5TEST1").ok_or("it is a key")?;
    let absent = "cell AA5TEST1 is not held, and an update needs its base file";
    assert!(rt; says(rt, SequenceFault::NoBase(key), absent)?);
    let cancelled = "cell AA5TEST1 is cancelled, and no update follows";
    assert!(rt; says(rt, SequenceFault::Cancelled(key), cancelled)?);
    Ok(())
}
