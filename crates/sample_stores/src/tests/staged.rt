//! Files that are taken over in steps.
//!
//! What is held and what is on the disk changes at the commit alone, and is then what a load of the file leaves. A
//! refusal of a step leaves the changes before it, and one of a commit leaves all as it was.

use crate::files::{
    ADDED, BASE, CANCEL, EDITION, FIRST_UPDATE, GENERAL, Given, INSERTED, LOOSE, MOVED, OTHER,
    RECORDS, SECOND, UPDATE,
};
use crate::runs::{Move, told_by};
use crate::stores::failing_desk;
use chart_ports::{Fill, Images};
use std::alloc::{AllocError, Global};
use std::test::Fail;

/// A move, what is answered, and what is held then.
type Row = (Move<'static>, &'static str, &'static str);

const AT_0: &str = "AA5TEST1 1.0 1 1.0 1;";

const AT_1: &str = "AA5TEST1 1.1 2 1.1 2;";

const CANCELLED: &str = "AA5TEST1 1.1 3;";

const AT_2: &str = "AA5TEST1 2.0 1 2.0 1;";

const NOTHING: &str = "nothing is staged";

/// Each kind of file, in steps of one change, of all, of more than there are, and of none.
static FILES: [Row; 25] = [
    (Move::Stage(&[UPDATE, MOVED]), "NoBase(", ""),
    (Move::Stage(&[GENERAL, RECORDS]), "AA5TEST1 0/2", ""),
    (Move::Step(1), "AA5TEST1 1/2", ""),
    (Move::Step(0), "AA5TEST1 1/2", ""),
    (Move::Step(1), "AA5TEST1 2/2", ""),
    (Move::Step(9), "AA5TEST1 2/2", ""),
    (
        Move::Commit,
        "AA5TEST1 1 over none: 1 0 false 100/1 110/1",
        AT_0,
    ),
    (Move::Commit, NOTHING, AT_0),
    // A re-issue, whose changes the commit makes.
    (Move::Stage(&[GENERAL, RECORDS]), "AA5TEST1 0/2", AT_0),
    (Move::Commit, "AA5TEST1 2 over a chart: 1 0 false", AT_0),
    (
        Move::Stage(&[SECOND, ADDED]),
        "Gap { wanted: 1, given: 2 }",
        AT_0,
    ),
    (Move::Stage(&[UPDATE, MOVED, ADDED]), "AA5TEST1 0/2", AT_0),
    (Move::Step(7), "AA5TEST1 2/2", AT_0),
    (
        Move::Commit,
        "AA5TEST1 3 over a chart: 1 1 false 110/1 110/2",
        AT_1,
    ),
    // A file that cancels its cell has no changes.
    (Move::Stage(&[CANCEL]), "AA5TEST1 0/0", AT_1),
    (Move::Step(1), "AA5TEST1 0/0", AT_1),
    (
        Move::Commit,
        "AA5TEST1 4 over a chart: 1 1 true 100/1 110/1 110/2",
        CANCELLED,
    ),
    (Move::Stage(&[SECOND, ADDED]), "Cancelled(", CANCELLED),
    // A new edition, over a cell without a chart.
    (Move::Stage(&[EDITION, RECORDS]), "AA5TEST1 0/2", CANCELLED),
    (Move::Step(1), "AA5TEST1 1/2", CANCELLED),
    (
        Move::Commit,
        "AA5TEST1 5 over none: 2 0 false 100/1 110/1",
        AT_2,
    ),
    // And over one with a chart.
    (Move::Stage(&[EDITION, RECORDS]), "AA5TEST1 0/2", AT_2),
    (Move::Step(2), "AA5TEST1 2/2", AT_2),
    (Move::Commit, "AA5TEST1 6 over a chart: 2 0 false", AT_2),
    (Move::Step(1), NOTHING, AT_2),
];

/// What is refused, and what it leaves; and what may be done between the steps.
static BETWEEN: [Row; 33] = [
    (
        Move::Submit(BASE),
        "AA5TEST1 1 over none: 1 0 false 100/1 110/1",
        AT_0,
    ),
    // The second change can't be made, and the first is.
    (
        Move::Stage(&[UPDATE, MOVED, INSERTED, ADDED]),
        "AA5TEST1 0/3",
        AT_0,
    ),
    (
        Move::Step(3),
        "AA5TEST1 1/3 Present { name: Name { rcnm: 110, rcid: 1 } }",
        AT_0,
    ),
    (
        Move::Step(1),
        "AA5TEST1 1/3 Present { name: Name { rcnm: 110, rcid: 1 } }",
        AT_0,
    ),
    (
        Move::Commit,
        "Present { name: Name { rcnm: 110, rcid: 1 } }",
        AT_0,
    ),
    // Whether the chart is closed is asked at the commit.
    (Move::Stage(&[GENERAL, LOOSE]), "AA5TEST1 0/1", AT_0),
    (Move::Step(1), "AA5TEST1 1/1", AT_0),
    (
        Move::Commit,
        "Dangling { name: Name { rcnm: 100, rcid: 1 }, target: Name { rcnm: 110, rcid: 1 } }",
        AT_0,
    ),
    // No file of records, and a base file without its parameters.
    (Move::Stage(&[b"x"]), "Leader(500)", AT_0),
    (Move::Stage(&[EDITION]), "Profile([68, 83, 80, 77])", AT_0),
    (Move::Step(1), NOTHING, AT_0),
    // Another cell is loaded between two steps.
    (Move::Stage(&[UPDATE, MOVED, ADDED]), "AA5TEST1 0/2", AT_0),
    (Move::Step(1), "AA5TEST1 1/2", AT_0),
    (
        Move::Submit(Given::Load(&[OTHER, RECORDS])),
        "AA5TEST2 2 over none: 1 0 false 100/1 110/1",
        "AA5TEST1 1.0 1 1.0 1;AA5TEST2 1.0 1 1.0 1;",
    ),
    (
        Move::Submit(FIRST_UPDATE),
        "AA5TEST1 3 over a chart: 1 1 false 110/1",
        WITH_OTHER,
    ),
    (Move::Commit, NOTHING, WITH_OTHER),
    (
        Move::Submit(Given::Rollback(0)),
        "AA5TEST1 4 over a chart: 1 0 false 110/1",
        "AA5TEST1 1.0 1 1.0 1;AA5TEST2 1.0 1 1.0 1;",
    ),
    (
        Move::Stage(&[UPDATE, MOVED, ADDED]),
        "AA5TEST1 0/2",
        "AA5TEST1 1.0 1 1.0 1;AA5TEST2 1.0 1 1.0 1;",
    ),
    (
        Move::Step(1),
        "AA5TEST1 1/2",
        "AA5TEST1 1.0 1 1.0 1;AA5TEST2 1.0 1 1.0 1;",
    ),
    (
        Move::Submit(Given::Load(&[OTHER, RECORDS])),
        "AA5TEST2 5 over a chart: 1 0 false",
        "AA5TEST1 1.0 1 1.0 1;AA5TEST2 1.0 1 1.0 1;",
    ),
    // A command that is refused overtakes nothing.
    (
        Move::Submit(Given::Load(&[SECOND, ADDED])),
        "Gap { wanted: 1, given: 2 }",
        "AA5TEST1 1.0 1 1.0 1;AA5TEST2 1.0 1 1.0 1;",
    ),
    // A save is begun before the commit, and finished after it.
    (
        Move::Save,
        "1 slices",
        "AA5TEST1 1.0 1 1.0 1;AA5TEST2 1.0 1 1.0 1;",
    ),
    (
        Move::Step(1),
        "AA5TEST1 2/2",
        "AA5TEST1 1.0 1 1.0 1;AA5TEST2 1.0 1 1.0 1;",
    ),
    (
        Move::Commit,
        "AA5TEST1 6 over a chart: 1 1 false 110/1 110/2",
        BOTH,
    ),
    (Move::Slice, "Saved", BOTH),
    (Move::Slice, "no save is under way", BOTH),
    // The file of a cell that was taken away.
    (
        Move::Submit(Given::Drop),
        "AA5TEST1 7 over a chart: 1 1 false 100/1 110/1 110/2",
        OTHER_ALONE,
    ),
    (Move::Stage(&[UPDATE, MOVED]), "NoBase(", OTHER_ALONE),
    (
        Move::Stage(&[GENERAL, RECORDS]),
        "AA5TEST1 0/2",
        OTHER_ALONE,
    ),
    (
        Move::Submit(BASE),
        "AA5TEST1 8 over none: 1 0 false 100/1 110/1",
        "AA5TEST1 1.0 1 1.0 1;AA5TEST2 1.0 1 1.0 1;",
    ),
    (
        Move::Commit,
        NOTHING,
        "AA5TEST1 1.0 1 1.0 1;AA5TEST2 1.0 1 1.0 1;",
    ),
    (
        Move::Submit(Given::Drop),
        "AA5TEST1 9 over a chart: 1 0 false 100/1 110/1",
        OTHER_ALONE,
    ),
    (Move::Commit, NOTHING, OTHER_ALONE),
];

const WITH_OTHER: &str = "AA5TEST1 1.1 2 1.1 1;AA5TEST2 1.0 1 1.0 1;";

const BOTH: &str = "AA5TEST1 1.1 2 1.1 2;AA5TEST2 1.0 1 1.0 1;";

const OTHER_ALONE: &str = "AA5TEST2 1.0 1 1.0 1;";

/// The first row that isn't told. An answer that ends with a bracket is the start of one.
fn first_other(alloc: Global, rows: &[Row]) -> Result<Option<String>, AllocError> {
    let mut desk = failing_desk(alloc, 0)?;
    let moves = rows.iter().map(|row| row.0).collect::<Vec<Move>>(alloc)?;
    let told = told_by(alloc, &mut desk, moves.as_slice())?;
    if told.len() != rows.len() {
        return Ok(Some(String::from_str(alloc, "the store ended")?));
    }
    for (number, (told, (_, answer, held))) in told.iter().zip(rows).enumerate() {
        let same = told.answer.as_str() == *answer
            || (answer.ends_with('(') && told.answer.as_str().starts_with(answer));
        if !same || told.held.as_str() != *held {
            return Ok(Some(format!(in alloc; "row {number}: {} {}", told.answer, told.held)?));
        }
    }
    Ok(None)
}

#[test]
fn files_are_taken_over_in_steps(rt: HostRuntime) -> Result<(), Fail> {
    let other = first_other(rt.alloc(), &FILES)?;
    assert!(rt; other.is_none(), "{other:?}");
    Ok(())
}

#[test]
fn other_work_is_done_between_steps(rt: HostRuntime) -> Result<(), Fail> {
    let other = first_other(rt.alloc(), &BETWEEN)?;
    assert!(rt; other.is_none(), "{other:?}");
    Ok(())
}

/// The files of a cell loaded at once, and the same in steps; then all is saved, with the charts.
static AT_ONCE: [Move<'static>; 5] = [
    Move::Submit(BASE),
    Move::Submit(Given::Load(&[UPDATE, MOVED, ADDED])),
    Move::Submit(Given::Load(&[OTHER, RECORDS])),
    Move::Save,
    Move::Slice,
];

static IN_STEPS: [Move<'static>; 13] = [
    Move::Stage(&[GENERAL, RECORDS]),
    Move::Step(1),
    Move::Step(1),
    Move::Commit,
    Move::Stage(&[UPDATE, MOVED, ADDED]),
    Move::Step(1),
    Move::Commit,
    Move::Stage(&[OTHER, RECORDS]),
    Move::Step(5),
    Move::Step(5),
    Move::Commit,
    Move::Save,
    Move::Slice,
];

/// What the moves leave on a desk.
fn left_by(alloc: Global, moves: &[Move]) -> Result<Images, AllocError> {
    let mut desk = failing_desk(alloc, 0)?;
    let _ = told_by(alloc, &mut desk, moves)?;
    desk.image_after(alloc, 64, Fill::New)
}

#[test]
fn steps_leave_the_bytes_of_a_load(rt: HostRuntime) -> Result<(), Fail> {
    let alloc = rt.alloc();
    let once = left_by(alloc, &AT_ONCE)?;
    let steps = left_by(alloc, &IN_STEPS)?;
    assert!(rt; once.head.as_slice() == b"\x01".as_slice());
    assert!(rt; once.head.as_slice() == steps.head.as_slice());
    assert!(rt; once.bank1.as_slice() == steps.bank1.as_slice());
    assert!(rt; once.bank2.as_slice() == steps.bank2.as_slice());
    Ok(())
}
