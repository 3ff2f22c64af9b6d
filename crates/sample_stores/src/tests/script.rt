//! Ten commands, of which nine are accepted.
//!
//! The calls of each step are counted by hand, so that a table of crashes can say between which calls of which command
//! it stands. The command that is refused makes none, and shifts nothing.

use crate::files::{ADDED, BASE, CANCEL, EDITION, FIRST_UPDATE, Given, OTHER, RECORDS, SECOND};
use crate::stores::{failing_desk, tell};
use std::test::Fail;

/// How many calls an opening of empty files makes: a sync of each of the three, a read of the head, the length and a
/// read of the bank, and a write and a sync of nine zeros.
pub const OPENING: u64 = 8;

/// How many calls an accepted command makes: a write and a sync of its record, and a write and a sync of the gate.
pub const APPENDING: u64 = 4;

/// How many calls the script makes on empty files.
pub const CALLS: u64 = 44;

pub static SCRIPT: [Given<'static>; 10] = [
    BASE,
    FIRST_UPDATE,
    FIRST_UPDATE,
    Given::Load(&[SECOND, ADDED]),
    Given::Load(&[CANCEL]),
    Given::Rollback(1),
    Given::Load(&[EDITION, RECORDS]),
    Given::Load(&[OTHER, RECORDS]),
    Given::Drop,
    BASE,
];

/// What is answered to the opening and to each command, and how many commands were accepted then.
static ANSWERS: [(&str, u64); 11] = [
    ("open", 0),
    ("AA5TEST1 1 over none: 1 0 false 100/1 110/1", 1),
    ("AA5TEST1 2 over a chart: 1 1 false 110/1", 2),
    ("Gap { wanted: 2, given: 1 }", 2),
    ("AA5TEST1 3 over a chart: 1 2 false 110/2", 3),
    ("AA5TEST1 4 over a chart: 1 2 true 100/1 110/1 110/2", 4),
    ("AA5TEST1 5 over none: 1 1 false 100/1 110/1", 5),
    ("AA5TEST1 6 over a chart: 2 0 false 110/1", 6),
    ("AA5TEST2 7 over none: 1 0 false 100/1 110/1", 7),
    ("AA5TEST1 8 over a chart: 2 0 false 100/1 110/1", 8),
    ("AA5TEST1 9 over none: 1 0 false 100/1 110/1", 9),
];

/// What is held after so many accepted commands.
pub static HELD: [&str; 10] = [
    "",
    "AA5TEST1 1.0 1 1.0 1;",
    "AA5TEST1 1.1 2 1.1 1;",
    "AA5TEST1 1.2 3 1.2 2;",
    "AA5TEST1 1.2 4;",
    "AA5TEST1 1.1 2 1.1 1;",
    "AA5TEST1 2.0 1 2.0 1;",
    "AA5TEST1 2.0 1 2.0 1;AA5TEST2 1.0 1 1.0 1;",
    "AA5TEST2 1.0 1 1.0 1;",
    "AA5TEST1 1.0 1 1.0 1;AA5TEST2 1.0 1 1.0 1;",
];

/// What is held after so many accepted commands, or after all.
pub fn held_after(commands: u64) -> &'static str {
    HELD.get(commands as usize).copied().unwrap_or("all")
}

#[test]
fn a_script_is_answered(rt: HostRuntime) -> Result<(), Fail> {
    let mut desk = failing_desk(rt.alloc(), CALLS + 1)?;
    let told = tell(rt.alloc(), &mut desk, &SCRIPT)?;
    // There is no call behind the last of those that were counted.
    assert_eq!(rt; desk.faults(), 0);
    assert_eq!(rt; told.len(), ANSWERS.len());
    for (told, (answer, accepted)) in told.iter().zip(&ANSWERS) {
        assert_eq!(rt; told.answer.as_str(), *answer);
        assert_eq!(rt; told.held.as_str(), held_after(*accepted));
    }
    Ok(())
}
