//! Saves, with all other lines between their slices.
//!
//! A script with four saves, of which the last is never ended, is stopped after each of its calls of the desk, and has
//! each of them fail in turn. A store that is opened then lists what was held before the line at hand, or what that line
//! leaves, and nothing else: whatever a save has written, the store is as if there were none.

use super::turns::{BASE as RECORDS, add_file, failing, said_on, shelf};
use chart_ports::{Fill, MemoryDesk, MemoryShelf};
use std::alloc::{AllocError, Global};
use std::test::Fail;

/// A record that says nothing of a chart, but for the 70,000 bytes of its one field.
const PADDING: &[u8] = b"70039 D     00039   5504NATF7000000000\x1e";

/// What is listed of the cell AA5TEST1, and of the cell for trials, and of both.
const CELLS: [&[u8]; 1] = [b"cells"];

const NOTHING: &[u8] = b"ok cells 0\n";

const BASE: &[u8] = b"ok cells 1\ncell AA5TEST1 1 0 1 2\n";

const UPDATED: &[u8] = b"ok cells 1\ncell AA5TEST1 1 1 2 2\n";

const MADE: &[u8] = b"ok cells 1\ncell MK000001 1 0 1 3\n";

const BASE_MADE: &[u8] = b"ok cells 2\ncell AA5TEST1 1 0 1 2\ncell MK000001 1 0 1 3\n";

const UPDATED_MADE: &[u8] = b"ok cells 2\ncell AA5TEST1 1 1 2 2\ncell MK000001 1 0 1 3\n";

const CANCELLED_MADE: &[u8] = b"ok cells 2\ncell AA5TEST1 1 1 3 cancelled\ncell MK000001 1 0 1 3\n";

const UPDATED_TWICE: &[u8] = b"ok cells 2\ncell AA5TEST1 1 1 2 2\ncell MK000001 1 1 2 3\n";

const UPDATED_REISSUED: &[u8] = b"ok cells 2\ncell AA5TEST1 1 1 2 2\ncell MK000001 1 1 1 3\n";

/// A line, its reply, what is listed behind it where its command is accepted, and how many calls of the desk it makes.
///
/// A command makes four. A slice of a save is one write; before the first one the other bank is cut and has its header
/// written. Behind the last one come a closed gate, two writes for each command that was accepted since the save began, a
/// sync, and the head with its sync.
static LINES: [(&[u8], &[u8], Option<&[u8]>, u64); 40] = [
    (b"cells", NOTHING, None, 0),
    (b"save-step 1", b"no 76\n", None, 0),
    // nothing is held
    (b"save", b"ok save 1\n", None, 0),
    (b"save", b"no 79\n", None, 0),
    (b"save-step 1", b"ok saved\n", None, 7),
    (b"load T", b"ok load AA5TEST1 1 0\n", Some(BASE), 4),
    (
        b"draw AA5TEST1",
        b"ok draw AA5TEST1 2\nitem 4 P 1 whole SY(A)\nitem 4 P 1 whole SY(B)\n",
        None,
        0,
    ),
    // commands before the one slice of a save
    (b"save", b"ok save 1\n", None, 0),
    (b"load U", b"ok load AA5TEST1 1 1\n", Some(UPDATED), 4),
    (
        b"make 1 0",
        b"ok make MK000001 1 0 5\n",
        Some(UPDATED_MADE),
        4,
    ),
    (
        b"rollback AA5TEST1 0",
        b"ok rollback AA5TEST1 1 0\n",
        Some(BASE_MADE),
        4,
    ),
    (b"drop MK000001", b"ok drop MK000001\n", Some(BASE), 4),
    (b"save-step 9", b"ok saved\n", None, 15),
    // commands between the slices of a save
    (b"drop AA5TEST1", b"ok drop AA5TEST1\n", Some(NOTHING), 4),
    (b"load P", b"ok load AA5TEST1 1 0\n", Some(BASE), 4),
    (b"save", b"ok save 3\n", None, 0),
    (b"save-step 1", b"ok save-step 1 3\n", None, 3),
    (b"load U", b"ok load AA5TEST1 1 1\n", Some(UPDATED), 4),
    (b"save-step 1", b"ok save-step 2 3\n", None, 1),
    (
        b"rollback AA5TEST1 0",
        b"ok rollback AA5TEST1 1 0\n",
        Some(BASE),
        4,
    ),
    (b"make 1 0", b"ok make MK000001 1 0 5\n", Some(BASE_MADE), 4),
    (b"drop AA5TEST1", b"ok drop AA5TEST1\n", Some(MADE), 4),
    (b"save", b"no 79\n", None, 0),
    (b"save-step 1", b"ok saved\n", None, 13),
    (b"load U", b"no 30 AA5TEST1\n", None, 0),
    (b"load P", b"ok load AA5TEST1 1 0\n", Some(BASE_MADE), 4),
    (b"load X", b"no 71 X\n", None, 0),
    // a save that is never ended
    (b"save", b"ok save 3\n", None, 0),
    (b"save-step 2", b"ok save-step 2 3\n", None, 4),
    (b"load U", b"ok load AA5TEST1 1 1\n", Some(UPDATED_MADE), 4),
    (b"draw ZZ", b"no 73 ZZ\n", None, 0),
    (
        b"load CANCEL",
        b"ok cancel AA5TEST1\n",
        Some(CANCELLED_MADE),
        4,
    ),
    (b"reissue AA5TEST1", b"no 73 AA5TEST1\n", None, 0),
    (
        b"rollback AA5TEST1 1",
        b"ok rollback AA5TEST1 1 1\n",
        Some(UPDATED_MADE),
        4,
    ),
    (b"info T", b"ok info AA5TEST1 1 0 4\n", None, 0),
    (b"rollback AA5TEST1 7", b"no 74 AA5TEST1 7\n", None, 0),
    (
        b"make 1 1",
        b"ok make MK000001 1 1 2\n",
        Some(UPDATED_TWICE),
        4,
    ),
    (
        b"reissue MK000001",
        b"ok reissue MK000001 1 1\n",
        Some(UPDATED_REISSUED),
        4,
    ),
    (b"drop MK000001", b"ok drop MK000001\n", Some(UPDATED), 4),
    (b"cells", UPDATED, None, 0),
];

/// How many calls an opening makes.
const OPENING: u64 = 8;

/// With each fill of the bytes that are uncertain, whether what is listed is as before a command or as after it, after
/// so many of its calls; and where the next of them fails. What a save does shows nowhere.
static LEFT: [&str; 4] = ["bbb", "bbb", "bbb", "baa"];

static FAILED: [&str; 4] = ["bbb", "bbb", "bba", "baa"];

/// The sides of a table after so many calls of a line.
fn wanted(table: &[&'static str], accepted: bool, calls: u64) -> &'static str {
    if !accepted {
        return "bbb";
    }
    table.get(calls as usize).copied().unwrap_or("?")
}

/// The records of the base file, and two that say nothing.
fn padded(alloc: Global) -> Result<Vec<u8>, AllocError> {
    let mut records = RECORDS.to_vec(alloc)?;
    let field: Vec<u8> = vec![in alloc; 0; 70_000]?;
    for _ in 0..2 {
        records.extend_from_slice(PADDING)?;
        records.extend_from_slice(&field)?;
    }
    Ok(records)
}

/// The files, with a base file whose save takes three slices.
fn files(alloc: Global) -> Result<MemoryShelf, AllocError> {
    let mut shelf = shelf(alloc, 0)?;
    add_file(alloc, &mut shelf, "P", &padded(alloc)?)?;
    Ok(shelf)
}

/// All lines.
fn lines(alloc: Global) -> Result<Vec<&'static [u8]>, AllocError> {
    let mut lines = Vec::new(alloc);
    for (line, _, _, _) in &LINES {
        lines.push(*line)?;
    }
    Ok(lines)
}

/// With each fill of the bytes that a crash after so many calls leaves uncertain, whether what is listed is as before a
/// line or as after it: `b` or `a`.
fn sides(
    alloc: Global,
    desk: &MemoryDesk,
    calls: u64,
    before: &[u8],
    after: &[u8],
) -> Result<String, AllocError> {
    let mut sides = String::new(alloc);
    let mut shelf = MemoryShelf::new(alloc, failing(alloc, 0)?);
    for fill in [Fill::Old, Fill::New, Fill::Ones] {
        let images = desk.image_after(alloc, calls, fill)?;
        let mut opened = MemoryDesk::open(alloc, failing(alloc, 0)?, images)?;
        let listed = said_on(alloc, &CELLS, &mut shelf, &mut opened)?;
        let side = match listed.as_slice() {
            listed if listed == before => 'b',
            listed if listed == after => 'a',
            _ => '?',
        };
        sides.push(side)?;
    }
    Ok(sides)
}

#[test]
fn a_crash_leaves_what_was_held(rt: HostRuntime) -> Result<(), Fail> {
    let alloc = rt.alloc();
    let mut desk = MemoryDesk::new(alloc, failing(alloc, 0)?);
    let said = said_on(alloc, &lines(alloc)?, &mut files(alloc)?, &mut desk)?;
    let mut replies = Vec::new(alloc);
    let mut calls = OPENING;
    let mut before = NOTHING;
    for (_, reply, accepted, count) in &LINES {
        replies.extend_from_slice(reply)?;
        let after = accepted.unwrap_or(before);
        for call in 0..*count {
            let sides = sides(alloc, &desk, calls, before, after)?;
            let wanted = wanted(&LEFT, accepted.is_some(), call);
            assert!(rt; sides.as_str() == wanted, "after {calls} calls");
            calls = calls.saturating_add(1);
        }
        before = after;
    }
    assert!(rt; said.as_slice() == replies.as_slice());
    assert!(rt; sides(alloc, &desk, calls, b"", before)?.as_str() == "aaa");
    Ok(())
}

#[test]
fn a_call_that_fails_leaves_what_was_held(rt: HostRuntime) -> Result<(), Fail> {
    let alloc = rt.alloc();
    let lines = lines(alloc)?;
    let mut shelf = files(alloc)?;
    let mut calls = OPENING;
    let mut before = NOTHING;
    for (_, _, accepted, count) in &LINES {
        let after = accepted.unwrap_or(before);
        for call in 0..*count {
            calls = calls.saturating_add(1);
            let mut desk = MemoryDesk::new(alloc, failing(alloc, calls)?);
            let said = said_on(alloc, &lines, &mut shelf, &mut desk)?;
            let sides = sides(alloc, &desk, u64::MAX, before, after)?;
            let wanted = wanted(&FAILED, accepted.is_some(), call);
            assert!(rt;
                said.ends_with(b"desk fault") && desk.faults() == 1,
                "at call {calls}"
            );
            assert!(rt; sides.as_str() == wanted, "at call {calls}");
        }
        before = after;
    }
    // No further call is made.
    let mut desk = MemoryDesk::new(alloc, failing(alloc, calls.saturating_add(1))?);
    let said = said_on(alloc, &lines, &mut shelf, &mut desk)?;
    assert!(rt; said.ends_with(UPDATED) && desk.faults() == 0);
    Ok(())
}
