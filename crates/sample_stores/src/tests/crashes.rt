//! A crash at each moment, and a call that fails at each number.
//!
//! The script makes 44 calls, so a crash is tried at 45 moments, with three fills of the bytes that are uncertain
//! there. Files that are opened then have to hold what was held before a command or after it, and nothing else.

use crate::files::BASE;
use crate::stores::{failing_desk, opened, tell};
use crate::tests::script::{APPENDING, CALLS, OPENING, SCRIPT, held_after};
use chart_ports::{Fill, MemoryDesk};
use std::alloc::{AllocError, Global};
use std::test::Fail;

/// With each fill of the bytes that a crash after so many calls leaves uncertain, whether what is held is as before a
/// command or as after it: `b` or `a`.
fn sides(
    alloc: Global,
    desk: &MemoryDesk,
    calls: u64,
    before: &str,
    after: &str,
) -> Result<String, AllocError> {
    let mut sides = String::new(alloc);
    for fill in [Fill::Old, Fill::New, Fill::Ones] {
        let held = opened(alloc, desk.image_after(alloc, calls, fill)?)?;
        let side = match held.as_str() {
            held if held == before => 'b',
            held if held == after => 'a',
            _ => '?',
        };
        sides.push(side)?;
    }
    Ok(sides)
}

/// The sides after none of a command's calls, after the write of its record and its sync, and after the write of its
/// gate: before that write nothing counts, and then its byte says whether the command does.
static LEFT: [&str; 4] = ["bbb", "bbb", "bbb", "baa"];

/// The sides where one of these calls failed: a write of one byte that failed has written nothing, so a read gives the
/// closed gate, but a crash may still leave any byte there.
static FAILED: [&str; 4] = ["bbb", "bbb", "bba", "baa"];

/// The sides of a table with so many calls behind the opening.
fn wanted(table: &[&'static str], calls: u64) -> &'static str {
    table
        .get((calls % APPENDING) as usize)
        .copied()
        .unwrap_or("?")
}

#[test]
fn a_gate_says_whether_a_cell_is_held(rt: HostRuntime) -> Result<(), Fail> {
    let alloc = rt.alloc();
    let mut desk = failing_desk(alloc, 0)?;
    let _ = tell(alloc, &mut desk, &[BASE])?;
    for (calls, wanted) in [(9, "bbb"), (10, "bbb"), (11, "baa"), (12, "aaa")] {
        let sides = sides(alloc, &desk, calls, "", "AA5TEST1 1.0 1 1.0 1;")?;
        assert_eq!(rt; sides.as_str(), wanted, "after {calls} calls");
    }
    Ok(())
}

#[test]
fn a_crash_leaves_what_was_held_before_or_after(rt: HostRuntime) -> Result<(), Fail> {
    let alloc = rt.alloc();
    let mut desk = failing_desk(alloc, 0)?;
    let _ = tell(alloc, &mut desk, &SCRIPT)?;
    for calls in 0..=CALLS {
        let behind = calls.saturating_sub(OPENING);
        let before = held_after(behind / APPENDING);
        let after = held_after(behind.div_ceil(APPENDING));
        let sides = sides(alloc, &desk, calls, before, after)?;
        assert_eq!(rt;
            sides.as_str(),
            wanted(&LEFT, behind),
            "after {calls} calls"
        );
    }
    Ok(())
}

#[test]
fn a_call_that_fails_ends_the_store(rt: HostRuntime) -> Result<(), Fail> {
    let alloc = rt.alloc();
    for calls in 0..CALLS {
        let mut desk = failing_desk(alloc, calls + 1)?;
        let told = tell(alloc, &mut desk, &SCRIPT)?;
        let behind = calls.saturating_sub(OPENING);
        let before = held_after(behind / APPENDING);
        let last = told.last().ok_or("nothing is told")?;
        assert_eq!(rt; desk.faults(), 1);
        assert_eq!(rt;
            (last.answer.as_str(), last.held.as_str()),
            ("DeskFault", before)
        );
        let after = held_after(behind / APPENDING + 1);
        let sides = sides(alloc, &desk, CALLS, before, after)?;
        assert_eq!(rt;
            sides.as_str(),
            wanted(&FAILED, behind),
            "at call {}",
            calls + 1
        );
    }
    Ok(())
}
