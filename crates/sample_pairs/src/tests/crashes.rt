//! A crash after each call of a script, and each call of it failing.
//!
//! How many of the images say what was said before a step, and how many what is said after it, is counted and compared
//! too. So a table that is wrong in the same way as the code would have to be wrong in these numbers as well.

use crate::driven::{Outcome, drive};
use crate::files::{NOTHING, desk_with, opened};
use crate::tests::script::{CALLS, FILLS, STEPS, Sides, place_of};
use chart_ports::MemoryDesk;
use sample_devices::Untold;
use std::alloc::{AllocError, Global};
use std::test::Fail;

/// What the files say that a crash after so many calls leaves.
fn sides_of(
    alloc: Global,
    desk: &MemoryDesk,
    calls: u64,
    before: &str,
    after: &str,
) -> Result<Sides, AllocError> {
    let mut sides = *b"???";
    for (side, fill) in sides.iter_mut().zip(FILLS) {
        let says = opened(alloc, desk.image_after(alloc, calls, fill)?)?;
        *side = match says.as_str() {
            says if says == before => b'b',
            says if says == after => b'a',
            _ => b'?',
        };
    }
    Ok(sides)
}

/// The opening and each step succeed.
const DONE: Outcome = Outcome {
    done: 13,
    fault: None,
};

/// What came of the script where one call fails, and the desk then.
fn script_on(alloc: Global, failing: u64) -> Result<(Outcome, Untold), AllocError> {
    let mut desk = desk_with(alloc, NOTHING, failing)?;
    let outcome = drive(alloc, &mut desk, &STEPS);
    Ok((outcome, desk))
}

/// What is left after each number of calls.
#[derive(Clone, Copy)]
struct Told {
    /// How many images said what the files said before a step.
    before: usize,
    /// How many said what they say after it.
    after: usize,
    /// The last number of calls after which a crash left anything else than it was to leave.
    wrong: Option<u64>,
}

/// How many of the images are on one side.
fn count_of(sides: Sides, wanted: u8) -> usize {
    let mut count = 0_usize;
    for side in sides {
        count = count.saturating_add(usize::from(side == wanted));
    }
    count
}

/// What crashes leave after none of the calls of the script up to after all of them.
fn crashed_at_each(alloc: Global, desk: &MemoryDesk) -> Result<Told, Fail> {
    let mut told = Told {
        before: 0,
        after: 0,
        wrong: None,
    };
    for calls in 0..=CALLS {
        let last = place_of(calls.saturating_sub(1)).ok_or("no such call")?;
        let sides = sides_of(alloc, desk, calls, last.before, last.after)?;
        told.before = told.before.saturating_add(count_of(sides, b'b'));
        told.after = told.after.saturating_add(count_of(sides, b'a'));
        if sides != last.crashed {
            told.wrong = Some(calls);
        }
    }
    Ok(told)
}

#[test]
fn a_crash_leaves_what_was_before_a_step_or_what_is_after_it(rt: HostRuntime) -> Result<(), Fail> {
    let (_, desk) = script_on(rt.alloc(), 0)?;
    let told = crashed_at_each(rt.alloc(), &desk.memory)?;
    assert!(rt; told.wrong.is_none(), "after {:?} calls", told.wrong);
    // There are 50 moments, with three fills each.
    assert!(rt; told.before == 115 && told.after == 35);
    Ok(())
}

/// What came of the script where one call fails, how many calls failed, and what is left then.
fn failed_at(
    alloc: Global,
    number: u64,
    before: &str,
    after: &str,
) -> Result<(Outcome, u64, Sides), AllocError> {
    let (outcome, desk) = script_on(alloc, number)?;
    let sides = sides_of(alloc, &desk.memory, u64::MAX, before, after)?;
    Ok((outcome, desk.memory.faults(), sides))
}

#[test]
fn a_call_that_fails_ends_the_script(rt: HostRuntime) -> Result<(), Fail> {
    for number in 0..CALLS {
        let call = place_of(number).ok_or("no such call")?;
        let (outcome, faults, sides) = failed_at(rt.alloc(), number + 1, call.before, call.after)?;
        let ended = outcome.done == call.step && outcome.fault == Some(call.fault);
        assert!(rt;
            ended && faults == 1 && sides == call.failed,
            "call {number}"
        );
    }
    Ok(())
}

#[test]
fn a_script_makes_so_many_calls(rt: HostRuntime) -> Result<(), Fail> {
    let (outcome, desk) = script_on(rt.alloc(), CALLS + 1)?;
    assert!(rt; outcome == DONE && desk.memory.faults() == 0);
    Ok(())
}
