//! A script that is stopped at each call of the desk, and the store that is opened then. Two saves stand among its
//! lines.
//!
//! A call that fails is torn, and leaves the images that a crash inside it may leave. A store is opened on three of
//! these, and has to list what the commands left whose replies were begun, or one command more. What was said is a front
//! of what the script says where no call fails.

ghost use Rattle.std.specs.Prelude.{◌≡◌, ◌<◌};

use super::{Case, failing, shelf, words};
use crate::run::run_ecdis;
use crate::run::status::Status;
use chart_ports::{Fill, Images, MemoryDesk, MemorySource, Steps};
use std::alloc::{AllocError, Global};
use std::marker::Brand;
use std::sync::ledger::{Blank, Ledger};
use std::test::Fail;

/// A line, its reply, what `cells` lists once it is run, where the line is accepted, and how many calls of the disk it
/// makes: four for a command, and nine for the one slice of a save in which one command was accepted.
static LINES: [(&str, &str, Option<&str>, usize); 18] = [
    ("cells\n", "ok cells 0\n", None, 0),
    (
        "load T\n",
        "ok load AA5TEST1 1 0\n",
        Some("ok cells 1\ncell AA5TEST1 1 0 1 2\n"),
        4,
    ),
    ("save\n", "ok save 1\n", None, 0),
    ("load NONE\n", "no 71 NONE\n", None, 0),
    (
        "load U\n",
        "ok load AA5TEST1 1 1\n",
        Some("ok cells 1\ncell AA5TEST1 1 1 2 2\n"),
        4,
    ),
    ("save-step 1\n", "ok saved\n", None, 9),
    ("hello\n", "no 70 7\n", None, 0),
    (
        "load T0\n",
        "ok load AA5TEST0 1 0\n",
        Some("ok cells 2\ncell AA5TEST0 1 0 1 2\ncell AA5TEST1 1 1 2 2\n"),
        4,
    ),
    ("rollback AA5TEST1 7\n", "no 74 AA5TEST1 7\n", None, 0),
    (
        "rollback AA5TEST1 0\n",
        "ok rollback AA5TEST1 1 0\n",
        Some("ok cells 2\ncell AA5TEST0 1 0 1 2\ncell AA5TEST1 1 0 1 2\n"),
        4,
    ),
    (
        "load CANCEL\n",
        "ok cancel AA5TEST1\n",
        Some("ok cells 2\ncell AA5TEST0 1 0 1 2\ncell AA5TEST1 1 0 2 cancelled\n"),
        4,
    ),
    ("load U\n", "no 34 AA5TEST1\n", None, 0),
    // A save that is never ended.
    ("save\n", "ok save 1\n", None, 0),
    (
        "rollback AA5TEST1 0\n",
        "ok rollback AA5TEST1 1 0\n",
        Some("ok cells 2\ncell AA5TEST0 1 0 1 2\ncell AA5TEST1 1 0 1 2\n"),
        4,
    ),
    ("drop ZZ\n", "no 73 ZZ\n", None, 0),
    (
        "drop AA5TEST0\n",
        "ok drop AA5TEST0\n",
        Some("ok cells 1\ncell AA5TEST1 1 0 1 2\n"),
        4,
    ),
    ("# a remark\n", "", None, 0),
    ("drop AA5TEST0\n", "no 73 AA5TEST0\n", None, 0),
];

/// What is listed of an empty store.
const NOTHING: &str = "ok cells 0\n";

/// How many calls an opening makes.
const OPENING: u64 = 8;

/// The sides that a store shows which is opened after one of a command's calls failed, or its reply, with each fill of
/// the bytes that are uncertain: what was held before it, or after it. A line that is not accepted shows what was held
/// before it wherever it is stopped, a save too.
static FAILED: [&str; 5] = ["bbb", "bbb", "bba", "baa", "aaa"];

fn run_with<C: Ledger>(
    alloc: Global,
    script: &[u8],
    desk: &mut MemoryDesk,
    blank: Blank,
) -> Result<Status, AllocError>
    requires name { blank.name ≡ C.name }
    requires parts { blank.parts ≡ C.parts }
    requires share { 0 < C.parts }
{
    let words = words(alloc)?;
    let mut script = MemorySource::new(script.to_vec(alloc)?, failing(alloc, 0)?);
    let mut shelf = shelf(alloc, &Case::of(b""))?;
    let mut panels = Vec::new(alloc);
    let mut steps = Steps::<C>::new(blank);
    Ok(run_ecdis(
        alloc,
        &words,
        &mut script,
        &mut shelf,
        desk,
        &mut panels,
        &mut steps,
    ))
}

/// Runs a script on a desk.
fn run(alloc: Global, script: &[u8], desk: &mut MemoryDesk) -> Result<Status, AllocError> {
    run_with::<Brand>(alloc, script, desk, Blank::new(1))
}

/// The whole script.
fn script(alloc: Global) -> Result<Vec<u8>, AllocError> {
    let mut script = Vec::new(alloc);
    for (line, _, _, _) in &LINES {
        script.extend_from_slice(line.as_bytes())?;
    }
    Ok(script)
}

/// All replies.
fn replies(alloc: Global) -> Result<Vec<u8>, AllocError> {
    let mut replies = Vec::new(alloc);
    for (_, reply, _, _) in &LINES {
        replies.extend_from_slice(reply.as_bytes())?;
    }
    Ok(replies)
}

/// What a store in these files lists.
fn listed(alloc: Global, images: Images) -> Result<Vec<u8>, AllocError> {
    let mut desk = MemoryDesk::open(alloc, failing(alloc, 0)?, images)?;
    let _ = run(alloc, b"cells\n", &mut desk)?;
    desk.said().to_vec(alloc)
}

/// With each fill of the bytes that a crash now leaves uncertain, whether what is listed is as before a command or as
/// after it: `b` or `a`.
fn sides(
    alloc: Global,
    desk: &MemoryDesk,
    before: &str,
    after: &str,
) -> Result<String, AllocError> {
    let mut sides = String::new(alloc);
    for fill in [Fill::Old, Fill::New, Fill::Ones] {
        let listed = listed(alloc, desk.image_after(alloc, u64::MAX, fill)?)?;
        let side = match listed.as_slice() {
            listed if listed == before.as_bytes() => 'b',
            listed if listed == after.as_bytes() => 'a',
            _ => '?',
        };
        sides.push(side)?;
    }
    Ok(sides)
}

/// Whether the script ends with this status and these sides, and says a front of the replies, on a desk whose call of
/// this number fails.
fn stops(
    alloc: Global,
    call: u64,
    status: Status,
    before: &str,
    after: &str,
    wanted: &str,
) -> Result<bool, AllocError> {
    let mut desk = MemoryDesk::new(alloc, failing(alloc, call)?);
    let ended = run(alloc, &script(alloc)?, &mut desk)?;
    let sides = sides(alloc, &desk, before, after)?;
    let is_front = replies(alloc)?.starts_with(desk.said());
    Ok(ended == status && is_front && sides.as_str() == wanted)
}

/// The sides where a line is stopped at its call of this number, from 0.
fn wanted(accepted: bool, call: usize) -> &'static str {
    if !accepted {
        return "bbb";
    }
    FAILED.get(call).copied().unwrap_or("?")
}

#[test]
fn a_crash_of_the_opening_leaves_nothing(rt: HostRuntime) -> Result<(), Fail> {
    for call in 1..=OPENING {
        let stops = stops(rt.alloc(), call, Status::DeskFault, NOTHING, "", "bbb")?;
        assert!(rt; stops, "at call {call}");
    }
    Ok(())
}

#[test]
fn a_crash_leaves_the_commands_that_were_acknowledged(rt: HostRuntime) -> Result<(), Fail> {
    let alloc = rt.alloc();
    let mut calls = OPENING;
    let mut before = NOTHING;
    for (line, reply, accepted, count) in &LINES {
        let after = accepted.unwrap_or(before);
        // The last call says the reply, where there is one.
        let all = count.saturating_add(usize::from(!reply.is_empty()));
        for call in 0..all {
            calls = calls.saturating_add(1);
            let wanted = wanted(accepted.is_some(), call);
            let stops = stops(alloc, calls, Status::DeskFault, before, after, wanted)?;
            assert!(rt; stops, "at call {calls}, {line}");
        }
        before = after;
    }
    // No further call is made, and all commands are there.
    let further = calls.saturating_add(1);
    assert!(rt; stops(alloc, further, Status::Done, "", before, "aaa")?);
    Ok(())
}

#[test]
fn the_output_is_the_replies(rt: HostRuntime) -> Result<(), Fail> {
    let alloc = rt.alloc();
    let mut desk = MemoryDesk::new(alloc, failing(alloc, 0)?);
    let status = run(alloc, &script(alloc)?, &mut desk)?;
    assert_eq!(rt; status, Status::Done);
    assert_eq!(rt; desk.said(), replies(alloc)?.as_slice());
    Ok(())
}
