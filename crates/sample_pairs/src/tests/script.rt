//! The script whose crashes and failing calls are looked at.
//!
//! What the calls of a step leave is said once for each kind of step, since every append makes the same four. So 49
//! calls are a table of a few rows.

use crate::driven::{Step, StepFault};
use bank_journal::{AppendFault, BankFault};
use chart_ports::{Failed, Fill};

/// A whole save, with records before it, between its slices and behind it, and the first slice of another one. The
/// checkpoints are two slices long.
pub static STEPS: [Step; 12] = [
    Step::Append(b'a'),
    Step::Begin(70_000),
    Step::Append(b'b'),
    Step::Slice,
    Step::Append(b'c'),
    Step::Slice,
    Step::Append(b'd'),
    Step::Flip,
    Step::Append(b'e'),
    Step::Begin(66_000),
    Step::Slice,
    Step::Append(b'f'),
];

/// What the files say, with each fill in the order of `FILLS`: b where it is what they said before a step, and a where
/// it is what they say after it.
pub type Sides = [u8; 3];

/// What stands in the place of each byte that a crash leaves uncertain.
pub const FILLS: [Fill; 3] = [Fill::Old, Fill::New, Fill::Ones];

/// The calls of a desk that the opening or a step makes, one after the other.
#[derive(Clone, Copy)]
pub struct Calls {
    /// What a crash after each call leaves.
    pub crashed: &'static [Sides],
    /// What is left where it fails.
    pub failed: &'static [Sides],
    /// What is answered then.
    pub fault: StepFault,
}

/// The files say what they did before, with each fill.
const SAME: Sides = *b"bbb";

/// Each of the three files is synced, and the head is read. Bank 1 is empty: its length is asked and it is read, and
/// then it is written and synced.
const OPENING: Calls = Calls {
    crashed: &[SAME, SAME, SAME, SAME, SAME, SAME, SAME, SAME],
    failed: &[SAME, SAME, SAME, SAME, SAME, SAME, SAME, SAME],
    fault: StepFault::Open(BankFault::DeskFault),
};

/// The record is written behind the closed gate and synced; then the gate is opened, which is one byte, and synced.
/// Before the last sync a crash leaves the gate closed or open. Where the write of it fails nothing was written, but a
/// crash may leave any byte there.
const APPEND: Calls = Calls {
    crashed: &[SAME, SAME, *b"baa", *b"aaa"],
    failed: &[SAME, SAME, *b"bba", *b"baa"],
    fault: StepFault::Append(AppendFault::DeskFault),
};

/// Where a save begins no call is made.
const BEGIN: Calls = Calls {
    crashed: &[],
    failed: &[],
    fault: StepFault::NotNow,
};

/// The other bank is cut, and its header is written, and the first bytes of the checkpoint.
const FIRST_SLICE: Calls = Calls {
    crashed: &[SAME, SAME, SAME],
    failed: &[SAME, SAME, SAME],
    fault: StepFault::Write(Failed),
};

/// The rest of the checkpoint is written.
const LAST_SLICE: Calls = Calls {
    crashed: &[SAME],
    failed: &[SAME],
    fault: StepFault::Write(Failed),
};

/// A closed gate is written; for each of the three records since, it is opened, and the record is written with another
/// one; the bank is synced. Then the head is written, which is one byte, and synced. It was empty, and stays so where
/// the write of it fails.
const FLIP: Calls = Calls {
    crashed: &[
        SAME, SAME, SAME, SAME, SAME, SAME, SAME, SAME, *b"baa", *b"aaa",
    ],
    failed: &[
        SAME, SAME, SAME, SAME, SAME, SAME, SAME, SAME, SAME, *b"baa",
    ],
    fault: StepFault::Write(Failed),
};

/// The calls of the opening and of each step, and what the files say after it.
static ROWS: [(Calls, &str); 13] = [
    (OPENING, START),
    (APPEND, "0|a"),
    (BEGIN, "0|a"),
    (APPEND, "0|a|b"),
    (FIRST_SLICE, "0|a|b"),
    (APPEND, "0|a|b|c"),
    (LAST_SLICE, "0|a|b|c"),
    (APPEND, "0|a|b|c|d"),
    (FLIP, "70000|b|c|d"),
    (APPEND, "70000|b|c|d|e"),
    (BEGIN, "70000|b|c|d|e"),
    (FIRST_SLICE, "70000|b|c|d|e"),
    (APPEND, "70000|b|c|d|e|f"),
];

/// What the files say before the opening.
const START: &str = "0";

/// How many calls these are: 8 of the opening, 6 times 4 of an append, 3 and 1 and 3 of slices, 10 of the flip.
pub const CALLS: u64 = 49;

/// How many of the first calls the script makes up to the end of the flip.
pub const FLIPPED: u64 = 38;

/// A call of the script.
#[derive(Clone, Copy)]
pub struct Place {
    /// How many of the opening and the steps come before the one that makes it.
    pub step: usize,
    /// What the files say before that one.
    pub before: &'static str,
    /// What they say after it.
    pub after: &'static str,
    /// What a crash after the call leaves.
    pub crashed: Sides,
    /// What is left where it fails.
    pub failed: Sides,
    /// What is answered then.
    pub fault: StepFault,
}

/// The call of a number, counted from 0.
pub fn place_of(number: u64) -> Option<Place> {
    let mut left = number as usize;
    let mut before = START;
    for (step, (calls, after)) in ROWS.iter().enumerate() {
        if let (Some(crashed), Some(failed)) = (calls.crashed.get(left), calls.failed.get(left)) {
            return Some(Place {
                step,
                before,
                after,
                crashed: *crashed,
                failed: *failed,
                fault: calls.fault,
            });
        }
        left = left.saturating_sub(calls.crashed.len());
        before = after;
    }
    None
}
