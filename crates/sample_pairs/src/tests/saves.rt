//! Saves of an empty checkpoint, and of checkpoints that end near the end of a slice.
//!
//! A record that is appended during a save has to stand in both banks, before a slice as behind it. The lengths are
//! those at which a checkpoint gets a slice more, with the eight bytes of its header counted.

use crate::driven::{Step, leave};
use crate::files::{Files, NOTHING, are_files, opened};
use std::alloc::{AllocError, Global};
use std::test::Fail;

/// Saves of an empty checkpoint after a record: with none since, with one before the slice and behind it, and with one
/// behind the flip.
const ALONE: &[Step] = &[Step::Append(b'a'), Step::Begin(0), Step::Slice, Step::Flip];

const BEFORE: &[Step] = &[
    Step::Append(b'a'),
    Step::Begin(0),
    Step::Append(b'x'),
    Step::Slice,
    Step::Flip,
];

const BEHIND: &[Step] = &[
    Step::Append(b'a'),
    Step::Begin(0),
    Step::Slice,
    Step::Append(b'x'),
    Step::Flip,
];

const AFTER: &[Step] = &[
    Step::Append(b'a'),
    Step::Begin(0),
    Step::Slice,
    Step::Flip,
    Step::Append(b'x'),
];

/// A save, and then another one back into bank 1.
const TWICE: &[Step] = &[
    Step::Append(b'a'),
    Step::Begin(2),
    Step::Slice,
    Step::Append(b'x'),
    Step::Flip,
    Step::Begin(0),
    Step::Append(b'y'),
    Step::Slice,
    Step::Flip,
];

const EMPTY: &[u8] = b"\0\0\0\0\0\0\0\0\0";

const A: &[u8] = b"\0\0\0\0\0\0\0\0\x01\0\0\0\x01a\0";

const A_AND_X: &[u8] = b"\0\0\0\0\0\0\0\0\x01\0\0\0\x01a\x01\0\0\0\x01x\0";

const X: &[u8] = b"\0\0\0\0\0\0\0\0\x01\0\0\0\x01x\0";

const SAVED: &[u8] = b"\0\0\0\0\0\0\0\x02AB\x01\0\0\0\x01x\x01\0\0\0\x01y\0";

const Y: &[u8] = b"\0\0\0\0\0\0\0\0\x01\0\0\0\x01y\0";

/// Scripts, the files after them, and what these say. A record that is appended during a save goes into both banks.
static SAVES: [(&[Step], Files, &str); 5] = [
    (ALONE, [b"\x01", A, EMPTY], "0"),
    (BEFORE, [b"\x01", A_AND_X, X], "0|x"),
    (BEHIND, [b"\x01", A_AND_X, X], "0|x"),
    (AFTER, [b"\x01", A, X], "0|x"),
    (TWICE, [b"\0", Y, SAVED], "0|y"),
];

/// What the files say after steps, where they are these.
fn says_after(alloc: Global, steps: &[Step], files: Files) -> Result<String, AllocError> {
    let (fault, left) = leave(alloc, NOTHING, steps)?;
    if fault.is_none() && are_files(&left, files) {
        return opened(alloc, left);
    }
    String::from_str(alloc, "other files")
}

#[test]
fn an_empty_checkpoint_is_saved(rt: HostRuntime) -> Result<(), Fail> {
    for (number, (steps, files, says)) in SAVES.iter().enumerate() {
        let told = says_after(rt.alloc(), steps, *files)?;
        assert!(rt; told.as_str() == *says, "row {number}");
    }
    Ok(())
}

/// Lengths of a checkpoint, in how many slices of 65,536 bytes it is written behind its header of 8, and what the files
/// say then.
static SIZES: [(usize, usize, &str); 5] = [
    (0, 1, "0"),
    (65_528, 1, "65528"),
    (65_529, 2, "65529"),
    (131_064, 2, "131064"),
    (131_065, 3, "131065"),
];

/// The steps of a save in so many slices.
fn save_of(alloc: Global, count: usize, slices: usize) -> Result<Vec<Step>, AllocError> {
    let mut steps = vec![in alloc; Step::Begin(count)]?;
    for _ in 0..slices {
        steps.push(Step::Slice)?;
    }
    steps.push(Step::Flip)?;
    Ok(steps)
}

/// What the files say after a save in so many slices. A slice too many is not taken, nor a flip before the last one.
fn says_in(alloc: Global, count: usize, slices: usize) -> Result<String, AllocError> {
    let steps = save_of(alloc, count, slices)?;
    let (fault, left) = leave(alloc, NOTHING, &steps)?;
    if fault.is_none() {
        return opened(alloc, left);
    }
    String::from_str(alloc, "other slices")
}

#[test]
fn a_checkpoint_has_as_many_slices_as_it_needs(rt: HostRuntime) -> Result<(), Fail> {
    for (count, slices, says) in &SIZES {
        let told = says_in(rt.alloc(), *count, *slices)?;
        assert!(rt; told.as_str() == *says, "{count} bytes");
    }
    Ok(())
}
