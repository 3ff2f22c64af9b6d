//! Files that are taken over, and refused.
//!
//! A refusal has to leave what is held as it was, so the scripts list the cells behind one. The limits are met from
//! both sides: 32 cells and one more, and 67,108,864 bytes of live files and some more.

use super::{Answer, Case, ends, first_wrong};
use crate::run::status::Status;
use std::alloc::{AllocError, Global};
use std::test::Fail;

/// The last character of the name of each cell, one more than may be held.
pub const CELLS: &[u8; 33] = b"0123456789ABCDEFGHIJKLMNOPQRSTUVW";

/// The same of the cells of the longest files, which are 67,108,864 bytes in all.
pub const LARGE: &[u8; 8] = b"01234567";

/// A line that loads the base file of each cell.
fn loads(alloc: Global) -> Result<Vec<u8>, AllocError> {
    let mut script = Vec::new(alloc);
    for last in CELLS {
        script.extend_from_slice(b"load T")?;
        script.push(*last)?;
        script.push(b'\n')?;
    }
    Ok(script)
}

/// The replies to these lines.
fn replies(alloc: Global) -> Result<Vec<u8>, AllocError> {
    let mut said = Vec::new(alloc);
    for last in &CELLS[..32] {
        said.extend_from_slice(b"ok load AA5TEST")?;
        said.push(*last)?;
        said.extend_from_slice(b" 1 0\n")?;
    }
    said.extend_from_slice(b"no 61 32\n")?;
    Ok(said)
}

static LOADS: [Answer; 8] = [
    (
        b"load T\nload U\ncells\n",
        b"ok load AA5TEST1 1 0\nok load AA5TEST1 1 1\nok cells 1\ncell AA5TEST1 1 1 2 2\n",
    ),
    (
        b"load U\nload CANCEL\ncells\nload T\n",
        b"no 30 AA5TEST1\nno 30 AA5TEST1\nok cells 0\nok load AA5TEST1 1 0\n",
    ),
    // What is refused leaves what is held as it was.
    (
        b"load T\nload DELETE\nload EMPTY\nload NONE\ncells\nload U\nload U\nload DELETE\ncells\n",
        b"ok load AA5TEST1 1 0\nno 33 1 2\nno 10 0\nno 71 NONE\nok cells 1\ncell AA5TEST1 1 0 1 2\n\
ok load AA5TEST1 1 1\nno 33 2 1\nno 50 100 1 110 1\nok cells 1\ncell AA5TEST1 1 1 2 2\n",
    ),
    (
        b"load T\nload CANCEL\ncells\nload U\nload CANCEL\ncells\n",
        b"ok load AA5TEST1 1 0\nok cancel AA5TEST1\nok cells 1\ncell AA5TEST1 1 0 2 cancelled\n\
no 34 AA5TEST1\nno 34 AA5TEST1\nok cells 1\ncell AA5TEST1 1 0 2 cancelled\n",
    ),
    // A cell that was cancelled goes back, and is there again.
    (
        b"load T\nload CANCEL\nload U\nrollback AA5TEST1 0\ncells\n",
        b"ok load AA5TEST1 1 0\nok cancel AA5TEST1\nno 34 AA5TEST1\nok rollback AA5TEST1 1 0\n\
ok cells 1\ncell AA5TEST1 1 0 1 2\n",
    ),
    (
        b"load T\nrollback AA5TEST1 7\ndrop ZZ\ndrop AA5TEST1\ncells\nload\n",
        b"ok load AA5TEST1 1 0\nno 74 AA5TEST1 7\nno 73 ZZ\nok drop AA5TEST1\nok cells 0\nno 70 6\n",
    ),
    (
        b"load T\nload U\nload T\nload CANCEL\nload T\ncells\n",
        b"ok load AA5TEST1 1 0\nok load AA5TEST1 1 1\nno 31 1 1 1 0\nok cancel AA5TEST1\nno 31 1 1 1 0\n\
ok cells 1\ncell AA5TEST1 1 1 3 cancelled\n",
    ),
    (
        b"load T1\nload T0\nload U\ncells\n",
        b"ok load AA5TEST1 1 0\nok load AA5TEST0 1 0\nok load AA5TEST1 1 1\n\
ok cells 2\ncell AA5TEST0 1 0 1 2\ncell AA5TEST1 1 1 2 2\n",
    ),
];

#[test]
fn takes_files_over(rt: HostRuntime) -> Result<(), Fail> {
    assert_eq!(rt; first_wrong(rt.alloc(), &LOADS, false)?, None);
    Ok(())
}

#[test]
fn holds_thirty_two_cells(rt: HostRuntime) -> Result<(), Fail> {
    let script = loads(rt.alloc())?;
    let said = replies(rt.alloc())?;
    let case = Case::of(script.as_slice());
    assert!(rt; ends(rt.alloc(), &case, Status::Done, said.as_slice())?);
    Ok(())
}

#[test]
fn holds_files_to_the_limit(rt: HostRuntime) -> Result<(), Fail> {
    let case = Case {
        large: true,
        ..Case::of(
            b"load L0\nload L1\nload L2\nload L3\nload L4\nload L5\nload L6\nload L7\nload U\nload T8\nload T0\n",
        )
    };
    let said =
        b"ok load AA5TEST0 1 0\nok load AA5TEST1 1 0\nok load AA5TEST2 1 0\nok load AA5TEST3 1 0\n\
ok load AA5TEST4 1 0\nok load AA5TEST5 1 0\nok load AA5TEST6 1 0\nok load AA5TEST7 1 0\n\
no 62 67109503\nno 62 67109631\nok load AA5TEST0 1 0\n";
    assert!(rt; ends(rt.alloc(), &case, Status::Done, said)?);
    Ok(())
}
