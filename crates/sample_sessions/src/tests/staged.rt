//! Files that are staged, with all other lines between their steps.
//!
//! A row is a whole session: its lines, and what is replied to each.

use super::turns::{add_file, failing, said_on, shelf};
use chart_ports::{FileBytes, MemoryDesk, MemoryShelf};
use session_core::staged_files_are_overtaken;
use std::alloc::{AllocError, Global};
use std::test::Fail;

/// The records of an update of three changes: the node at another place, and two nodes more.
const MORE: &[u8] = b"00063 D   0900034   23 4DSID29000\x1e\
AA5TEST1.001\x1f1\x1f1\x1f20240201\x02&\x02\x1e\
00076 D   0900052   23 4VRID09000SGCC06009SG2D09015\x1e\
n\x01\0\0\0\x02\0\x03\x1e\
\x03\x01\0\x01\0\x1e\
\x07\0\0\0\x08\0\0\0\x1e\
00061 D   0900043   23 4VRID09000SG2D09009\x1e\
n\x02\0\0\0\x01\0\x01\x1e\
\0\0\0\0d\0\0\0\x1e\
00061 D   0900043   23 4VRID09000SG2D09009\x1e\
n\x03\0\0\0\x01\0\x01\x1e\
\0\0\0\0d\0\0\0\x1e";

/// The records of one whose second change can't be made: the node is there.
const HALF: &[u8] = b"00063 D   0900034   23 4DSID29000\x1e\
AA5TEST1.001\x1f1\x1f1\x1f20240201\x02&\x02\x1e\
00061 D   0900043   23 4VRID09000SG2D09009\x1e\
n\x02\0\0\0\x01\0\x01\x1e\
\0\0\0\0d\0\0\0\x1e\
00061 D   0900043   23 4VRID09000SG2D09009\x1e\
n\x01\0\0\0\x01\0\x01\x1e\
\0\0\0\0d\0\0\0\x1e";

/// The records of one that leaves no closed chart: a feature points to a node that isn't there.
const LOOSE: &[u8] = b"00063 D   0900034   23 4DSID29000\x1e\
AA5TEST1.001\x1f1\x1f1\x1f20240201\x02&\x02\x1e\
00083 D   0900052   23 4FRID13000FOID09013FSPT09022\x1e\
d\x02\0\0\0\x01\x02*\0\x01\0\x01\x1e\
&\x02\x02\0\0\0\x01\0\x1e\
n\x09\0\0\0\xff\xff\xff\x1e";

/// The records of the second edition of the cell.
const EDITION: &[u8] = b"00074 D   0900043   23 4DSID29000DSSI02029\x1e\
AA5TEST1.000\x1f2\x1f0\x1f20240131\x01&\x02\x1e\
\x01\x1e\
00049 D   0900034   23 4DSPM15000\x1e\
\x10'\0\0\x01\x01\x80\x96\x98\0\n\0\0\0\x1e\
00061 D   0900043   23 4VRID09000SG2D09009\x1e\
n\x01\0\0\0\x01\0\x01\x1e\
\0\0\0\0d\0\0\0\x1e\
00083 D   0900052   23 4FRID13000FOID09013FSPT09022\x1e\
d\x01\0\0\0\x01\x02*\0\x01\0\x01\x1e\
&\x02\x01\0\0\0\x01\0\x1e\
n\x01\0\0\0\xff\xff\xff\x1e";

/// The records of a base file with the key of a cell for trials.
const TRIAL: &[u8] = b"00074 D   0900043   23 4DSID29000DSSI02029\x1e\
MK000002.000\x1f1\x1f0\x1f20240131\x01&\x02\x1e\
\x01\x1e\
00049 D   0900034   23 4DSPM15000\x1e\
\x10'\0\0\x01\x01\x80\x96\x98\0\n\0\0\0\x1e\
00061 D   0900043   23 4VRID09000SG2D09009\x1e\
n\x01\0\0\0\x01\0\x01\x1e\
\0\0\0\0d\0\0\0\x1e";

/// The files of all rows.
pub fn files(alloc: Global, call: u64) -> Result<MemoryShelf, AllocError> {
    let mut shelf = shelf(alloc, call)?;
    add_file(alloc, &mut shelf, "MORE", MORE)?;
    add_file(alloc, &mut shelf, "HALF", HALF)?;
    add_file(alloc, &mut shelf, "LOOSE", LOOSE)?;
    add_file(alloc, &mut shelf, "EDITION", EDITION)?;
    add_file(alloc, &mut shelf, "TRIAL", TRIAL)?;
    Ok(shelf)
}

/// A line, and its reply.
type Row = (&'static [u8], &'static [u8]);

/// Refusals, and what they leave: a `begin` leaves what is staged, a step and a commit leave nothing.
const REFUSED: [Row; 30] = [
    (b"step 1", b"no 76\n"),
    (b"commit", b"no 76\n"),
    (b"begin X", b"no 71 X\n"),
    (b"begin WAY", b"no 10 0\n"),
    (b"begin U", b"no 30 AA5TEST1\n"),
    (b"load EDITION", b"ok load AA5TEST1 2 0\n"),
    (b"begin T", b"no 31 2 0 1 0\n"),
    (b"begin U", b"no 32 2 1\n"),
    (b"drop AA5TEST1", b"ok drop AA5TEST1\n"),
    (b"load T", b"ok load AA5TEST1 1 0\n"),
    (b"load U", b"ok load AA5TEST1 1 1\n"),
    (b"begin U", b"no 33 2 1\n"),
    (b"load CANCEL", b"ok cancel AA5TEST1\n"),
    (b"begin U", b"no 34 AA5TEST1\n"),
    (b"step 1", b"no 76\n"),
    (b"rollback AA5TEST1 0", b"ok rollback AA5TEST1 1 0\n"),
    (b"begin HALF", b"ok begin AA5TEST1 2\n"),
    (b"begin X", b"no 79\n"),
    (b"step 1", b"ok step 1 2\n"),
    (b"step 9", b"no 40 110 1\n"),
    (b"step 1", b"no 76\n"),
    (b"begin HALF", b"ok begin AA5TEST1 2\n"),
    (b"commit", b"no 40 110 1\n"),
    (b"commit", b"no 76\n"),
    (b"begin LOOSE", b"ok begin AA5TEST1 1\n"),
    (b"step 9", b"ok step 1 1\n"),
    (b"commit", b"no 50 100 2 110 9\n"),
    (b"commit", b"no 76\n"),
    (b"load U", b"ok load AA5TEST1 1 1\n"),
    (b"cells", b"ok cells 1\ncell AA5TEST1 1 1 2 2\n"),
];

/// Steps of one change, of all and of more than there are; and none. Nothing shows before the commit.
const STEPPED: [Row; 19] = [
    (b"load T", b"ok load AA5TEST1 1 0\n"),
    (b"begin MORE", b"ok begin AA5TEST1 3\n"),
    (b"step 1", b"ok step 1 3\n"),
    (b"cells", b"ok cells 1\ncell AA5TEST1 1 0 1 2\n"),
    (b"step 1", b"ok step 2 3\n"),
    (b"step 999999999", b"ok step 3 3\n"),
    (b"step 1", b"ok step 3 3\n"),
    (b"commit", b"ok commit AA5TEST1 1 1\n"),
    (b"cells", b"ok cells 1\ncell AA5TEST1 1 1 2 4\n"),
    (b"rollback AA5TEST1 0", b"ok rollback AA5TEST1 1 0\n"),
    (b"begin MORE", b"ok begin AA5TEST1 3\n"),
    (b"commit", b"ok commit AA5TEST1 1 1\n"),
    (b"cells", b"ok cells 1\ncell AA5TEST1 1 1 2 4\n"),
    (b"begin CANCEL", b"ok begin AA5TEST1 0\n"),
    (b"step 1", b"ok step 0 0\n"),
    (b"commit", b"ok cancel AA5TEST1\n"),
    (b"cells", b"ok cells 1\ncell AA5TEST1 1 1 3 cancelled\n"),
    (b"begin EDITION", b"ok begin AA5TEST1 2\n"),
    (b"commit", b"ok commit AA5TEST1 2 0\n"),
];

/// Commands between a `begin` and its commit: one that is accepted for the cell overtakes the file, and the last such is
/// named, even where the numbers that are held are again what they were. One of another cell and a refused one don't.
const OVERTAKEN: [Row; 35] = [
    (b"load T", b"ok load AA5TEST1 1 0\n"),
    (b"begin U", b"ok begin AA5TEST1 1\n"),
    (b"step 1", b"ok step 1 1\n"),
    (b"load EDITION", b"ok load AA5TEST1 2 0\n"),
    (b"step 1", b"ok step 1 1\n"),
    (b"commit", b"no 75 1 2\n"),
    (b"cells", b"ok cells 1\ncell AA5TEST1 2 0 1 2\n"),
    (b"commit", b"no 76\n"),
    (b"drop AA5TEST1", b"ok drop AA5TEST1\n"),
    (b"load T", b"ok load AA5TEST1 1 0\n"),
    (b"begin U", b"ok begin AA5TEST1 1\n"),
    (b"make 1 0", b"ok make MK000001 1 0 5\n"),
    (b"rollback AA5TEST1 7", b"no 74 AA5TEST1 7\n"),
    (b"load CANCEL", b"ok cancel AA5TEST1\n"),
    (b"make 1 1", b"ok make MK000001 1 1 2\n"),
    (b"commit", b"no 75 4 6\n"),
    (b"rollback AA5TEST1 0", b"ok rollback AA5TEST1 1 0\n"),
    (b"begin U", b"ok begin AA5TEST1 1\n"),
    (b"make 1 0", b"no 31 1 1 1 0\n"),
    (b"reissue MK000001", b"ok reissue MK000001 1 1\n"),
    (b"rollback AA5TEST1 7", b"no 74 AA5TEST1 7\n"),
    (b"commit", b"ok commit AA5TEST1 1 1\n"),
    (b"rollback AA5TEST1 0", b"ok rollback AA5TEST1 1 0\n"),
    (b"begin U", b"ok begin AA5TEST1 1\n"),
    (b"load U", b"ok load AA5TEST1 1 1\n"),
    (b"rollback AA5TEST1 0", b"ok rollback AA5TEST1 1 0\n"),
    (b"commit", b"no 75 11 13\n"),
    (b"begin U", b"ok begin AA5TEST1 1\n"),
    (b"drop AA5TEST1", b"ok drop AA5TEST1\n"),
    (b"commit", b"no 75 13 14\n"),
    (b"begin TRIAL", b"ok begin MK000002 1\n"),
    (b"make 2 0", b"ok make MK000002 1 0 8\n"),
    (b"step 1", b"ok step 1 1\n"),
    (b"commit", b"no 75 14 15\n"),
    (
        b"cells",
        b"ok cells 2\ncell MK000001 1 1 1 3\ncell MK000002 1 0 1 6\n",
    ),
];

/// A refresh and a save go on beside: the panel shows the chart of the refresh, and the save is of what was held.
const BESIDE: [Row; 18] = [
    (b"load T", b"ok load AA5TEST1 1 0\n"),
    (b"refresh 2", b"ok refresh 2 2\n"),
    (b"begin U", b"ok begin AA5TEST1 1\n"),
    (b"begin U", b"no 79\n"),
    (b"paint 2 1", b"ok paint 2 1 2\n"),
    (b"step 1", b"ok step 1 1\n"),
    (b"save", b"ok save 1\n"),
    (b"commit", b"ok commit AA5TEST1 1 1\n"),
    (b"paint 2 9", b"ok paint 2 2 2\n"),
    (b"save-step 9", b"ok saved\n"),
    (b"panel 2", b"ok panel 2 1 2\n"),
    (b"commit", b"no 76\n"),
    (b"save", b"ok save 1\n"),
    (b"begin CANCEL", b"ok begin AA5TEST1 0\n"),
    (b"commit", b"ok cancel AA5TEST1\n"),
    (b"refresh 2", b"ok refresh 2 1\n"),
    (b"save-step 9", b"ok saved\n"),
    (b"cells", b"ok cells 1\ncell AA5TEST1 1 1 3 cancelled\n"),
];

/// A shelf that fails.
const UNSERVED: [Row; 3] = [
    (b"begin T", b"no 72\n"),
    (b"step 1", b"no 76\n"),
    (b"begin T", b"ok begin AA5TEST1 2\n"),
];

/// Legs that no coverage area covers, and routes that aren't read.
const COVERED: [Row; 5] = [
    (b"cover WAY", b"ok cover 2 2\nuncovered 1\nuncovered 2\n"),
    (b"load T", b"ok load AA5TEST1 1 0\n"),
    (b"cover BAD", b"no 66 2\n"),
    (b"cover SHORT", b"no 67 1\n"),
    (b"cover X", b"no 71 X\n"),
];

/// Rows, and the call of the shelf that fails.
const ROWS: [(&[Row], u64); 6] = [
    (&REFUSED, 0),
    (&STEPPED, 0),
    (&OVERTAKEN, 0),
    (&BESIDE, 0),
    (&UNSERVED, 1),
    (&COVERED, 0),
];

/// Whether each line of a row has its reply, over the store of a desk.
fn is_replied(
    alloc: Global,
    row: &[Row],
    shelf: &mut MemoryShelf,
    desk: &mut MemoryDesk,
) -> Result<bool, AllocError> {
    let mut lines = Vec::new(alloc);
    let mut wanted = Vec::new(alloc);
    for (line, reply) in row {
        lines.push(*line)?;
        wanted.extend_from_slice(reply)?;
    }
    Ok(said_on(alloc, &lines, shelf, desk)?.as_slice() == wanted.as_slice())
}

#[test]
fn rows(rt: HostRuntime) -> Result<(), Fail> {
    let alloc = rt.alloc();
    for (at, (row, call)) in ROWS.iter().enumerate() {
        let mut desk = MemoryDesk::new(alloc, failing(alloc, 0)?);
        let is_right = is_replied(alloc, row, &mut files(alloc, *call)?, &mut desk)?;
        assert!(rt; is_right, "row {at}");
    }
    staged_files_are_overtaken();
    Ok(())
}

/// What a store has that is opened again behind a save that was begun before a commit, and ended after it.
const REOPENED: [Row; 1] = [(b"cells", b"ok cells 1\ncell AA5TEST1 1 1 3 cancelled\n")];

#[test]
fn a_commit_during_a_save_stays(rt: HostRuntime) -> Result<(), Fail> {
    let alloc = rt.alloc();
    let mut shelf = files(alloc, 0)?;
    let mut desk = MemoryDesk::new(alloc, failing(alloc, 0)?);
    assert!(rt; is_replied(alloc, &BESIDE, &mut shelf, &mut desk)?);
    assert!(rt; is_replied(alloc, &REOPENED, &mut shelf, &mut desk)?);
    Ok(())
}

/// Cells, so that one more can be held, and none more.
const MADE: [&[u8]; 31] = [
    b"make 1 0",
    b"make 2 0",
    b"make 3 0",
    b"make 4 0",
    b"make 5 0",
    b"make 6 0",
    b"make 7 0",
    b"make 8 0",
    b"make 9 0",
    b"make 10 0",
    b"make 11 0",
    b"make 12 0",
    b"make 13 0",
    b"make 14 0",
    b"make 15 0",
    b"make 16 0",
    b"make 17 0",
    b"make 18 0",
    b"make 19 0",
    b"make 20 0",
    b"make 21 0",
    b"make 22 0",
    b"make 23 0",
    b"make 24 0",
    b"make 25 0",
    b"make 26 0",
    b"make 27 0",
    b"make 28 0",
    b"make 29 0",
    b"make 30 0",
    b"make 31 0",
];

/// A file that is too long; and one for whose cell there was room when it was staged, and is none when it is committed.
const FULL: [&[u8]; 6] = [
    b"begin LONG",
    b"begin T",
    b"make 32 0",
    b"commit",
    b"begin T",
    b"commit",
];

const FULL_REPLIES: &[u8] =
    b"no 60 8388608\nok begin AA5TEST1 2\nok make MK000032 1 0 98\nno 61 32\nno 61 32\nno 76\n";

#[test]
fn limits(rt: HostRuntime) -> Result<(), Fail> {
    let alloc = rt.alloc();
    let mut shelf = files(alloc, 0)?;
    let long: Vec<u8> = vec![in alloc; 0; 8_388_609]?;
    shelf.insert(String::from_str(alloc, "LONG")?, FileBytes::from_vec(long))?;
    let mut desk = MemoryDesk::new(alloc, failing(alloc, 0)?);
    let mut lines = Vec::from_slice(alloc, &MADE)?;
    lines.extend_from_slice(&FULL)?;
    let said = said_on(alloc, &lines, &mut shelf, &mut desk)?;
    assert!(rt; said.ends_with(FULL_REPLIES));
    Ok(())
}
