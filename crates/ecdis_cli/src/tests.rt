//! The program over devices in memory.
//!
//! `run_ecdis` is called as `main` calls it, with devices of which a call of any number can fail: so a case is a
//! script, the call that fails, the status, and every byte that is said. The built program over real files is the
//! matter of the runners in `conformance/`.

mod crashes;
mod files;
mod loads;
mod tables;

ghost use Rattle.std.specs.Prelude.{◌≡◌, ◌<◌};

use crate::run::run_ecdis;
use crate::run::status::Status;
use crate::run::tables_fault::TablesFault;
use chart_ports::{FailingCalls, FileBytes, MemoryDesk, MemoryShelf, MemorySource, Steps};
use panel_port::{MemoryPanel, Panel};
use std::alloc::{AllocError, Global};
use std::marker::Brand;
use std::sync::ledger::{Blank, Ledger};
use std::test::Fail;

/// A base cell of one data record, which has a DSID field alone.
const CELL: &[u8; 292] = b"002013LE1 0900036 ! 3404DSID1650000\x1E\
1600;&   Data set identification field\x1F\
RCNM!RCID!EXPP!INTU!DSNM!EDTN!UPDN!UADT!ISDT!STED!PRSP!PSDN!PRED!PROF!AGEN!COMT\x1F\
(b11,b14,2b11,3A,2A(8),R(4),b11,2A,b11,b12,A)\x1E\
00091 D     00036   3404DSID0550000\x1E\
\x0A\x01\0\0\0\x01\x05AA5TEST1.000\x1F1\x1F0\x1F202401012024010103.1\x01\x1F2.0\x1F\x01\x26\x02\x1F\x1E";

/// The object catalogue and the lookup table.
const CATALOGUE: &[u8] = b"O 42 DEPARE\nA 87 DRVAL1\n";

const TABLE: &[u8] = b"DEPARE A 1 - AC(DEPVS)\n";

/// A script, and which calls fail: numbers from 1, or 0 for none.
#[derive(Clone, Copy)]
struct Case<'a> {
    catalogue: Option<&'a [u8]>,
    table: Option<&'a [u8]>,
    script: &'a [u8],
    /// Whether the source gives one byte a pull.
    slow: bool,
    /// Whether the shelf has eight of the longest files too.
    large: bool,
    pull: u64,
    /// A call of the shelf: the catalogue and the table are the first two.
    fetch: u64,
    /// A call of the desk: the opening makes eight.
    desk: u64,
}

impl<'a> Case<'a> {
    fn of(script: &'a [u8]) -> Case<'a> {
        Case {
            catalogue: Some(CATALOGUE),
            table: Some(TABLE),
            script,
            slow: false,
            large: false,
            pull: 0,
            fetch: 0,
            desk: 0,
        }
    }
}

fn failing(alloc: Global, number: u64) -> Result<FailingCalls, AllocError> {
    Ok(FailingCalls::from_vec([number].to_vec(alloc)?))
}

/// The cell with another byte at a place.
fn changed(alloc: Global, place: usize, byte: u8) -> Result<Vec<u8>, AllocError> {
    let mut bytes = CELL.to_vec(alloc)?;
    if place < bytes.len() {
        bytes[place] = byte;
    }
    Ok(bytes)
}

/// Puts a file of this name on the shelf.
fn add_file(
    alloc: Global,
    shelf: &mut MemoryShelf,
    name: &str,
    bytes: Vec<u8>,
) -> Result<(), AllocError> {
    shelf.insert(String::from_str(alloc, name)?, FileBytes::from_vec(bytes))
}

/// A shelf with the cell, the cell with a fault in its descriptor's labels or in its edition number,
/// its data descriptive record alone, an empty file, and files that can be loaded; and the catalogue and the table.
fn shelf(alloc: Global, case: &Case) -> Result<MemoryShelf, AllocError> {
    let mut shelf = MemoryShelf::new(alloc, failing(alloc, case.fetch)?);
    if let Some(bytes) = case.catalogue {
        add_file(alloc, &mut shelf, "catalogue", bytes.to_vec(alloc)?)?;
    }
    if let Some(bytes) = case.table {
        add_file(alloc, &mut shelf, "table", bytes.to_vec(alloc)?)?;
    }
    add_file(alloc, &mut shelf, "AA5TEST1.000", CELL.to_vec(alloc)?)?;
    add_file(alloc, &mut shelf, "LABELS", changed(alloc, 79, b'?')?)?;
    add_file(alloc, &mut shelf, "EDITION", changed(alloc, 257, b'x')?)?;
    add_file(alloc, &mut shelf, "ALONE", CELL[..201].to_vec(alloc)?)?;
    add_file(alloc, &mut shelf, "EMPTY", Vec::new(alloc))?;
    add_file(alloc, &mut shelf, "T", files::base(alloc)?)?;
    add_file(alloc, &mut shelf, "U", files::update(alloc)?)?;
    add_file(alloc, &mut shelf, "DELETE", files::deletion(alloc)?)?;
    add_file(alloc, &mut shelf, "CANCEL", files::cancellation(alloc)?)?;
    if case.large {
        for last in loads::LARGE {
            let mut name = String::from_str(alloc, "L")?;
            name.push(*last as char)?;
            shelf.insert(name, FileBytes::from_vec(files::longest_of(alloc, *last)?))?;
        }
    }
    for last in loads::CELLS {
        let mut name = String::from_str(alloc, "T")?;
        name.push(*last as char)?;
        shelf.insert(name, FileBytes::from_vec(files::base_of(alloc, *last)?))?;
    }
    Ok(shelf)
}

/// The status and what was said.
fn outcome_of<C: Ledger>(
    alloc: Global,
    words: &[String],
    case: &Case,
    blank: Blank,
) -> Result<(Status, Vec<u8>), AllocError>
    requires name { blank.name ≡ C.name }
    requires parts { blank.parts ≡ C.parts }
    requires share { 0 < C.parts }
{
    let pace = if case.slow { 1 } else { usize::MAX };
    let bytes = case.script.to_vec(alloc)?;
    let mut script = MemorySource::with_pace(bytes, failing(alloc, case.pull)?, pace);
    let mut shelf = shelf(alloc, case)?;
    let mut desk = MemoryDesk::new(alloc, failing(alloc, case.desk)?);
    let mut panels: Vec<Box<dyn Panel>> = Vec::new(alloc);
    panels.push(Box::new(alloc, MemoryPanel::new(alloc))?)?;
    panels.push(Box::new(alloc, MemoryPanel::new(alloc))?)?;
    let mut steps = Steps::<C>::new(blank);
    let status = run_ecdis(
        alloc,
        words,
        &mut script,
        &mut shelf,
        &mut desk,
        &mut panels,
        &mut steps,
    );
    Ok((status, desk.said().to_vec(alloc)?))
}

fn outcome(alloc: Global, words: &[String], case: &Case) -> Result<(Status, Vec<u8>), AllocError> {
    outcome_of::<Brand>(alloc, words, case, Blank::new(1))
}

/// The words that the program takes.
static WORDS: [&str; 5] = ["ecdis", "--catalogue", "catalogue", "--table", "table"];

/// The first of them.
fn first_words(alloc: Global, count: usize) -> Result<Vec<String>, AllocError> {
    let mut words = Vec::new(alloc);
    for word in WORDS.iter().take(count) {
        words.push(String::from_str(alloc, word)?)?;
    }
    Ok(words)
}

fn words(alloc: Global) -> Result<Vec<String>, AllocError> {
    first_words(alloc, WORDS.len())
}

/// A line of a front and then so many bytes `x`.
fn line(alloc: Global, front: &[u8], count: usize) -> Result<Vec<u8>, AllocError> {
    let mut line = front.to_vec(alloc)?;
    for _ in 0..count {
        line.push(b'x')?;
    }
    line.push(b'\n')?;
    Ok(line)
}

/// Whether the run ends with this status, and says this.
fn ends(alloc: Global, case: &Case, status: Status, said: &[u8]) -> Result<bool, AllocError> {
    let words = words(alloc)?;
    let outcome = outcome(alloc, &words, case)?;
    Ok(outcome.0 == status && outcome.1.as_slice() == said)
}

/// A script, and what is said.
type Answer = (&'static [u8], &'static [u8]);

/// The number of the first script to whose end the run doesn't come, or that it answers otherwise.
fn first_wrong(alloc: Global, answers: &[Answer], slow: bool) -> Result<Option<usize>, AllocError> {
    for (at, (script, said)) in answers.iter().enumerate() {
        let case = Case {
            slow,
            ..Case::of(script)
        };
        if !ends(alloc, &case, Status::Done, said)? {
            return Ok(Some(at));
        }
    }
    Ok(None)
}

static LINES: [Answer; 9] = [
    (b"info AA5TEST1.000\n", b"ok info AA5TEST1 1 0 1\n"),
    (b"info AA5TEST1.000\r\n", b"ok info AA5TEST1 1 0 1\n"),
    (b"info AA5TEST1.000", b"ok info AA5TEST1 1 0 1\n"),
    // A carriage return is removed only before a line feed, and only one.
    (b"info EMPTY\r\r\ninfo EMPTY\r", b"no 70 1\nno 70 2\n"),
    (
        b"info EMPTY\ninfo NONE\ninfo LABELS\ninfo EDITION\ninfo ALONE\n",
        b"no 10 0\nno 71 NONE\nno 14 DSID\nno 22 1 EDTN\nno 20\n",
    ),
    (
        b"cells\nload NONE\nload EMPTY\nload AA5TEST1.000\ncells \ncells\n",
        b"ok cells 0\nno 71 NONE\nno 10 0\nno 23 DSPM\nno 70 5\nok cells 0\n",
    ),
    (b"", b""),
    (b"\n\r\n#info\n#\n \n", b"no 70 5\n"),
    (
        b"info\ninfo \ninfo  A\ninfo A \ninfo A B\nINFO A\ninfo A\x7F\ninfo \x80\ninfo !~\n",
        b"no 70 1\nno 70 2\nno 70 3\nno 70 4\nno 70 5\nno 70 6\nno 70 7\nno 70 8\nno 71 !~\n",
    ),
];

#[test]
fn answers_lines(rt: HostRuntime) -> Result<(), Fail> {
    assert_eq!(rt; first_wrong(rt.alloc(), &LINES, false)?, None);
    assert_eq!(rt; first_wrong(rt.alloc(), &LINES, true)?, None);
    Ok(())
}

/// What two panels show. A refresh goes on under its panel's new number.
static PANELS: [Answer; 3] = [
    (
        b"refresh 1\npaint 1 9\npanel 1\nload T\npanel 1\nrefresh 1\npaint 1 9\npanel 1\n",
        b"ok refresh 1 1\nok paint 1 1 1\nok panel 1 0 0\nok load AA5TEST1 1 0\nok panel 1 0 0\n\
ok refresh 1 1\nok paint 1 1 1\nok panel 1 1 1\n",
    ),
    (
        b"load T\nrefresh 2\npaint 2 1\nrefresh 2\nclose-panel 1\npaint 1 1\npanel 1\npaint 1 1\npanel 2\n",
        b"ok load AA5TEST1 1 0\nok refresh 2 2\nok paint 2 1 2\nno 79\nok close-panel 1\nok paint 1 2 2\n\
ok panel 1 1 1\nno 76\nno 77 2\n",
    ),
    (
        b"close-panel 2\nclose-panel 1\nclose-panel 1\nrefresh 1\npaint 1 1\n",
        b"ok close-panel 2\nok close-panel 1\nno 77 1\nno 77 1\nno 77 1\n",
    ),
];

#[test]
fn panels_show_charts(rt: HostRuntime) -> Result<(), Fail> {
    assert_eq!(rt; first_wrong(rt.alloc(), &PANELS, false)?, None);
    Ok(())
}

/// The front of a line, the number of bytes `x` behind it, and what is said.
static LONG_LINES: [(&[u8], usize, &[u8]); 6] = [
    (b"info ", 256, b"no 70 1\n"),
    (b"", 1024, b"no 70 1\n"),
    (b"", 1025, b"no 70 1\n"),
    (b"", 2000, b"no 70 1\n"),
    (b"#", 1023, b""),
    (b"#", 2000, b""),
];

#[test]
fn answers_long_lines(rt: HostRuntime) -> Result<(), Fail> {
    for (at, (front, count, said)) in LONG_LINES.iter().enumerate() {
        let script = line(rt.alloc(), front, *count)?;
        let case = Case::of(script.as_slice());
        assert!(rt; ends(rt.alloc(), &case, Status::Done, said)?, "case {at}");
    }
    Ok(())
}

#[test]
fn answers_the_longest_name(rt: HostRuntime) -> Result<(), Fail> {
    let script = line(rt.alloc(), b"info ", 255)?;
    let said = line(rt.alloc(), b"no 71 ", 255)?;
    let case = Case::of(script.as_slice());
    assert!(rt; ends(rt.alloc(), &case, Status::Done, said.as_slice())?);
    Ok(())
}

/// Three lines, and the same from a source that gives one byte a pull.
const WHOLE: Case<'static> = Case {
    catalogue: Some(CATALOGUE),
    table: Some(TABLE),
    script: b"info AA5TEST1.000\ninfo NONE\nx\n",
    slow: false,
    large: false,
    pull: 0,
    fetch: 0,
    desk: 0,
};

/// The status with which a case ends, and what is said.
static FAILURES: [(Case<'static>, Status, &[u8]); 12] = [
    // The shelf fails at the catalogue, and at the table.
    (Case { fetch: 1, ..WHOLE }, Status::ShelfFault, b""),
    (Case { fetch: 2, ..WHOLE }, Status::ShelfFault, b""),
    // The shelf fails once behind them, and the run goes on.
    (
        Case { fetch: 3, ..WHOLE },
        Status::Done,
        b"no 72\nno 71 NONE\nno 70 3\n",
    ),
    (
        Case { fetch: 4, ..WHOLE },
        Status::Done,
        b"ok info AA5TEST1 1 0 1\nno 72\nno 70 3\n",
    ),
    // The file is there when it is asked for again.
    (
        Case {
            script: b"info AA5TEST1.000\ninfo AA5TEST1.000\n",
            fetch: 3,
            ..WHOLE
        },
        Status::Done,
        b"no 72\nok info AA5TEST1 1 0 1\n",
    ),
    // The source fails at the start, and, a byte a pull, in the middle of the second line.
    (Case { pull: 1, ..WHOLE }, Status::ScriptFault, b""),
    (
        Case {
            pull: 20,
            slow: true,
            ..WHOLE
        },
        Status::ScriptFault,
        b"ok info AA5TEST1 1 0 1\n",
    ),
    // The source fails at its end, where every line was answered.
    (
        Case { pull: 2, ..WHOLE },
        Status::ScriptFault,
        b"ok info AA5TEST1 1 0 1\nno 71 NONE\nno 70 3\n",
    ),
    // The desk fails while the store is opened, and at each reply, of which it says a half.
    (Case { desk: 1, ..WHOLE }, Status::DeskFault, b""),
    (Case { desk: 8, ..WHOLE }, Status::DeskFault, b""),
    (Case { desk: 9, ..WHOLE }, Status::DeskFault, b"ok info AA5"),
    (
        Case { desk: 11, ..WHOLE },
        Status::DeskFault,
        b"ok info AA5TEST1 1 0 1\nno 71 NONE\nno 7",
    ),
];

#[test]
fn ends_where_a_device_fails(rt: HostRuntime) -> Result<(), Fail> {
    for (at, (case, status, said)) in FAILURES.iter().enumerate() {
        assert!(rt; ends(rt.alloc(), case, *status, said)?, "case {at}");
    }
    Ok(())
}

/// Whether the run ends at its words, and says nothing.
fn ends_at_words(alloc: Global, words: &[String]) -> Result<bool, AllocError> {
    let outcome = outcome(alloc, words, &Case::of(b"x\n"))?;
    Ok(outcome.0 == Status::Words && outcome.1.as_slice().is_empty())
}

#[test]
fn fewer_words_do_nothing(rt: HostRuntime) -> Result<(), Fail> {
    let alloc = rt.alloc();
    // None, no option, one option of two, and an option without its value.
    for count in [0, 1, 3, 4] {
        let words = first_words(alloc, count)?;
        assert!(rt; ends_at_words(alloc, &words)?, "{count} words");
    }
    Ok(())
}

#[test]
fn more_words_do_nothing(rt: HostRuntime) -> Result<(), Fail> {
    let alloc = rt.alloc();
    // An option that there isn't, a value out of its range, and the call for help.
    for word in ["--day=1", "--shades=3", "--help"] {
        let mut words = words(alloc)?;
        words.push(String::from_str(alloc, word)?)?;
        assert!(rt; ends_at_words(alloc, &words)?, "{word}");
    }
    Ok(())
}

/// A line that is refused, and a remark of this length behind it.
fn long_script(alloc: Global, count: usize) -> Result<Vec<u8>, AllocError> {
    let mut script = b"x\n".to_vec(alloc)?;
    for _ in 0..count {
        script.push(b'#')?;
    }
    Ok(script)
}

#[test]
fn ends_a_long_script(rt: HostRuntime) -> Result<(), Fail> {
    for (count, status) in [(16_777_214, Status::Done), (16_777_215, Status::ScriptLong)] {
        let script = long_script(rt.alloc(), count)?;
        let case = Case::of(script.as_slice());
        assert!(rt; ends(rt.alloc(), &case, status, b"no 70 1\n")?, "{count}");
    }
    Ok(())
}

/// A status, its number and its line.
static STATUSES: [(Status, u8, &str); 14] = [
    (Status::Done, 0, ""),
    (Status::Words, 1, "ecdis: words"),
    (
        Status::Tables(0, TablesFault::Absent),
        2,
        "ecdis: tables 0 absent",
    ),
    (
        Status::Tables(1, TablesFault::Long),
        2,
        "ecdis: tables 1 long",
    ),
    (
        Status::Tables(0, TablesFault::BadLine(2)),
        2,
        "ecdis: tables 0 2",
    ),
    (
        Status::Tables(0, TablesFault::Twice(10)),
        2,
        "ecdis: tables 0 10",
    ),
    (
        Status::Tables(1, TablesFault::UnknownName(1)),
        2,
        "ecdis: tables 1 1",
    ),
    (
        Status::Tables(1, TablesFault::UnknownProcedure(3)),
        2,
        "ecdis: tables 1 3",
    ),
    (Status::Foreign(1, 8), 3, "ecdis: foreign 1 8"),
    (Status::ScriptFault, 4, "ecdis: script fault"),
    (Status::ScriptLong, 5, "ecdis: script long"),
    (Status::DeskFault, 6, "ecdis: desk fault"),
    (Status::NoMemory, 7, "ecdis: no memory"),
    (Status::ShelfFault, 8, "ecdis: shelf fault"),
];

#[test]
fn statuses_have_numbers_and_lines(rt: HostRuntime) -> Result<(), Fail> {
    for (status, number, line) in &STATUSES {
        let text = status.to_string(rt.alloc())?;
        assert!(rt;
            status.number() == *number && text.as_str() == *line,
            "{line}"
        );
    }
    Ok(())
}
