//! Lines at random, staged files among them.
//!
//! What each commit is to reply is known beforehand from the replies before it, and what is held in the end is what the
//! same accepted commands leave where nothing is staged. Numbers begin at 1 in every run, so that a fault is found
//! again.

use super::staged::files;
use super::turns::{failing, said_on};
use chart_ports::{MemoryDesk, MemoryShelf};
use std::alloc::{AllocError, Global};
use std::test::Fail;

/// Lines, of which each has a reply of one line, and which of two cells it is of.
static LINES: [(&[u8], usize); 20] = [
    (b"begin U", 0),
    (b"begin MORE", 0),
    (b"begin HALF", 0),
    (b"begin EDITION", 0),
    (b"begin CANCEL", 0),
    (b"begin TRIAL", 1),
    (b"step 1", 0),
    (b"step 2", 0),
    (b"commit", 0),
    (b"commit", 0),
    (b"load T", 0),
    (b"load U", 0),
    (b"load EDITION", 0),
    (b"load CANCEL", 0),
    (b"rollback AA5TEST1 0", 0),
    (b"drop AA5TEST1", 0),
    (b"make 2 0", 1),
    (b"drop MK000002", 1),
    (b"save", 0),
    (b"save-step 1", 0),
];

/// What is held in the end.
static HELD: [&[u8]; 3] = [b"cells", b"draw AA5TEST1", b"draw MK000002"];

/// How many lines a list has.
const LENGTH: usize = 24;

/// The next of numbers without a visible order.
fn number_after(number: u32) -> u32 {
    number.wrapping_mul(1_664_525).wrapping_add(1_013_904_223)
}

/// A file that is staged: the line that loads it, its cell, and what was accepted when it was staged and since.
#[derive(Clone, Copy)]
struct Begun {
    load: &'static [u8],
    cell: usize,
    begun: u64,
    last: u64,
}

/// What is known after some lines: how many commands were accepted, the lines that have them, and the file that is
/// staged.
#[derive(Drop)]
struct Known {
    count: u64,
    accepted: Vec<&'static [u8]>,
    begun: Option<Begun>,
}

/// The line that loads the file that a line begins.
fn load_of(line: &[u8]) -> &'static [u8] {
    match line {
        b"begin U" => b"load U",
        b"begin MORE" => b"load MORE",
        b"begin HALF" => b"load HALF",
        b"begin EDITION" => b"load EDITION",
        b"begin CANCEL" => b"load CANCEL",
        _ => b"load TRIAL",
    }
}

/// Whether the reply tells that a command was accepted.
fn is_accepted(reply: &[u8]) -> bool {
    let words: [&[u8]; 6] = [
        b"ok load",
        b"ok cancel",
        b"ok commit",
        b"ok rollback",
        b"ok drop",
        b"ok make",
    ];
    words.iter().any(|words| reply.starts_with(words))
}

impl Known {
    /// A command of a cell was accepted.
    fn accept(&mut self, line: &'static [u8], cell: usize) -> Result<(), AllocError> {
        self.count = self.count.saturating_add(1);
        self.accepted.push(line)?;
        if let Some(begun) = &mut self.begun {
            if begun.cell == cell {
                begun.last = self.count;
            }
        }
        Ok(())
    }

    /// A commit was replied to: tells whether it had to be.
    fn commit(&mut self, alloc: Global, reply: &[u8]) -> Result<bool, AllocError> {
        let Some(begun) = self.begun.take() else {
            return Ok(reply == b"no 76".as_slice());
        };
        if begun.last > 0 {
            let wanted = format!(in alloc; "no 75 {} {}", begun.begun, begun.last)?;
            return Ok(reply == wanted.as_bytes());
        }
        if is_accepted(reply) {
            self.accept(begun.load, begun.cell)?;
        }
        Ok(!reply.starts_with(b"no 75") && reply != b"no 76".as_slice())
    }

    /// A line was replied to: tells whether the reply may be that.
    fn hear(
        &mut self,
        alloc: Global,
        line: &'static [u8],
        cell: usize,
        reply: &[u8],
    ) -> Result<bool, AllocError> {
        if line == b"commit".as_slice() {
            return self.commit(alloc, reply);
        }
        if line.starts_with(b"begin") && reply.starts_with(b"ok") {
            self.begun = Some(Begun {
                load: load_of(line),
                cell,
                begun: self.count,
                last: 0,
            });
        } else if line.starts_with(b"step") && reply.starts_with(b"no") {
            self.begun = None;
        } else if is_accepted(reply) {
            self.accept(line, cell)?;
        }
        Ok(!reply.starts_with(b"no 75"))
    }
}

/// What is said on a new store.
fn said(
    alloc: Global,
    lines: &[&'static [u8]],
    shelf: &mut MemoryShelf,
) -> Result<Vec<u8>, AllocError> {
    let mut desk = MemoryDesk::new(alloc, failing(alloc, 0)?);
    let mut all = Vec::from_slice(alloc, lines)?;
    all.extend_from_slice(&HELD)?;
    said_on(alloc, &all, shelf, &mut desk)
}

/// Whether a list of lines is replied to as it has to be, and leaves what its accepted commands leave alone.
fn is_right(
    alloc: Global,
    lines: &[(&'static [u8], usize)],
    shelf: &mut MemoryShelf,
) -> Result<bool, AllocError> {
    let mut asked = Vec::new(alloc);
    for (line, _) in lines {
        asked.push(*line)?;
    }
    let whole = said(alloc, &asked, shelf)?;
    let mut known = Known {
        count: 0,
        accepted: Vec::new(alloc),
        begun: None,
    };
    let mut replies = whole.as_slice().split(|byte| *byte == b'\n');
    for (line, cell) in lines {
        let Some(reply) = replies.next() else {
            return Ok(false);
        };
        if !known.hear(alloc, line, *cell, reply)? {
            return Ok(false);
        }
    }
    let alone = said(alloc, &known.accepted, shelf)?;
    let mut held = alone.as_slice().split(|byte| *byte == b'\n');
    for _ in 0..known.accepted.len() {
        let _ = held.next();
    }
    Ok(replies.eq(held))
}

#[test]
fn lists_at_random(rt: HostRuntime) -> Result<(), Fail> {
    let alloc = rt.alloc();
    let mut shelf = files(alloc, 0)?;
    let mut number: u32 = 1;
    for list in 0..300 {
        let mut lines = Vec::new(alloc);
        for _ in 0..LENGTH {
            number = number_after(number);
            lines.push(LINES[(number / 65_536) as usize % LINES.len()])?;
        }
        assert!(rt; is_right(alloc, &lines, &mut shelf)?, "list {list}");
    }
    Ok(())
}
