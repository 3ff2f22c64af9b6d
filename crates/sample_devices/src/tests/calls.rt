//! Calls of the ports, and whether they are answered as wanted.
//!
//! What makes them knows a port by its bound alone, so that a proof reads the few clauses of the trait.

ghost use Rattle.std.specs.Prelude.{◌≤◌, IsTrue};

use chart_ports::{Desk, Failed, Fetched, Shelf, ShelfError, Source};
use std::alloc::Global;
use std::process::Abort;

/// A file of a desk.
#[derive(Clone, Copy)]
pub enum StoreFile {
    Head,
    Bank1,
    Bank2,
}

impl StoreFile {
    pub fn number(self) -> u8
        ensures { result ≤ 2 }
    {
        match self {
            StoreFile::Head => 0,
            StoreFile::Bank1 => 1,
            StoreFile::Bank2 => 2,
        }
    }
}

/// A call on a file, or of what is said, and what it has to answer.
#[derive(Clone, Copy)]
pub enum Call {
    Length(StoreFile, Result<u64, Failed>),
    /// From a place on, into a buffer of so many bytes, at most eight.
    Read(StoreFile, u64, usize, Result<&'static str, Failed>),
    Write(StoreFile, u64, &'static str, Result<(), Failed>),
    Cut(StoreFile, u64, Result<(), Failed>),
    Sync(StoreFile, Result<(), Failed>),
    Say(&'static str, Result<(), Failed>),
}

// Eight bytes: these, and dots behind them.
fn before_dots(bytes: &[u8]) -> [u8; 8] {
    let mut buf = [b'.'; 8];
    for (to, from) in buf.iter_mut().zip(bytes) {
        *to = *from;
    }
    buf
}

/// Whether a read gives these bytes, and leaves what is behind them in the buffer.
pub fn reads<D: Desk>(desk: &mut D, file: StoreFile, at: u64, room: usize, wanted: &[u8]) -> bool {
    let mut buf = [b'.'; 8];
    let answer = desk.read_at(file.number(), at, &mut buf[..room.min(8)]);
    answer == Ok(wanted.len()) && buf == before_dots(wanted)
}

/// Whether a desk answers a call so. Contracts don't see what its files hold, so that a write may try any place.
pub fn is_answered<D: Desk>(desk: &mut D, call: &Call) -> bool
    requires untold { ¬ IsTrue D.tells }
{
    match call {
        Call::Length(file, wanted) => desk.length(file.number()) == *wanted,
        Call::Read(file, at, room, Ok(wanted)) => {
            reads(desk, *file, *at, *room, wanted.as_bytes())
        }
        Call::Read(file, at, _, Err(_)) => {
            desk.read_at(file.number(), *at, &mut [0; 8]).is_err()
        }
        Call::Write(file, at, text, wanted) => {
            desk.write_at(file.number(), *at, text.as_bytes()) == *wanted
        }
        Call::Cut(file, length, wanted) => desk.cut(file.number(), *length) == *wanted,
        Call::Sync(file, wanted) => desk.sync(file.number()) == *wanted,
        Call::Say(text, wanted) => desk.say(text.as_bytes()) == *wanted,
    }
}

pub fn try_all<D: Desk>(test: &impl Abort, desk: &mut D, calls: &[Call])
    requires untold { ¬ IsTrue D.tells }
{
    for (number, call) in calls.iter().enumerate() {
        assert!(test; is_answered(desk, call), "call {number}");
    }
}

/// Whether a pull into a buffer of so many bytes, at most eight, answers so, moves these bytes, and
/// leaves what is behind them in the buffer.
pub fn pulls<S: Source>(
    source: &mut S,
    room: usize,
    answer: Result<usize, Failed>,
    moved: &[u8],
) -> bool {
    let mut buf = [b'.'; 8];
    source.pull(&mut buf[..room.min(8)]) == answer && buf == before_dots(moved)
}

/// Whether a fetch gives this text, or has the answer of this name.
pub fn gives<S: Shelf>(alloc: Global, shelf: &mut S, name: &str, limit: u64, answer: &str) -> bool {
    let fetched = shelf.fetch(alloc, name, limit);
    let given = match &fetched {
        Ok(Fetched::Bytes(bytes)) => bytes.as_slice(),
        Ok(Fetched::Absent) => b"Absent",
        Ok(Fetched::Long) => b"Long",
        Err(ShelfError::Failed) => b"Failed",
        Err(ShelfError::NoMemory) => b"NoMemory",
    };
    given == answer.as_bytes()
}
