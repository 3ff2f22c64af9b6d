//! What a desk in memory keeps, what a crash leaves of it, and what a call does that fails.
//!
//! Tests of crashes in other crates stand on what this desk leaves. So its images are worked out by hand here, byte by
//! byte, after each call and with each fill.

ghost use Rattle.std.specs.Prelude.{IsTrue};

use super::calls::StoreFile::{Bank1, Bank2};
use super::calls::{Call, is_answered, reads, try_all};
use super::memory::failing;
use crate::Untold;
use chart_ports::{Desk, FailingCalls, FileBytes, Fill, Images, MemoryDesk};
use std::alloc::{AllocError, Global};
use std::process::Abort;
use std::test::Fail;

fn images(alloc: Global, bank1: &[u8]) -> Result<Images, AllocError> {
    Ok(Images {
        head: FileBytes::from_vec(Vec::new(alloc)),
        bank1: FileBytes::from_vec(bank1.to_vec(alloc)?),
        bank2: FileBytes::from_vec(b"other".to_vec(alloc)?),
    })
}

// A desk whose bank 1 has these bytes, all of them on the disk.
fn opened(alloc: Global, bank1: &[u8], numbers: &[u64]) -> Result<Untold, AllocError> {
    let memory = MemoryDesk::open(alloc, failing(alloc, numbers)?, images(alloc, bank1)?)?;
    Ok(Untold { memory })
}

/// Writes, cuts and syncs of bank 1.
const CALLS: [Call; 6] = [
    Call::Write(Bank1, 2, "CDE", Ok(())),
    Call::Sync(Bank1, Ok(())),
    Call::Write(Bank1, 5, "FG", Ok(())),
    Call::Cut(Bank1, 1, Ok(())),
    Call::Write(Bank1, 1, "xyz", Ok(())),
    Call::Sync(Bank1, Ok(())),
];

/// Whether a crash after so many calls leaves these bytes of bank 1, and the other files as they were.
fn leaves(
    alloc: Global,
    desk: &Untold,
    calls: u64,
    fill: Fill,
    bank1: &[u8],
) -> Result<bool, AllocError> {
    let left = desk.memory.image_after(alloc, calls, fill)?;
    let others = left.head.as_slice() == b"".as_slice()
        && left.bank2.as_slice() == b"other".as_slice();
    Ok(others && left.bank1.as_slice() == bank1)
}

/// After so many of the calls above on `abc`: bank 1 with old bytes, with new bytes, and with ones.
const FILLED: [(u64, [&[u8]; 3]); 7] = [
    (0, [b"abc", b"abc", b"abc"]),
    (1, [b"abc\0\0", b"abCDE", b"ab\xff\xff\xff"]),
    (2, [b"abCDE", b"abCDE", b"abCDE"]),
    (3, [b"abCDE\0\0", b"abCDEFG", b"abCDE\xff\xff"]),
    (4, [b"a", b"a", b"a"]),
    (5, [b"abCD", b"axyz", b"a\xff\xff\xff"]),
    (9, [b"axyz", b"axyz", b"axyz"]),
];

// Whether it leaves these bytes of bank 1, with old bytes, with new bytes, and with ones.
fn leaves_each(
    alloc: Global,
    desk: &Untold,
    calls: u64,
    filled: [&[u8]; 3],
) -> Result<bool, AllocError> {
    let [old, new, ones] = filled;
    let by_old = leaves(alloc, desk, calls, Fill::Old, old)?;
    let by_new = leaves(alloc, desk, calls, Fill::New, new)?;
    let by_ones = leaves(alloc, desk, calls, Fill::Ones, ones)?;
    Ok(by_old && by_new && by_ones)
}

#[test]
fn a_crash_leaves_what_is_not_synced(rt: HostRuntime) -> Result<(), Fail> {
    let alloc = rt.alloc();
    let mut desk = opened(alloc, b"abc", &[])?;
    try_all(&rt, &mut desk, &CALLS);
    for (calls, filled) in FILLED {
        assert!(rt; leaves_each(alloc, &desk, calls, filled)?, "after {calls}");
    }
    Ok(())
}

/// Where one of the calls above on `abc` fails: its number, what a read of bank 1 then gives, and what
/// a crash leaves with ones.
const TORN: [(u64, &[u8], &[u8]); 4] = [
    (1, b"abC", b"ab\xff"),
    (2, b"abCDE", b"ab\xff\xff\xff"),
    (3, b"abCDEF", b"abCDE\xff"),
    (4, b"abCDEFG", b"a\xff\xff\xff\xff\xff\xff"),
];

// Makes the calls above up to the one of this number, counted from 1, which alone fails.
fn fails_at<D: Desk>(test: &impl Abort, desk: &mut D, number: usize)
    requires untold { ¬ IsTrue D.tells }
{
    for (before, call) in CALLS.iter().enumerate() {
        if before == number {
            break;
        }
        let is_done = is_answered(desk, call);
        assert!(test; is_done == (before + 1 < number), "call {before}");
    }
}

#[test]
fn a_call_that_fails_is_torn(rt: HostRuntime) -> Result<(), Fail> {
    let alloc = rt.alloc();
    for (number, read, ones) in TORN {
        let mut desk = opened(alloc, b"abc", &[number])?;
        fails_at(&rt, &mut desk, number as usize);
        assert_eq!(rt; desk.memory.faults(), 1);
        assert!(rt; reads(&mut desk, Bank1, 0, 8, read), "call {number}");
        assert!(rt;
            leaves(alloc, &desk, number, Fill::Ones, ones)?,
            "call {number}"
        );
    }
    Ok(())
}

#[test]
fn a_read_ends_where_the_file_ends(rt: HostRuntime) -> Result<(), Fail> {
    let mut desk = opened(rt.alloc(), b"abc", &[])?;
    const READS: [Call; 5] = [
        Call::Length(Bank1, Ok(3)),
        Call::Read(Bank1, 0, 2, Ok("ab")),
        Call::Read(Bank1, 1, 2, Ok("bc")),
        Call::Read(Bank1, 3, 2, Ok("")),
        Call::Read(Bank1, u64::MAX, 2, Ok("")),
    ];
    try_all(&rt, &mut desk, &READS);
    Ok(())
}

// Code that knows a desk by its bound alone can't make these calls.
#[test]
fn a_call_outside_the_files_is_a_fault(rt: HostRuntime) -> Result<(), Fail> {
    let mut desk = opened(rt.alloc(), b"abc", &[])?.memory;
    assert!(rt; desk.length(3).is_err());
    assert!(rt; desk.read_at(3, 0, &mut [0; 1]).is_err());
    assert!(rt; desk.write_at(3, 0, b"x").is_err());
    assert!(rt; desk.write_at(1, 4, b"x").is_err());
    assert!(rt; desk.cut(1, 4).is_err());
    assert!(rt; desk.sync(3).is_err());
    assert_eq!(rt; desk.faults(), 6);
    assert_eq!(rt; desk.length(1), Ok(3));
    Ok(())
}

#[test]
fn room_is_taken_ahead_and_as_it_goes(rt: HostRuntime) -> Result<(), Fail> {
    let alloc = rt.alloc();
    let mut desk = Untold {
        memory: MemoryDesk::new(alloc, FailingCalls::none(alloc)),
    };
    desk.memory.reserve(alloc, 2, 8)?;
    const WRITES: [Call; 5] = [
        Call::Write(Bank2, 0, "room", Ok(())),
        Call::Write(Bank2, 4, "room", Ok(())),
        Call::Write(Bank2, 8, "room", Ok(())),
        Call::Write(Bank2, 12, "room", Ok(())),
        Call::Length(Bank2, Ok(16)),
    ];
    try_all(&rt, &mut desk, &WRITES);
    assert!(rt; desk.memory.reserve(alloc, u64::MAX, 1).is_err());
    assert_eq!(rt; desk.memory.faults(), 0);
    Ok(())
}
