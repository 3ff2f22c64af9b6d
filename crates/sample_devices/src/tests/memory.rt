//! Sources, shelves and desks in memory, call by call.
//!
//! Tests in other crates stand on what these move, count and fail at, so it is held against values that were worked out
//! by hand here.

use super::calls::{Call, gives, is_answered, pulls};
use crate::Untold;
use chart_ports::{
    Calls, Failed, FailingCalls, FileBytes, MemoryDesk, MemoryShelf, MemorySource, ShelfError,
};
use std::alloc::{AllocError, Global};
use std::test::Fail;

pub fn failing(alloc: Global, numbers: &[u64]) -> Result<FailingCalls, AllocError> {
    Ok(FailingCalls::from_vec(numbers.to_vec(alloc)?))
}

fn file(alloc: Global, bytes: &[u8]) -> Result<FileBytes, AllocError> {
    Ok(FileBytes::from_vec(bytes.to_vec(alloc)?))
}

#[test]
fn a_slow_source_gives_pieces_up_to_its_end(rt: HostRuntime) -> Result<(), Fail> {
    let alloc = rt.alloc();
    let bytes = b"abcde".to_vec(alloc)?;
    let mut source = MemorySource::with_pace(bytes, failing(alloc, &[2, 7])?, 2);
    // Of each pull: what it answers, what it moves, and the three numbers after it.
    let rows: [(Result<usize, Failed>, &[u8], (u64, bool, u64)); 7] = [
        (Ok(2), b"ab", (2, false, 0)),
        (Err(Failed), b"", (2, false, 1)),
        (Ok(2), b"cd", (4, false, 1)),
        (Ok(1), b"e", (5, false, 1)),
        (Ok(0), b"", (5, true, 1)),
        (Ok(0), b"", (5, true, 1)),
        (Err(Failed), b"", (5, false, 2)),
    ];
    for (answer, moved, numbers) in rows {
        assert!(rt; pulls(&mut source, 4, answer, moved));
        assert!(rt; (source.given(), source.is_at_end(), source.faults()) == numbers);
    }
    Ok(())
}

#[test]
fn a_source_fills_the_buffer(rt: HostRuntime) -> Result<(), Fail> {
    let alloc = rt.alloc();
    let mut source = MemorySource::new(b"abcde".to_vec(alloc)?, FailingCalls::none(alloc));
    assert!(rt; pulls(&mut source, 3, Ok(3), b"abc"));
    assert!(rt; pulls(&mut source, 0, Ok(0), b""));
    assert_eq!(rt; source.is_at_end(), false);
    assert!(rt; pulls(&mut source, 3, Ok(2), b"de"));
    Ok(())
}

// A shelf with these files, whose fourth call fails.
fn shelf_of(alloc: Global, files: &[(&str, &str)]) -> Result<MemoryShelf, AllocError> {
    let mut shelf = MemoryShelf::new(alloc, failing(alloc, &[4])?);
    for (name, text) in files {
        let name = String::from_str(alloc, name)?;
        shelf.insert(name, file(alloc, text.as_bytes())?)?;
    }
    Ok(shelf)
}

#[test]
fn a_shelf_answers_by_name_and_size(rt: HostRuntime) -> Result<(), Fail> {
    let alloc = rt.alloc();
    let mut shelf = shelf_of(alloc, &[("A", "old"), ("B", ""), ("A", "abcd")])?;
    let calls: [(&str, u64, &str); 7] = [
        ("A", 5, "abcd"),
        ("A", 4, "abcd"),
        ("A", 3, "Long"),
        ("A", 4, "Failed"),
        ("B", 0, ""),
        ("C", 9, "Absent"),
        ("", 9, "Absent"),
    ];
    for (name, limit, answer) in calls {
        assert!(rt;
            gives(alloc, &mut shelf, name, limit, answer),
            "{name} {limit}"
        );
    }
    assert_eq!(rt; shelf.faults(), 1);
    Ok(())
}

#[test]
fn a_desk_tears_what_it_fails_to_say(rt: HostRuntime) -> Result<(), Fail> {
    let alloc = rt.alloc();
    let mut desk = Untold {
        memory: MemoryDesk::new(alloc, failing(alloc, &[2])?),
    };
    // Of each call: what was said after it.
    let calls: [(Call, &str); 4] = [
        (Call::Say("one\n", Ok(())), "one\n"),
        (Call::Say("three\n!", Err(Failed)), "one\nthr"),
        (Call::Say("", Ok(())), "one\nthr"),
        (Call::Say("four\n", Ok(())), "one\nthrfour\n"),
    ];
    for (call, said) in calls {
        assert!(rt; is_answered(&mut desk, &call));
        assert!(rt; desk.memory.said() == said.as_bytes(), "{said}");
    }
    assert_eq!(rt; desk.memory.faults(), 1);
    Ok(())
}

#[test]
fn a_desk_without_room_says_all(rt: HostRuntime) -> Result<(), Fail> {
    let alloc = rt.alloc();
    let mut desk = Untold {
        memory: MemoryDesk::new(alloc, FailingCalls::none(alloc)),
    };
    assert!(rt; is_answered(&mut desk, &Call::Say("five", Ok(()))));
    assert!(rt; desk.memory.said() == b"five".as_slice());
    Ok(())
}

#[test]
fn counts_stay_at_their_last_value(rt: HostRuntime) -> Result<(), Fail> {
    let last = u64::MAX;
    let mut calls = Calls::new(failing(rt.alloc(), &[last])?);
    calls.made = last - 1;
    calls.faults = last - 1;
    for _ in 0..2 {
        assert_eq!(rt; calls.begin(), Err(Failed));
        assert_eq!(rt; calls.made, last);
        assert_eq!(rt; calls.faults, last);
    }
    Ok(())
}

#[test]
fn a_file_gives_its_bytes_back(rt: HostRuntime) -> Result<(), Fail> {
    let alloc = rt.alloc();
    let bytes = file(alloc, b"abc")?.copy(alloc)?.into_vec();
    assert_eq!(rt; bytes.as_slice(), b"abc".as_slice());
    let failed = format!(in alloc; "{}, {}", Failed, ShelfError::Failed)?;
    assert_eq!(rt;
        failed.as_str(),
        "a call to the outside failed, the shelf failed"
    );
    let no_memory = format!(in alloc; "{}", ShelfError::from(AllocError))?;
    assert_eq!(rt; no_memory.as_str(), "no memory for the file");
    Ok(())
}
