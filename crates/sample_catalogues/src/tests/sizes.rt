//! Catalogues of about a thousand files.
//!
//! A thousand paths are loaded, and one more is refused. So the whole of a great order is held against what it has to
//! be, which a body that gives up for want of memory wouldn't give.

use super::lines::order_of;
use exchange_catalogue::OrderFault::{BadPath, Many};
use std::alloc::{AllocError, Global};
use std::test::Fail;

/// Puts the path of a cell file behind the lines. Files stand in the order of their numbers, of which the first hundred
/// are the base file and the updates of one cell, and so on; their folders are in another order.
fn push_path(lines: &mut String, number: u32, separator: &str) -> Result<(), AllocError> {
    let (folder, cell, update) = (9 - number % 10, number / 100, number % 100);
    write!(lines, "F{folder}{separator}CELL{cell:04}.{update:03}")
}

/// The lines of a catalogue of so many cell files, in an order that isn't theirs. Nothing divides the stride and a
/// number of files that is taken here.
fn listed(alloc: Global, count: u32) -> Result<String, AllocError> {
    let mut lines = String::new(alloc);
    for at in 0..count.min(2_000) {
        lines.push_str("\nBIN ")?;
        push_path(&mut lines, at * 617 % count.max(1), "\\")?;
    }
    Ok(lines)
}

/// The paths of so many cell files, in their order.
fn in_order(alloc: Global, count: u32) -> Result<String, AllocError> {
    let mut lines = String::new(alloc);
    for number in 0..count {
        if number > 0 {
            lines.push_str("\n")?;
        }
        push_path(&mut lines, number, "/")?;
    }
    Ok(lines)
}

#[test]
fn a_thousand_files(rt: HostRuntime) -> Result<(), Fail> {
    for count in [999, 1_000] {
        let lines = listed(rt.alloc(), count)?;
        let found = order_of(rt.alloc(), lines.as_bytes())?;
        let wanted = in_order(rt.alloc(), count)?;
        assert!(rt;
            found.is_ok_and(|paths| paths.as_slice() == wanted.as_bytes()),
            "of {count}"
        );
    }
    Ok(())
}

#[test]
fn files_that_are_listed_twice_count_once(rt: HostRuntime) -> Result<(), Fail> {
    let mut lines = listed(rt.alloc(), 1_000)?;
    for number in [0, 617, 999] {
        lines.push_str("\nBIN ")?;
        push_path(&mut lines, number, "/")?;
    }
    lines.push_str("\nASC X.000\nTXT README.TXT")?;
    let found = order_of(rt.alloc(), lines.as_bytes())?;
    let wanted = in_order(rt.alloc(), 1_000)?;
    assert!(rt; found.is_ok_and(|paths| paths.as_slice() == wanted.as_bytes()));
    Ok(())
}

#[test]
fn more_than_a_thousand_files(rt: HostRuntime) -> Result<(), Fail> {
    let mut lines = listed(rt.alloc(), 1_001)?;
    // a path that is there already is no other one
    lines.push_str("\nBIN ")?;
    push_path(&mut lines, 0, "/")?;
    let found = order_of(rt.alloc(), lines.as_bytes())?;
    assert!(rt; found.err() == Some(Many(1_001)));
    // a bad path is told first, though all the others stand before it
    lines.push_str("\nBIN ..\\X.000")?;
    let found = order_of(rt.alloc(), lines.as_bytes())?;
    assert!(rt; found.err() == Some(BadPath(1_004)));
    Ok(())
}
