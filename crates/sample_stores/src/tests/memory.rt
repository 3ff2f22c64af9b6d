//! Want of memory, at an opening or at a command.
//!
//! Each test is to pass under `rt try --test --fail-alloc N`, whatever N is: it then sees an allocation refused. With
//! all memory it sees the command accepted at once.

ghost use Rattle.std.specs.Prelude.{◌≡◌, ◌<◌, true, IfOk, IsTrue};
ghost use Rattle.chart_store.specs.Store.{IsKept, count_of, is_sound};

use crate::banks::{CLOSED, EXTENDS, HEAD, LOADS};
use crate::files::{
    BASE, CANCEL, FIRST, FIRST_UPDATE, GENERAL, Given, MOVED, RECORDS, UPDATE, joined,
};
use crate::stores::{Told, images, submit_one};
use chart_ports::{Desk, FailingCalls, MemoryDesk, Steps};
use chart_store::{OpenFault, Store, open_store};
use std::alloc::{AllocError, Global};
use std::fmt::Debug;
use std::marker::Brand;
use std::process::Abort;
use std::sync::ledger::{Blank, Ledger};
use std::test::Fail;

/// Opens a store, once more where there was no memory.
fn open_again<D: Desk, C: Ledger>(
    alloc: Global,
    desk: &mut D,
    steps: &mut Steps<C>,
) -> Result<Store, OpenFault>
    ensures kept { IsTrue D.tells → IfOk result (IsKept (D.contents desk.new) (D.may_leave desk.new)) }
    ensures count { IfOk result (λ store. count_of store ≡ 0) }
    ensures sound { IfOk result (λ store. is_sound store ≡ true) }
{
    match open_store(alloc, desk, steps) {
        Err(OpenFault::NoMemory) => open_store(alloc, desk, steps),
        answer => answer,
    }
}

/// All that the desk and the store hold, with the log of the desk's calls.
fn pictured<D: Debug>(alloc: Global, desk: &D, store: &Store) -> Result<String, AllocError> {
    format!(in alloc; "{desk:?} {store:?}")
}

/// Gives a command, once more where there was no memory: whether it had then left all as it was, and what is told in
/// the end.
fn submit_again<D: Desk + Debug, C: Ledger>(
    alloc: Global,
    desk: &mut D,
    store: &mut Store,
    steps: &mut Steps<C>,
    given: Given,
) -> Result<(bool, Told), AllocError>
    requires sound { IsTrue (is_sound store.old) }
    requires count { count_of store.old ≡ 0 }
    requires kept { IsTrue D.tells → IsKept (D.contents desk.old) (D.may_leave desk.old) store.old }
{
    let before = pictured(alloc, desk, store)?;
    let told = submit_one(alloc, desk, store, steps, given)?;
    if !store.is_sound() || told.answer.as_str() != "NoMemory" {
        return Ok((true, told));
    }
    let same = pictured(alloc, desk, store)?.as_str() == before.as_str();
    Ok((same, submit_one(alloc, desk, store, steps, given)?))
}

/// Opens a store, and gives it a command.
fn give_with<D: Desk + Debug, C: Ledger>(
    alloc: Global,
    desk: &mut D,
    given: Given,
    blank: Blank,
) -> Result<(bool, Told), AllocError>
    requires name { blank.name ≡ C.name }
    requires parts { blank.parts ≡ C.parts }
    requires share { 0 < C.parts }
{
    let mut steps = Steps::<C>::new(blank);
    match open_again(alloc, desk, &mut steps) {
        Ok(mut store) => submit_again(alloc, desk, &mut store, &mut steps, given),
        Err(fault) => {
            let answer = format!(in alloc; "{fault:?}")?;
            let held = String::new(alloc);
            Ok((false, Told { answer, held }))
        }
    }
}

/// Gives a command to the store of a bank, on a desk that has room for its calls.
fn give_once(alloc: Global, bank: &[&[u8]], given: Given) -> Result<(bool, Told), AllocError> {
    let bank = joined(alloc, bank)?;
    let start = images(alloc, b"", bank.as_slice())?;
    let mut desk = MemoryDesk::open(alloc, FailingCalls::none(alloc), start)?;
    desk.reserve(alloc, 32, 2048)?;
    give_with::<MemoryDesk, Brand>(alloc, &mut desk, given, Blank::new(1))
}

/// The same, once more where what the test itself makes had no memory: so no test ends without having seen its command.
fn give(alloc: Global, bank: &[&[u8]], given: Given) -> Result<(bool, Told), AllocError> {
    match give_once(alloc, bank, given) {
        Err(AllocError) => give_once(alloc, bank, given),
        seen => seen,
    }
}

/// The command is accepted in the end.
fn see(test: &impl Abort, seen: (bool, Told), answer: &str, held: &str) {
    let (same, told) = seen;
    assert!(test; same);
    assert_eq!(test; told.answer.as_str(), answer);
    assert_eq!(test; told.held.as_str(), held);
}

/// A bank with the base file, and one with the update too.
static ONE: [&[u8]; 6] = [HEAD, LOADS, FIRST, GENERAL, RECORDS, CLOSED];

static TWO: [&[u8]; 10] = [
    HEAD, LOADS, FIRST, GENERAL, RECORDS, EXTENDS, FIRST, UPDATE, MOVED, CLOSED,
];

#[test]
fn a_base_file_needs_memory(rt: HostRuntime) -> Result<(), Fail> {
    let answer = "AA5TEST1 1 over none: 1 0 false 100/1 110/1";
    let seen = give(rt.alloc(), &[], BASE)?;
    see(&rt, seen, answer, "AA5TEST1 1.0 1 1.0 1;");
    Ok(())
}

#[test]
fn an_update_needs_memory(rt: HostRuntime) -> Result<(), Fail> {
    let answer = "AA5TEST1 1 over a chart: 1 1 false 110/1";
    let seen = give(rt.alloc(), &ONE, FIRST_UPDATE)?;
    see(&rt, seen, answer, "AA5TEST1 1.1 2 1.1 1;");
    Ok(())
}

#[test]
fn a_cancellation_needs_memory(rt: HostRuntime) -> Result<(), Fail> {
    let answer = "AA5TEST1 1 over a chart: 1 0 true 100/1 110/1";
    let seen = give(rt.alloc(), &ONE, Given::Load(&[CANCEL]))?;
    see(&rt, seen, answer, "AA5TEST1 1.0 2;");
    Ok(())
}

#[test]
fn a_rollback_needs_memory(rt: HostRuntime) -> Result<(), Fail> {
    let answer = "AA5TEST1 1 over a chart: 1 0 false 110/1";
    let seen = give(rt.alloc(), &TWO, Given::Rollback(0))?;
    see(&rt, seen, answer, "AA5TEST1 1.0 1 1.0 1;");
    Ok(())
}

#[test]
fn a_drop_needs_memory(rt: HostRuntime) -> Result<(), Fail> {
    let answer = "AA5TEST1 1 over a chart: 1 0 false 100/1 110/1";
    let seen = give(rt.alloc(), &ONE, Given::Drop)?;
    see(&rt, seen, answer, "");
    Ok(())
}
