//! Stores on desks, and what they tell.
//!
//! A desk in memory and one in a folder are driven by the same calls, and tell the same texts. No command is given to a
//! store whose desk has failed, since it is used no more then.

ghost use Rattle.std.specs.Prelude.{◌≡◌, ◌+◌, ◌<◌, ◌≤◌, IsTrue};
ghost use Rattle.chart_store.specs.Store.{IsKept, count_of, is_sound};

use crate::files::{Given, command_of};
use crate::texts::{shown, submitted};
use chart_ports::{Desk, FailingCalls, FileBytes, Images, MemoryDesk, Steps};
use chart_store::{Store, open_store};
use std::alloc::{AllocError, Global};
use std::marker::Brand;
use std::sync::ledger::{Blank, Ledger};

/// What a store tells of an opening or of a command.
#[derive(Debug, Drop)]
pub struct Told {
    /// What was answered.
    pub answer: String,
    /// What is held then.
    pub held: String,
}

/// Gives a store one command. It takes no other where the desk failed.
pub fn submit_one<D: Desk, C: Ledger>(
    alloc: Global,
    desk: &mut D,
    store: &mut Store,
    steps: &mut Steps<C>,
    given: Given,
) -> Result<Told, AllocError>
    requires sound { IsTrue (is_sound store.old) }
    requires count { count_of store.old < 9223372036854775808 }
    requires kept { IsTrue D.tells → IsKept (D.contents desk.old) (D.may_leave desk.old) store.old }
    ensures count { count_of store.new ≤ count_of store.old + 1 }
    ensures kept { IsTrue D.tells → IsTrue (is_sound store.new) →
        IsKept (D.contents desk.new) (D.may_leave desk.new) store.new }
{
    let answer = store.submit(alloc, command_of(alloc, given)?, desk, steps);
    Ok(Told {
        answer: submitted(alloc, &answer)?,
        held: shown(alloc, &store.state().cells)?,
    })
}

/// Gives a store commands one after the other, up to one at which the desk fails.
fn submit_all<D: Desk, C: Ledger>(
    alloc: Global,
    desk: &mut D,
    store: &mut Store,
    steps: &mut Steps<C>,
    commands: &[Given],
) -> Result<Vec<Told>, AllocError>
    requires sound { IsTrue (is_sound store.old) }
    requires count { count_of store.old ≡ 0 }
    requires kept { IsTrue D.tells → IsKept (D.contents desk.old) (D.may_leave desk.old) store.old }
{
    let mut told = Vec::new(alloc);
    told.push(Told {
        answer: String::from_str(alloc, "open")?,
        held: shown(alloc, &store.state().cells)?,
    })?;
    for given in commands {
        if !store.is_sound() {
            return Ok(told);
        }
        told.push(submit_one(alloc, desk, store, steps, *given)?)?;
    }
    Ok(told)
}

/// Opens a store, and gives it commands.
fn tell_with<D: Desk, C: Ledger>(
    alloc: Global,
    desk: &mut D,
    commands: &[Given],
    blank: Blank,
) -> Result<Vec<Told>, AllocError>
    requires name { blank.name ≡ C.name }
    requires parts { blank.parts ≡ C.parts }
    requires share { 0 < C.parts }
{
    let mut steps = Steps::<C>::new(blank);
    match open_store(alloc, desk, &mut steps) {
        Ok(mut store) => submit_all(alloc, desk, &mut store, &mut steps, commands),
        Err(fault) => {
            let answer = format!(in alloc; "{fault:?}")?;
            let held = String::new(alloc);
            Ok(vec![in alloc; Told { answer, held }]?)
        }
    }
}

/// Opens a store on a desk, and gives it commands one after the other, up to one at which the desk fails: what it tells
/// at the opening, and at each command.
pub fn tell<D: Desk>(
    alloc: Global,
    desk: &mut D,
    commands: &[Given],
) -> Result<Vec<Told>, AllocError> {
    tell_with::<D, Brand>(alloc, desk, commands, Blank::new(1))
}

/// A desk with empty files that fails at one call, or at none where the number is 0.
pub fn failing_desk(alloc: Global, call: u64) -> Result<MemoryDesk, AllocError> {
    let calls = vec![in alloc; call]?;
    Ok(MemoryDesk::new(alloc, FailingCalls::from_vec(calls)))
}

/// Files with these bytes, the second bank empty.
pub fn images(alloc: Global, head: &[u8], bank: &[u8]) -> Result<Images, AllocError> {
    both_banks(alloc, head, bank, &[])
}

/// Files with these bytes.
pub fn both_banks(
    alloc: Global,
    head: &[u8],
    first: &[u8],
    second: &[u8],
) -> Result<Images, AllocError> {
    Ok(Images {
        head: FileBytes::from_vec(head.to_vec(alloc)?),
        bank1: FileBytes::from_vec(first.to_vec(alloc)?),
        bank2: FileBytes::from_vec(second.to_vec(alloc)?),
    })
}

/// What is held in files, or why they are not opened.
pub fn opened(alloc: Global, images: Images) -> Result<String, AllocError> {
    let mut desk = MemoryDesk::open(alloc, FailingCalls::none(alloc), images)?;
    let mut told = tell(alloc, &mut desk, &[])?;
    let Some(Told { answer, held }) = told.pop() else {
        return Ok(String::new(alloc));
    };
    if answer.as_str() == "open" {
        return Ok(held);
    }
    Ok(answer)
}
