//! The program `store_bench`: it gives a store cell files to load, and tells how long that took.
//!
//! Its words are the names of files under the current folder, and the store is in the folder `chart-store` there. What
//! is held and what is answered goes to standard output, and the time of each to standard error.
#![tactic(auto)]

ghost use Rattle.std.specs.Prelude.{◌≡◌, ◌+◌, ◌<◌, ◌≤◌, IsTrue};
ghost use Rattle.chart_store.specs.Store.{IsKept, count_of, is_sound};

use anyhow::bail;
use chart_model::{Command, Octets};
use chart_ports::{Desk, Fetched, FolderDesk, FolderShelf, Shelf, Steps};
use chart_store::{Accepted, FILE_LIMIT, Store, SubmitFault, open_store};
use std::alloc::{AllocError, Global};
use std::env;
use std::marker::Brand;
use std::sync::ledger::{Blank, Ledger};
use std::time::Instant;

/// The bytes of a file that can be loaded.
fn fetch(rt: &HostRuntime, name: &str) -> anyhow::Result<Octets> {
    let fetched = FolderShelf::new(rt).fetch(rt.alloc(), name, FILE_LIMIT)?;
    let Fetched::Bytes(bytes) = fetched else {
        bail!("{name}: no file of at most {FILE_LIMIT} bytes");
    };
    Ok(Octets::from_vec(bytes.into_vec()))
}

/// What a store answered.
fn told(alloc: Global, answer: &Result<Accepted, SubmitFault>) -> Result<String, AllocError> {
    match answer {
        Ok(done) => {
            let (held, records) = (&done.held, done.changed.as_slice().len());
            format!(in alloc;
                "{} {}, {records} records changed",
                held.edition, held.update
            )
        }
        Err(SubmitFault::Refused(refusal)) => format!(in alloc; "{refusal:?}"),
        Err(SubmitFault::DeskFault) => String::from_str(alloc, "the disk failed"),
        Err(SubmitFault::NoMemory) => String::from_str(alloc, "there was no memory"),
    }
}

/// Gives a store a file to load, and tells what it answers.
fn load<D: Desk, C: Ledger>(
    alloc: Global,
    desk: &mut D,
    store: &mut Store,
    steps: &mut Steps<C>,
    file: Octets,
) -> Result<String, AllocError>
    requires sound { IsTrue (is_sound store.old) }
    requires count { count_of store.old < 9223372036854775808 }
    requires kept { IsTrue D.tells → IsKept (D.contents desk.old) (D.may_leave desk.old) store.old }
    ensures count { count_of store.new ≤ count_of store.old + 1 }
    ensures kept { IsTrue D.tells → IsTrue (is_sound store.new) →
        IsKept (D.contents desk.new) (D.may_leave desk.new) store.new }
{
    let answer = store.submit(alloc, Command::Load(file), desk, steps);
    told(alloc, &answer)
}

/// Gives a store a file to load, and says the answer and the time.
fn load_timed<D: Desk, C: Ledger>(
    rt: &HostRuntime,
    desk: &mut D,
    store: &mut Store,
    steps: &mut Steps<C>,
    name: &str,
    file: Octets,
) -> anyhow::Result<()>
    requires sound { IsTrue (is_sound store.old) }
    requires count { count_of store.old < 9223372036854775808 }
    requires kept { IsTrue D.tells → IsKept (D.contents desk.old) (D.may_leave desk.old) store.old }
    ensures count { count_of store.new ≤ count_of store.old + 1 }
    ensures kept { IsTrue D.tells → IsTrue (is_sound store.new) →
        IsKept (D.contents desk.new) (D.may_leave desk.new) store.new }
{
    let start = Instant::now(rt)?;
    let answer = load(rt.alloc(), desk, store, steps, file)?;
    let spent = start.elapsed(rt)?;
    println!(rt; "{name}: {answer}")?;
    eprintln!(rt; "{name}: {} us", spent.as_micros())?;
    Ok(())
}

/// Gives a store files to load, one after the other.
fn load_all<D: Desk, C: Ledger>(
    rt: &HostRuntime,
    desk: &mut D,
    store: &mut Store,
    steps: &mut Steps<C>,
    names: &[String],
) -> anyhow::Result<()>
    requires sound { IsTrue (is_sound store.old) }
    requires count { count_of store.old ≡ 0 }
    requires kept { IsTrue D.tells → IsKept (D.contents desk.old) (D.may_leave desk.old) store.old }
{
    for name in names {
        if !store.is_sound() {
            return Ok(());
        }
        let file = fetch(rt, name.as_str())?;
        load_timed(rt, desk, store, steps, name.as_str(), file)?;
    }
    Ok(())
}

/// Opens the store in the current folder, and gives it the files that the words name.
fn run<C: Ledger>(rt: &HostRuntime, blank: Blank) -> anyhow::Result<()>
    requires name { blank.name ≡ C.name }
    requires parts { blank.parts ≡ C.parts }
    requires share { 0 < C.parts }
{
    let alloc = rt.alloc();
    let mut names = Vec::new(alloc);
    for word in env::args(rt)?.skip(1) {
        names.push(word)?;
    }
    let mut steps = Steps::<C>::new(blank);
    let mut desk = FolderDesk::new(rt);
    let start = Instant::now(rt)?;
    let mut store = open_store(alloc, &mut desk, &mut steps)?;
    let spent = start.elapsed(rt)?;
    println!(rt; "opened: {} cells", store.state().cells.len())?;
    eprintln!(rt; "opened: {} us", spent.as_micros())?;
    load_all(rt, &mut desk, &mut store, &mut steps, &names)
}

fn main(rt: HostRuntime) -> anyhow::Result<()> {
    run::<Brand>(&rt, Blank::new(1))
}
