//! The program `chart_picture`: it draws the charts that cell files leave, on standard output.
//!
//! `run_picture` does all that it does; `main` hands it the real devices.
#![tactic(auto)]

mod run;

ghost use Rattle.std.specs.Prelude.{◌≡◌, ◌<◌};

use crate::run::end::End;
use crate::run::run_picture;
use chart_ports::{FolderDesk, FolderShelf, Steps};
use std::env::Env;
use std::io::ErrorKind;
use std::marker::Brand;
use std::process::ExitCode;
use std::sync::ledger::{Blank, Ledger};
use std::{env, io};

/// The words of the command line, the program's name first.
fn words<R: Env + AllocGlobal>(rt: &R) -> io::Result<Vec<String>> {
    let mut words = Vec::new(rt.alloc());
    for word in env::args(rt)? {
        words.push(word)?;
    }
    Ok(words)
}

/// Runs over the current folder and standard output. The desk's files are never asked for.
fn run_here<C: Ledger>(rt: &HostRuntime, blank: Blank) -> End
    requires name { blank.name ≡ C.name }
    requires parts { blank.parts ≡ C.parts }
    requires share { 0 < C.parts }
{
    let words = match words(rt) {
        Ok(words) => words,
        Err(error) if error.kind() == ErrorKind::OutOfMemory => return End::NoMemory,
        // A word that is no text is none that the program takes.
        Err(_) => return End::Words,
    };
    let mut shelf = FolderShelf::new(rt);
    let mut desk = FolderDesk::new(rt);
    let mut steps = Steps::<C>::new(blank);
    run_picture(rt.alloc(), &words, &mut shelf, &mut desk, &mut steps)
}

/// Tells on standard error how the run ended. What isn't a visible ASCII character stands escaped, so that a name can't
/// do to a terminal what its bytes say.
fn tell(rt: &HostRuntime, end: &End) {
    if let Ok(line) = end.line(rt.alloc()) {
        let line = line.as_slice().escape_ascii();
        // Where standard error fails too, the number still tells.
        let _ = eprintln!(rt; "{line}");
    }
}

fn main(rt: HostRuntime) -> ExitCode {
    let end = run_here::<Brand>(&rt, Blank::new(1));
    if end.number() != 0 {
        tell(&rt, &end);
    }
    ExitCode::from(end.number())
}
