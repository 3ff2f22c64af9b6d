//! What is answered and what is held, as texts.
//!
//! A text is compared in one step, and can stand in a table. Of a chart its numbers and its count of vector records are
//! shown: they tell which files it was built of, and that is what the tests of a store ask.

use chart_model::{Held, HoldingMap, Key, NameList};
use chart_store::{Accepted, SubmitFault, TakeFault, Taken};
use std::alloc::{AllocError, Global};

/// The numbers that are held of a cell, and the names whose records differ.
fn numbers(alloc: Global, held: &Held, changed: &NameList) -> Result<String, AllocError> {
    let mut text = format!(in alloc; "{} {} {}", held.edition, held.update, held.cancelled)?;
    for name in changed.as_slice() {
        text.push_str(format!(in alloc; " {}/{}", name.rcnm, name.rcid)?.as_str())?;
    }
    Ok(text)
}

/// What was answered without a bank: the numbers, and the names whose records differ.
pub fn answered(alloc: Global, answer: Result<Taken, TakeFault>) -> Result<String, AllocError> {
    match answer {
        Ok(taken) => numbers(alloc, &taken.held, &taken.changed),
        Err(TakeFault::Refused(refusal)) => format!(in alloc; "{refusal:?}"),
        Err(TakeFault::NoMemory) => String::from_str(alloc, "NoMemory"),
    }
}

/// What an accepted command did: the cell, the count, whether there was a chart before, the numbers, and the names
/// whose records differ.
fn accepted(alloc: Global, done: &Accepted) -> Result<String, AllocError> {
    let key = String::from_utf8_lossy(alloc, done.key.as_slice())?;
    let numbers = numbers(alloc, &done.held, &done.changed)?;
    let before = if done.old.is_some() {
        "a chart"
    } else {
        "none"
    };
    format!(in alloc; "{key} {} over {before}: {numbers}", done.count)
}

/// What a store answered.
pub fn submitted(
    alloc: Global,
    answer: &Result<Accepted, SubmitFault>,
) -> Result<String, AllocError> {
    match answer {
        Ok(done) => accepted(alloc, done),
        Err(fault) => refused(alloc, fault),
    }
}

/// Why a store did not accept.
pub fn refused(alloc: Global, fault: &SubmitFault) -> Result<String, AllocError> {
    match fault {
        SubmitFault::Refused(refusal) => format!(in alloc; "{refusal:?}"),
        SubmitFault::DeskFault => String::from_str(alloc, "DeskFault"),
        SubmitFault::NoMemory => String::from_str(alloc, "NoMemory"),
    }
}

/// What is held, as a text: of each cell its key, its edition and update, and how many files; of its chart the edition
/// and the update, and how many vector records.
pub fn shown(alloc: Global, cells: &HoldingMap) -> Result<String, AllocError> {
    let mut text = String::new(alloc);
    for (key, here) in cells.iter() {
        let key = String::from_utf8_lossy(alloc, key.as_slice())?;
        let (held, files) = (&here.held, here.files.as_slice().len());
        let cell = format!(in alloc; "{key} {}.{} {files}", held.edition, held.update)?;
        let chart = match &here.chart {
            Some(chart) => {
                let (header, vectors) = (&chart.header, chart.vectors.len());
                format!(in alloc; " {}.{} {vectors}", header.edition, header.update)?
            }
            None => String::new(alloc),
        };
        text.push_str(format!(in alloc; "{cell}{chart};")?.as_str())?;
    }
    Ok(text)
}
