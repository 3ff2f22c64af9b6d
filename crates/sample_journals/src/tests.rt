//! Banks and their records, worked out by hand.
//!
//! Room for the log is taken ahead, so that a call fails where its number is on the list and nowhere else. A content is
//! compared as a text, with a bar before each body.

ghost use Rattle.std.specs.Prelude.{◌≡◌, ◌≤◌, length};

mod appending;
mod far;
mod opening;

use bank_journal::{BankContent, BankFault, open_bank};
use chart_ports::{FailingCalls, FileBytes, Images, MemoryDesk};
use sample_devices::Untold;
use std::alloc::{AllocError, Global};

/// A desk with these bytes as bank 1, where the calls of these numbers fail. What it logs takes no memory.
fn desk_of(alloc: Global, bank: &[u8], failing: &[u64]) -> Result<Untold, AllocError> {
    let bank = bank.to_vec(alloc)?;
    let failing = FailingCalls::from_vec(failing.to_vec(alloc)?);
    let start = Images {
        head: FileBytes::from_vec(Vec::new(alloc)),
        bank1: FileBytes::from_vec(bank),
        bank2: FileBytes::from_vec(Vec::new(alloc)),
    };
    let mut desk = MemoryDesk::open(alloc, failing, start)?;
    desk.reserve(alloc, 16, 99)?;
    Ok(Untold { memory: desk })
}

/// A content as a text: the checkpoint, and each body behind a bar.
fn shown(alloc: Global, content: &BankContent) -> Result<Vec<u8>, AllocError> {
    let mut text = content.checkpoint().to_vec(alloc)?;
    for number in 0..content.body_count() {
        text.push(b'|')?;
        text.extend_from_slice(content.body(number))?;
    }
    Ok(text)
}

/// What a bank reads as, as such a text.
fn read_as(alloc: Global, bank: &[u8]) -> Result<Vec<u8>, BankFault> {
    let mut desk = desk_of(alloc, bank, &[])?;
    let (_, content) = open_bank(alloc, &mut desk, 1)?;
    Ok(shown(alloc, &content)?)
}
