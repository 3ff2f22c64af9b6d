//! Files in memory, and what is said of them.
//!
//! A checkpoint here has up to some hundred thousand bytes, so of a content its length is shown, and whether its bytes
//! are those of the pattern, which has no two slices alike that follow each other.

use bank_journal::BankContent;
use bank_pair::open_pair;
use chart_ports::{FailingCalls, FileBytes, Images, MemoryDesk};
use sample_devices::Untold;
use std::alloc::{AllocError, Global};

/// The bytes of the head and of the banks.
pub type Files<'a> = [&'a [u8]; 3];

/// Empty files.
pub const NOTHING: Files<'static> = [b"", b"", b""];

/// Files with these bytes.
fn images_of(alloc: Global, files: Files) -> Result<Images, AllocError> {
    let [head, bank1, bank2] = files;
    Ok(Images {
        head: FileBytes::from_vec(head.to_vec(alloc)?),
        bank1: FileBytes::from_vec(bank1.to_vec(alloc)?),
        bank2: FileBytes::from_vec(bank2.to_vec(alloc)?),
    })
}

/// Whether files have these bytes.
pub fn are_files(images: &Images, files: Files) -> bool {
    let [head, bank1, bank2] = files;
    images.head.as_slice() == head
        && images.bank1.as_slice() == bank1
        && images.bank2.as_slice() == bank2
}

/// A desk over files, that fails at one call, or at none where the number is 0.
fn desk_over(alloc: Global, start: Images, failing: u64) -> Result<Untold, AllocError> {
    let failing = FailingCalls::from_vec(vec![in alloc; failing]?);
    let memory = MemoryDesk::open(alloc, failing, start)?;
    Ok(Untold { memory })
}

/// A desk with these files, that fails so too.
pub fn desk_with(alloc: Global, files: Files, failing: u64) -> Result<Untold, AllocError> {
    desk_over(alloc, images_of(alloc, files)?, failing)
}

/// A checkpoint of so many bytes: the letters from A to Z, again and again. As 26 doesn't divide 65,536, no slice of it
/// is like the one before.
pub fn checkpoint_of(alloc: Global, count: usize) -> Result<Vec<u8>, AllocError> {
    let mut bytes = Vec::with_capacity(alloc, count)?;
    for at in 0..count {
        bytes.push(b'A' + (at % 26) as u8)?;
    }
    Ok(bytes)
}

/// A content as a text: the length of the checkpoint, with a ? where it has other bytes than `checkpoint_of`, and each
/// body behind a bar. The bodies have one byte.
fn shown(alloc: Global, content: &BankContent) -> Result<String, AllocError> {
    let checkpoint = content.checkpoint();
    let mut text = format!(in alloc; "{}", checkpoint.len())?;
    if checkpoint_of(alloc, checkpoint.len())?.as_slice() != checkpoint {
        text.push('?')?;
    }
    for number in 0..content.body_count() {
        text.push('|')?;
        text.push(match content.body(number) {
            [byte] => char::from(*byte),
            _ => '?',
        })?;
    }
    Ok(text)
}

/// What files say, as such a text, or why they are not opened.
pub fn opened(alloc: Global, images: Images) -> Result<String, AllocError> {
    let mut desk = desk_over(alloc, images, 0)?;
    match open_pair(alloc, &mut desk) {
        Ok((_, content)) => shown(alloc, &content),
        Err(fault) => format!(in alloc; "{fault:?}"),
    }
}

/// The same of files with these bytes.
pub fn says(alloc: Global, files: Files) -> Result<String, AllocError> {
    opened(alloc, images_of(alloc, files)?)
}
