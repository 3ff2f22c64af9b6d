//! What a log of calls leaves, call by call, with the bytes that are uncertain filled.
//!
//! A desk keeps the files that it began with, those of now and the log between, and no image of other moments. So a
//! call costs what it writes, and the images of a moment are made where a test asks for them, by the calls up to it.

ghost use Rattle.std.specs.Prelude.{◌≡◌, ◌≤◌, ◌-◌, List, ℕ, OnOk, IfOk, length, take};
ghost use Rattle.chart_ports.specs.Disk.{with_bytes};
ghost use Rattle.chart_ports.specs.Filled.{files_through, images_by, kept_after, kept_through, ones};
ghost use Rattle.chart_ports.specs.Log.{events_of, files_after, size_of, with_image};
ghost use Rattle.chart_ports.specs.MemoryFiles.{files_in};
ghost use Rattle.chart_ports.specs.Moments.{image_of};

use crate::images::{Fill, Images};
use crate::log::{Deed, Logged};
use crate::memory_files::MemoryFiles;
use std::alloc::{AllocError, Global};

/// The files after a call.
fn follow_files(files: &mut MemoryFiles, deed: Deed, bytes: &[u8]) -> Result<(), AllocError>
    ensures { OnOk result (files_in files.new ≡ files_after (files_in files.old) deed bytes.now) }
{
    match deed {
        Deed::Write { file, at, done } => files.put(file, at, &bytes[..done.min(bytes.len())]),
        Deed::Cut {
            file,
            length,
            done: true,
        } => {
            files.cut(file, length as usize);
            Ok(())
        }
        _ => Ok(()),
    }
}

/// Fills the range of a write with ones, up to the length that the file has after it.
#[tactic(auto, using(crate::proofs::Files::with_image_twice))]
fn fill_write(
    alloc: Global,
    kept: &mut MemoryFiles,
    file: u8,
    at: u64,
    count: usize,
    end: usize,
) -> Result<(), AllocError>
    ensures { OnOk result (files_in kept.new ≡ with_image (files_in kept.old) file
        (take end (with_bytes at (ones count) (image_of (files_in kept.old) file)))) }
{
    let filling = vec![in alloc; 0xff; count]?;
    kept.put(file, at, &filling)?;
    kept.cut(file, end);
    Ok(())
}

/// Fills what is behind a cut that was not done with ones.
fn fill_cut(alloc: Global, kept: &mut MemoryFiles, file: u8, at: u64) -> Result<(), AllocError>
    ensures { OnOk result (files_in kept.new ≡ with_image (files_in kept.old) file
        (with_bytes at (ones (length (image_of (files_in kept.old) file) - at)) (image_of (files_in kept.old) file))) }
{
    let count = (kept.bytes(file).len() as u64).saturating_sub(at);
    let filling = vec![in alloc; 0xff; count as usize]?;
    kept.put(file, at, &filling)
}

/// What is kept of the files, with ones in the places that were touched since the last sync.
fn follow_ones(
    alloc: Global,
    kept: &mut MemoryFiles,
    files: &MemoryFiles,
    deed: Deed,
    bytes: &[u8],
) -> Result<(), AllocError>
    ensures { OnOk result (files_in kept.new
        ≡ kept_after Fill.Ones (files_in kept.old) (files_in files.now) deed bytes.now) }
{
    match deed {
        Deed::Write { file, at, .. } => {
            let end = files.bytes(file).len();
            fill_write(alloc, kept, file, at, bytes.len(), end)
        }
        Deed::Cut {
            file,
            length,
            done: true,
        } => {
            kept.cut(file, length as usize);
            Ok(())
        }
        Deed::Cut {
            file,
            length,
            done: false,
        } => fill_cut(alloc, kept, file, length),
        Deed::Sync { file, done: true } => kept.set(file, files.bytes(file)),
        _ => Ok(()),
    }
}

/// What is kept of the files, as the last sync left each.
fn follow_synced(kept: &mut MemoryFiles, files: &MemoryFiles, deed: Deed) -> Result<(), AllocError>
    ensures old { (bytes : List ℕ) → OnOk result (files_in kept.new
        ≡ kept_after Fill.Old (files_in kept.old) (files_in files.now) deed bytes) }
    ensures new { (bytes : List ℕ) → OnOk result (files_in kept.new
        ≡ kept_after Fill.New (files_in kept.old) (files_in files.now) deed bytes) }
{
    match deed {
        Deed::Sync { file, done: true } => kept.set(file, files.bytes(file)),
        _ => Ok(()),
    }
}

fn follow_kept(
    alloc: Global,
    kept: &mut MemoryFiles,
    files: &MemoryFiles,
    deed: Deed,
    bytes: &[u8],
    fill: Fill,
) -> Result<(), AllocError>
    ensures { OnOk result (files_in kept.new
        ≡ kept_after fill (files_in kept.old) (files_in files.now) deed bytes.now) }
{
    match fill {
        Fill::Old | Fill::New => follow_synced(kept, files, deed),
        Fill::Ones => follow_ones(alloc, kept, files, deed, bytes),
    }
}

/// The files after the calls of a log, and what is kept of them for a fill.
pub fn replay(
    alloc: Global,
    files: &mut MemoryFiles,
    kept: &mut MemoryFiles,
    log: &[Logged],
    bytes: &[u8],
    fill: Fill,
) -> Result<(), AllocError>
    requires { size_of log.now ≤ length bytes.now }
    ensures files { OnOk result (files_in files.new
        ≡ files_through (files_in files.old) (events_of log.now bytes.now)) }
    ensures kept { OnOk result (files_in kept.new
        ≡ kept_through fill (files_in kept.old) (files_in files.old) (events_of log.now bytes.now)) }
{
    let mut log = log;
    let mut bytes = bytes;
    while let [first, rest @ ..] = log {
        let (given, left) = bytes.split_at(first.size);
        follow_files(files, first.deed, given)?;
        follow_kept(alloc, kept, files, first.deed, given, fill)?;
        log = rest;
        bytes = left;
    }
    Ok(())
}

/// The images by a fill, at the lengths of the files.
pub fn pick(files: MemoryFiles, kept: MemoryFiles, fill: Fill) -> Result<Images, AllocError>
    ensures { IfOk result (λ images. images ≡ images_by fill (files_in files) (files_in kept)) }
{
    let mut kept = kept;
    match fill {
        Fill::New => Ok(files.into_images()),
        Fill::Ones => Ok(kept.into_images()),
        Fill::Old => {
            kept.head.resize(files.head.len(), 0)?;
            kept.bank1.resize(files.bank1.len(), 0)?;
            kept.bank2.resize(files.bank2.len(), 0)?;
            Ok(kept.into_images())
        }
    }
}
