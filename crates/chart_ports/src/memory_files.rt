//! Three files in memory.
//!
//! What a call needs is reserved before it is logged, so that the log and the files stay in step.

ghost use Rattle.std.specs.Prelude.{◌≡◌, ◌+◌, ◌≤◌, ◌++◌, ℕ, IfOk, IsOk, OnOk, length, take, vec_capacity, vec_len};
ghost use Rattle.chart_ports.specs.Disk.{with_bytes};
ghost use Rattle.chart_ports.specs.Log.{with_image};
ghost use Rattle.chart_ports.specs.Moments.{image_of};

use crate::file_bytes::FileBytes;
use crate::images::Images;
use std::alloc::{AllocError, Global};

/// Three files in memory.
#[derive(Debug, Drop)]
pub struct MemoryFiles {
    pub head: Vec<u8>,
    pub bank1: Vec<u8>,
    pub bank2: Vec<u8>,
}

/// Appends bytes, where there is room.
pub fn append(to: &mut Vec<u8>, bytes: &[u8])
    requires room { vec_len to.old + length bytes.now ≤ vec_capacity to.old }
    ensures items { to.new.items ≡ to.old.items ++ bytes.now }
    ensures len { vec_len to.new ≡ vec_len to.old + length bytes.now }
    ensures capacity { vec_capacity to.old ≤ vec_capacity to.new }
{
    // There is room.
    let _ = to.extend_from_slice(bytes);
}

/// Writes bytes over what is there from a place on, and past the end, where there is room.
fn overwrite(file: &mut Vec<u8>, at: usize, bytes: &[u8])
    requires place { at ≤ vec_len file.old }
    requires room { at + length bytes.now ≤ vec_capacity file.old }
    ensures written { file.new.items ≡ with_bytes at bytes.now file.old.items }
    ensures capacity { vec_capacity file.old ≤ vec_capacity file.new }
{
    let over = bytes.len().min(file.len() - at);
    file[at..at + over].copy_from_slice(&bytes[..over]);
    append(file, &bytes[over..]);
}

/// The same, with room taken for them, and at the end where the place is behind it.
#[tactic(auto, using(crate::proofs::Files::with_bytes_min))]
fn put_over(file: &mut Vec<u8>, at: u64, bytes: &[u8]) -> Result<(), AllocError>
    ensures { OnOk result (file.new.items ≡ with_bytes at bytes.now file.old.items) }
{
    file.reserve(bytes.len())?;
    let place = file.len().min(at as usize);
    overwrite(file, place, bytes);
    Ok(())
}

/// Puts bytes in the place of those that are there.
fn refill(file: &mut Vec<u8>, bytes: &[u8]) -> Result<(), AllocError>
    ensures { OnOk result (file.new.items ≡ bytes.now) }
{
    file.clear();
    file.extend_from_slice(bytes)
}

impl MemoryFiles {
    ghost use Rattle.chart_ports.specs.MemoryFiles.{HasFileRoom, files_in};

    /// The bytes of a file, none where there is no file of the number.
    #[tactic(auto, using(crate::proofs::Files::image_of_beyond))]
    pub fn bytes(&self, file: u8) -> &[u8]
        ensures { result.now ≡ image_of (files_in self.now) file }
    {
        match file {
            0 => self.head.as_slice(),
            1 => self.bank1.as_slice(),
            2 => self.bank2.as_slice(),
            _ => &[],
        }
    }

    /// Takes room for so many bytes more in each file.
    pub fn reserve(&mut self, count: usize) -> Result<(), AllocError>
        ensures files { files_in self.new ≡ files_in self.old }
        ensures room { OnOk result (HasFileRoom self.new count) }
        ensures kept { (n : ℕ) → HasFileRoom self.old n → HasFileRoom self.new n }
        ensures succeeds { HasFileRoom self.old count → IsOk result }
    {
        self.head.reserve(count)?;
        self.bank1.reserve(count)?;
        self.bank2.reserve(count)
    }

    /// Writes bytes into a file from a place on, where there is room.
    pub fn write(&mut self, file: u8, at: usize, bytes: &[u8])
        requires is_file { file ≤ 2 }
        requires place { at ≤ length (image_of (files_in self.old) file) }
        requires room { HasFileRoom self.old (length bytes.now) }
        ensures files { files_in self.new ≡ with_image (files_in self.old) file
            (with_bytes at bytes.now (image_of (files_in self.old) file)) }
        ensures kept { (n : ℕ) → HasFileRoom self.old (n + length bytes.now) → HasFileRoom self.new n }
    {
        match file {
            0 => overwrite(&mut self.head, at, bytes),
            1 => overwrite(&mut self.bank1, at, bytes),
            _ => overwrite(&mut self.bank2, at, bytes),
        }
    }

    /// Writes bytes into a file from a place on, or at its end where the place is behind it.
    #[tactic(auto, using(crate::proofs::Files::with_image_beyond))]
    pub fn put(&mut self, file: u8, at: u64, bytes: &[u8]) -> Result<(), AllocError>
        ensures { OnOk result (files_in self.new ≡ with_image (files_in self.old) file
            (with_bytes at bytes.now (image_of (files_in self.old) file))) }
    {
        match file {
            0 => put_over(&mut self.head, at, bytes),
            1 => put_over(&mut self.bank1, at, bytes),
            2 => put_over(&mut self.bank2, at, bytes),
            _ => Ok(()),
        }
    }

    /// Puts these bytes in the place of a file's.
    #[tactic(auto, using(crate::proofs::Files::with_image_beyond))]
    pub fn set(&mut self, file: u8, bytes: &[u8]) -> Result<(), AllocError>
        ensures { OnOk result (files_in self.new ≡ with_image (files_in self.old) file bytes.now) }
    {
        match file {
            0 => refill(&mut self.head, bytes),
            1 => refill(&mut self.bank1, bytes),
            2 => refill(&mut self.bank2, bytes),
            _ => Ok(()),
        }
    }

    /// Copies of the bytes of images.
    pub fn copy_of(alloc: Global, images: &Images) -> Result<MemoryFiles, AllocError>
        ensures { IfOk result (λ files. files_in files ≡ images.now) }
    {
        Ok(MemoryFiles {
            head: images.head.copy(alloc)?.into_vec(),
            bank1: images.bank1.copy(alloc)?.into_vec(),
            bank2: images.bank2.copy(alloc)?.into_vec(),
        })
    }

    /// The bytes as images. It takes no memory.
    pub fn into_images(self) -> Images
        ensures { result ≡ files_in self }
    {
        Images {
            head: FileBytes::from_vec(self.head),
            bank1: FileBytes::from_vec(self.bank1),
            bank2: FileBytes::from_vec(self.bank2),
        }
    }

    /// Cuts a file to a length.
    #[tactic(auto, using(crate::proofs::Files::with_image_beyond))]
    pub fn cut(&mut self, file: u8, length: usize)
        ensures files { files_in self.new ≡ with_image (files_in self.old) file
            (take length (image_of (files_in self.old) file)) }
        ensures kept { (n : ℕ) → HasFileRoom self.old n → HasFileRoom self.new n }
    {
        match file {
            0 => self.head.truncate(length),
            1 => self.bank1.truncate(length),
            2 => self.bank2.truncate(length),
            _ => {}
        }
    }
}
